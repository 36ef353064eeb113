//! Scripts with several owners.
ghost use Rattle.std.specs.Prelude.{◌≡◌};
ghost use Rattle.std.specs.Arc.{arc_value};

use contract::{Memory, Same, TryClone};
use std::alloc::Global;
use std::marker::Model;
use std::sync::Arc;

/// A script with several owners. Clauses see the script. A copy is a further owner.
#[derive(Drop)]
pub struct Shared<V> {
    object: Arc<V, Global>,
}

impl<V> Model for Shared<V> {
    ghost use Rattle.std.specs.Arc.{arc_value};

    ghost Value = { V };

    ghost coded = { V.code };

    ghost view = { λ a. arc_value a.object };
}

impl<V> Shared<V> {
    /// The script that an `Arc` owns.
    pub fn new(object: Arc<V, Global>) -> Shared<V>
        ensures { result ≡ arc_value object }
    {
        Shared { object }
    }

    /// The script.
    pub fn get(&self) -> &V
        ensures { result.now ≡ self.now }
    {
        &self.object
    }
}

impl<V> TryClone for Shared<V> {
    fn try_clone(&self) -> Result<Shared<V>, Memory> {
        let object = Arc::try_clone(&self.object)?;
        Ok(Shared { object })
    }
}

impl<V: Same> Same for Shared<V> {
    fn same(&self, other: &Shared<V>) -> bool {
        self.get().same(other.get())
    }
}

impl<V: PartialEq> PartialEq for Shared<V> {
    ghost eq = { V.eq };

    ghost laws = { V.laws };

    fn eq(&self, other: &Shared<V>) -> bool {
        *self.get() == *other.get()
    }
}

impl<V: Eq> Eq for Shared<V> {
    ghost laws = { V.Eq.laws };
}
