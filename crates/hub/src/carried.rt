//! Values that are carried.
ghost use Rattle.std.specs.Prelude.{◌≡◌};

use collections::{Memory, TryClone};
use std::marker::Model;

// Carried generically: a value on its way, which clauses see as that value, and whose type no proof opens.
pub(crate) struct Carried<T> {
    value: T,
}

impl<T> Model for Carried<T> {
    ghost Value = { T };

    ghost coded = { T.code };

    ghost view = { λ own. own.value };
}

// Dropped once.
impl<T: Drop> Drop for Carried<T> {
    fn drop(self) {
        let Carried { value: _ } = self;
    }
}

impl<T> Carried<T> {
    pub(crate) fn new(value: T) -> Carried<T>
        ensures { result ≡ value }
    {
        Carried { value }
    }

    pub(crate) fn get(&self) -> &T
        ensures { result.now ≡ self.now }
    {
        &self.value
    }

    pub(crate) fn into_inner(self) -> T
        ensures { result ≡ self }
    {
        let Carried { value } = self;
        value
    }
}

impl<T: TryClone + Drop> TryClone for Carried<T> {
    fn try_clone(&self) -> Result<Carried<T>, Memory> {
        let value = self.value.try_clone()?;
        Ok(Carried { value })
    }
}
