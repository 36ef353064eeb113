//! Values on the heap.
ghost use Rattle.std.specs.Prelude.{◌≡◌, IfOk};

use crate::try_clone::{Memory, TryClone};
use std::alloc::Global;
use std::hash::{Hash, Hasher};
use std::marker::Model;

/// A value on the heap, which clauses see as that value.
#[derive(Debug, Drop)]
pub struct Boxed<T> {
    home: Box<T>,
}

impl<T> Model for Boxed<T> {
    ghost Value = { T };

    ghost coded = { T.code };

    ghost view = { λ own. own.home.value };
}

impl<T> Boxed<T> {
    /// The allocator that the value's memory is from.
    pub fn allocator(&self) -> Global {
        *Box::allocator(&self.home)
    }

    /// Puts a value on the heap, or is refused for memory and drops the value.
    pub fn new(alloc: Global, value: T) -> Result<Boxed<T>, Memory>
    where
        T: Drop,
        ensures { IfOk result (λ boxed. boxed ≡ value) }
    {
        let home = Box::new(alloc, value)?;
        Ok(Boxed { home })
    }

    /// The value.
    pub fn get(&self) -> &T
        ensures { result.now ≡ self.now }
    {
        &self.home
    }

    /// Gives the value back, and takes no memory.
    pub fn into_inner(self) -> T
        ensures { result ≡ self }
    {
        let Boxed { home } = self;
        Box::into_inner(home)
    }
}

impl<T: TryClone + Drop> TryClone for Boxed<T> {
    fn try_clone(&self) -> Result<Boxed<T>, Memory> {
        Boxed::new(self.allocator(), self.get().try_clone()?)
    }
}

impl<T: PartialEq> PartialEq for Boxed<T> {
    ghost eq = { T.eq };

    ghost laws = { T.laws };

    fn eq(&self, other: &Boxed<T>) -> bool {
        *self.get() == *other.get()
    }
}

impl<T: Eq> Eq for Boxed<T> {
    ghost laws = { T.Eq.laws };
}

impl<T: Hash> Hash for Boxed<T> {
    ghost hash_input = { T.hash_input };

    ghost respects_eq = { T.respects_eq };

    fn hash<H: Hasher>(&self, state: &mut H) {
        self.get().hash(state);
    }
}
