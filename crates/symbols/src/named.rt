//! Operations that have a symbol.
ghost use Rattle.std.specs.Prelude.{◌≡◌, [], IfOk};

use evaluation::collections::{Items, Memory, TryClone};
use linear::Linear;
use std::alloc::Global;
use std::marker::Model;
use std::rc::Rc;

/// A product, or a quotient, and the symbol of its number.
pub struct Named {
    pub(crate) divides: bool,
    pub(crate) left: Linear,
    pub(crate) right: Linear,
    pub(crate) symbol: usize,
}

// Dropped once.
impl Drop for Named {
    fn drop(self) {
        let Named {
            divides: _,
            left: _,
            right: _,
            symbol: _,
        } = self;
    }
}

impl TryClone for Named {
    fn try_clone(&self) -> Result<Named, Memory> {
        let left = self.left.try_clone()?;
        let right = self.right.try_clone()?;
        Ok(Named {
            divides: self.divides,
            left,
            right,
            symbol: self.symbol,
        })
    }
}

// A list of its own, or one that copies share.
#[derive(Drop)]
enum Home {
    Own(Items<Named>),
    Shared(Rc<Items<Named>, Global>),
}

/// Operations, the newest last, which copies share. Clauses see the list.
pub(crate) struct Operations {
    home: Home,
}

// Dropped once.
impl Drop for Operations {
    fn drop(self) {
        let Operations { home: _ } = self;
    }
}

impl Model for Operations {
    ghost use Rattle.std.specs.Prelude.{List};
    ghost use Rattle.std.specs.Rc.{rc_value};
    ghost use Rattle.symbols.specs.declared.named.Named.{Named};
    ghost use Rattle.symbols.specs.declared.named.Home.TheVariants.{Own, Shared};

    ghost Value = { List Named };

    ghost view = { λ a. elim a.home [ Own own ↦ own | Shared shared ↦ rc_value shared ] };
}

impl TryClone for Operations {
    fn try_clone(&self) -> Result<Operations, Memory> {
        match &self.home {
            Home::Own(own) => {
                let copy = own.try_clone()?;
                Ok(Operations {
                    home: Home::Own(copy),
                })
            }
            Home::Shared(shared) => {
                let owner = shared.clone()?;
                Ok(Operations {
                    home: Home::Shared(owner),
                })
            }
        }
    }
}

impl Operations {
    /// None yet, in a list that will take memory from `alloc`.
    pub(crate) fn none(alloc: Global) -> Operations
        ensures { result ≡ [] }
    {
        Operations {
            home: Home::Own(Items::new(alloc)),
        }
    }

    /// Those of a list.
    pub(crate) fn of(alloc: Global, list: Items<Named>) -> Result<Operations, Memory>
        ensures { IfOk result (λ all. all ≡ list) }
    {
        let home = Home::Shared(Rc::new(alloc, list)?);
        Ok(Operations { home })
    }

    /// A list of the same.
    pub(crate) fn own(&self) -> Result<Items<Named>, Memory>
        ensures { IfOk result (λ list. list ≡ self.now) }
    {
        match &self.home {
            Home::Own(own) => own.try_clone(),
            Home::Shared(shared) => shared.try_clone(),
        }
    }

    /// The operations in their order.
    pub(crate) fn as_slice(&self) -> &[Named]
        ensures { result.now ≡ self.now }
    {
        match &self.home {
            Home::Own(own) => own.as_slice(),
            Home::Shared(shared) => shared.as_slice(),
        }
    }
}
