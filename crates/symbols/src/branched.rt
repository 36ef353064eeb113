//! Symbols that have the number of an expression in a branch.
ghost use Rattle.std.specs.Prelude.{◌≡◌, IfOk};

use evaluation::collections::{Items, Memory, TryClone};
use linear::Linear;
use std::alloc::Global;
use std::marker::Model;
use std::rc::Rc;

/// Where each of its facts is at least 0, and what is apart isn't 0, the symbol has the number.
pub struct Branched {
    pub(crate) facts: Items<Linear>,
    pub(crate) apart: Items<Linear>,
    pub(crate) symbol: usize,
    pub(crate) number: Linear,
}

// Dropped once.
impl Drop for Branched {
    fn drop(self) {
        let Branched {
            facts: _,
            apart: _,
            symbol: _,
            number: _,
        } = self;
    }
}

// A branch that stays as it is, with several owners.
pub(crate) struct SharedBranch {
    branch: Rc<Branched, Global>,
}

// Dropped once.
impl Drop for SharedBranch {
    fn drop(self) {
        let SharedBranch { branch: _ } = self;
    }
}

impl Model for SharedBranch {
    ghost use Rattle.std.specs.Rc.{rc_value};
    ghost use Rattle.symbols.specs.declared.branched.Branched.{Branched};

    ghost Value = { Branched };

    ghost view = { λ a. rc_value a.branch };
}

impl SharedBranch {
    pub(crate) fn new(branch: Branched) -> Result<SharedBranch, Memory>
        ensures { IfOk result (λ s. s ≡ branch) }
    {
        let branch = Rc::new(branch.number.memory(), branch)?;
        Ok(SharedBranch { branch })
    }

    pub(crate) fn get(&self) -> &Branched
        ensures { result.now ≡ self.now }
    {
        &self.branch
    }
}

impl TryClone for SharedBranch {
    fn try_clone(&self) -> Result<SharedBranch, Memory> {
        let branch = self.branch.clone()?;
        Ok(SharedBranch { branch })
    }
}
