//! Where a contract of a table stands.
use contract::{Memory, Same, State, TryClone};
use std::hash::Hash;
use table::Cont;

/// What is kept of a running contract between its transactions: the continuation of its table that is gone on
/// with, and its state.
#[derive(Drop, Hash)]
pub struct Datum {
    pub cont: Cont,
    pub state: State,
}

impl TryClone for Datum {
    fn try_clone(&self) -> Result<Datum, Memory> {
        let state = self.state.try_clone()?;
        Ok(Datum {
            cont: self.cont,
            state,
        })
    }
}

impl Same for Datum {
    fn same(&self, other: &Datum) -> bool {
        self.cont == other.cont && self.state.same(&other.state)
    }
}

impl PartialEq for Datum {
    ghost use Rattle.contract.specs.Collections.Same.{same_by};
    ghost use Rattle.contract.proofs.FromCollections.SameLaws.{same_by-partial};
    ghost use Rattle.machine.specs.contracts.datum.Datum as it;

    ghost eq = { same_by it.the_row.coded };

    ghost laws = { same_by-partial it.the_row.coded };

    fn eq(&self, other: &Datum) -> bool {
        self.same(other)
    }
}

impl Eq for Datum {
    ghost use Rattle.contract.proofs.FromCollections.SameLaws.{same_by-equiv};
    ghost use Rattle.machine.specs.contracts.datum.Datum as it;

    ghost laws = { same_by-equiv it.the_row.coded };
}

#[derived]
impl Hash for Datum {
    ghost use Rattle.std.specs.Hash.{same_Alike};
    ghost use Rattle.contract.proofs.FromCollections.SameLaws.{same_by_decides};
    ghost use Rattle.machine.specs.contracts.datum.Datum as it;

    ghost respects_eq = { (same_Alike _ (same_by_decides it.the_row.coded)).fed };
}
