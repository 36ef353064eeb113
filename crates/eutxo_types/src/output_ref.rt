//! References of outputs.
ghost use Rattle.std.specs.Prelude.{◌≡◌};
ghost use Rattle.eutxo_types.specs.Parts.{same_ref};

use contract::{Memory, Same, TryClone};

/// What names an output (The Extended UTXO Model, "Basic UTXO Ledger"): one that the ledger began with, by its
/// place among those, or one that a transaction made, by that transaction's id and the output's place among its
/// outputs. Places count from 0.
#[derive(Clone, Copy, Debug, PartialEq, Eq, Hash)]
pub enum OutputRef {
    /// An output that the ledger began with.
    Genesis { index: u64 },
    /// An output of the accepted transaction with this id.
    Made { id: [u8; 32], index: u64 },
}

impl OutputRef {
    /// Whether both name one output.
    pub fn is_same(self, other: OutputRef) -> bool
        ensures { result ≡ same_ref self other }
    {
        match (self, other) {
            (OutputRef::Genesis { index: i }, OutputRef::Genesis { index: j }) => i == j,
            (OutputRef::Made { id: n, index: i }, OutputRef::Made { id: m, index: j }) => {
                n == m && i == j
            }
            (OutputRef::Genesis { .. }, OutputRef::Made { .. }) => false,
            (OutputRef::Made { .. }, OutputRef::Genesis { .. }) => false,
        }
    }
}

impl TryClone for OutputRef {
    fn try_clone(&self) -> Result<OutputRef, Memory> {
        Ok(*self)
    }
}

impl Same for OutputRef {
    fn same(&self, other: &OutputRef) -> bool {
        *self == *other
    }
}
