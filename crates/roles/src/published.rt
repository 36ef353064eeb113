//! Published contracts.
use compiler::table::{Cont, Table};
use contract::{Bytes, Memory, Same, TryClone};

/// A published contract: the script that judges the transactions of all contracts that start from it.
/// The names of roles are those of tokens of one currency (Marlowe specification version 3,
/// "Participants, roles and public keys"), so the same contract under another currency is another
/// script. What `publish` makes has the contract's table, the number in it that stands for the
/// contract, and the id that follows from contract and currency.
pub struct Published {
    /// By which contract outputs name it: 32 bytes.
    pub id: [u8; 32],
    /// The contract and its parts, by number.
    pub table: Table,
    /// Where the contract starts.
    pub root: Cont,
    /// The currency symbol of the roles' tokens.
    pub currency: Bytes,
}

// Dropped once: the drop is written, not derived, so that no crate above proves it again.
impl Drop for Published {
    fn drop(self) {
        let Published {
            id: _,
            table: _,
            root: _,
            currency: _,
        } = self;
    }
}

impl TryClone for Published {
    fn try_clone(&self) -> Result<Published, Memory> {
        let table = self.table.try_clone()?;
        let currency = self.currency.try_clone()?;
        Ok(Published {
            id: self.id,
            table,
            root: self.root,
            currency,
        })
    }
}

impl Same for Published {
    fn same(&self, other: &Published) -> bool {
        self.id == other.id
            && self.root == other.root
            && self.currency.same(&other.currency)
            && self.table.same(&other.table)
    }
}

impl PartialEq for Published {
    ghost use Rattle.contract.specs.Collections.Same.{same_by};
    ghost use Rattle.contract.proofs.FromCollections.SameLaws.{same_by-partial};
    ghost use Rattle.roles.specs.contracts.published.Published as it;

    ghost eq = { same_by it.the_row.coded };

    ghost laws = { same_by-partial it.the_row.coded };

    fn eq(&self, other: &Published) -> bool {
        self.same(other)
    }
}

impl Eq for Published {
    ghost use Rattle.contract.proofs.FromCollections.SameLaws.{same_by-equiv};
    ghost use Rattle.roles.specs.contracts.published.Published as it;

    ghost laws = { same_by-equiv it.the_row.coded };
}
