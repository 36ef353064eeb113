//! Copies, equality and hashes: what `==` answers is whether the two are the same.
ghost use Rattle.std.specs.Prelude.{◌≡◌};

use crate::bundle::Bundle;
use crate::walk::copy_all;
use names::collections::{Memory, Same, TryClone, same_entries};
use std::hash::{Hash, Hasher};

impl TryClone for Bundle {
    fn try_clone(&self) -> Result<Bundle, Memory> {
        let entries = self.list();
        let mut copies = Vec::with_capacity(*self.entries.allocator(), entries.len())?;
        copy_all(&mut copies, entries)?;
        Ok(Bundle { entries: copies })
    }
}

impl Same for Bundle {
    fn same(&self, other: &Bundle) -> bool {
        same_entries(self.list(), other.list())
    }
}

impl PartialEq for Bundle {
    ghost use Rattle.names.specs.Collections.Same.{same_by};
    ghost use Rattle.names.proofs.FromCollections.SameLaws.{same_by-partial};
    ghost use Rattle.bundle.specs.contracts.bundle.Bundle as it;

    ghost eq = { same_by it.the_row.coded };

    ghost laws = { same_by-partial it.the_row.coded };

    fn eq(&self, other: &Bundle) -> bool {
        self.same(other)
    }
}

impl Eq for Bundle {
    ghost use Rattle.names.proofs.FromCollections.SameLaws.{same_by-equiv};
    ghost use Rattle.bundle.specs.contracts.bundle.Bundle as it;

    ghost laws = { same_by-equiv it.the_row.coded };
}

impl Hash for Bundle {
    ghost use Rattle.names.proofs.FromCollections.SameLaws.{same_by_decides};
    ghost use Rattle.std.proofs.Common.{ap};
    ghost use Rattle.bundle.specs.HashingSupport.{bundle_fed};
    ghost use Rattle.bundle.specs.contracts.bundle.Bundle as it;

    ghost hash_input = { bundle_fed };

    ghost respects_eq = { λ x y h. ap bundle_fed ((same_by_decides it.the_row.coded x y).0 h) };

    fn hash<H: Hasher>(&self, state: &mut H) {
        self.list().hash(state);
    }
}
