//! Equality: what `==` answers is whether the two are the same.
use crate::call::{Call, Entry, Reply, Ticketed};
use contract::Same;

impl PartialEq for Call {
    ghost use Rattle.contract.specs.Collections.Same.{same_by};
    ghost use Rattle.contract.proofs.FromCollections.SameLaws.{same_by-partial};
    ghost use Rattle.ledger.specs.contracts.call.Call as it;

    ghost eq = { same_by it.the_row.coded };

    ghost laws = { same_by-partial it.the_row.coded };

    fn eq(&self, other: &Call) -> bool {
        self.same(other)
    }
}

impl Eq for Call {
    ghost use Rattle.contract.proofs.FromCollections.SameLaws.{same_by-equiv};
    ghost use Rattle.ledger.specs.contracts.call.Call as it;

    ghost laws = { same_by-equiv it.the_row.coded };
}

impl PartialEq for Ticketed {
    ghost use Rattle.contract.specs.Collections.Same.{same_by};
    ghost use Rattle.contract.proofs.FromCollections.SameLaws.{same_by-partial};
    ghost use Rattle.ledger.specs.contracts.call.Ticketed as it;

    ghost eq = { same_by it.the_row.coded };

    ghost laws = { same_by-partial it.the_row.coded };

    fn eq(&self, other: &Ticketed) -> bool {
        self.same(other)
    }
}

impl Eq for Ticketed {
    ghost use Rattle.contract.proofs.FromCollections.SameLaws.{same_by-equiv};
    ghost use Rattle.ledger.specs.contracts.call.Ticketed as it;

    ghost laws = { same_by-equiv it.the_row.coded };
}

impl PartialEq for Reply {
    ghost use Rattle.contract.specs.Collections.Same.{same_by};
    ghost use Rattle.contract.proofs.FromCollections.SameLaws.{same_by-partial};
    ghost use Rattle.ledger.specs.contracts.call.Reply as it;

    ghost eq = { same_by it.the_row.coded };

    ghost laws = { same_by-partial it.the_row.coded };

    fn eq(&self, other: &Reply) -> bool {
        self.same(other)
    }
}

impl Eq for Reply {
    ghost use Rattle.contract.proofs.FromCollections.SameLaws.{same_by-equiv};
    ghost use Rattle.ledger.specs.contracts.call.Reply as it;

    ghost laws = { same_by-equiv it.the_row.coded };
}

impl PartialEq for Entry {
    ghost use Rattle.contract.specs.Collections.Same.{same_by};
    ghost use Rattle.contract.proofs.FromCollections.SameLaws.{same_by-partial};
    ghost use Rattle.ledger.specs.contracts.call.Entry as it;

    ghost eq = { same_by it.the_row.coded };

    ghost laws = { same_by-partial it.the_row.coded };

    fn eq(&self, other: &Entry) -> bool {
        self.same(other)
    }
}

impl Eq for Entry {
    ghost use Rattle.contract.proofs.FromCollections.SameLaws.{same_by-equiv};
    ghost use Rattle.ledger.specs.contracts.call.Entry as it;

    ghost laws = { same_by-equiv it.the_row.coded };
}
