//! Equality: what `==` answers is whether the two are the same.
use crate::lock::Lock;
use crate::output::Output;
use crate::redeemer::Redeemer;
use crate::spend::Spend;
use crate::tx::Tx;
use contract::Same;

impl PartialEq for Lock {
    ghost use Rattle.contract.specs.Collections.Same.{same_by};
    ghost use Rattle.contract.proofs.FromCollections.SameLaws.{same_by-partial};
    ghost use Rattle.eutxo_types.specs.contracts.lock.Lock as it;

    ghost eq = { same_by it.the_row.coded };

    ghost laws = { same_by-partial it.the_row.coded };

    fn eq(&self, other: &Lock) -> bool {
        self.same(other)
    }
}

impl Eq for Lock {
    ghost use Rattle.contract.proofs.FromCollections.SameLaws.{same_by-equiv};
    ghost use Rattle.eutxo_types.specs.contracts.lock.Lock as it;

    ghost laws = { same_by-equiv it.the_row.coded };
}

impl PartialEq for Output {
    ghost use Rattle.contract.specs.Collections.Same.{same_by};
    ghost use Rattle.contract.proofs.FromCollections.SameLaws.{same_by-partial};
    ghost use Rattle.eutxo_types.specs.contracts.output.Output as it;

    ghost eq = { same_by it.the_row.coded };

    ghost laws = { same_by-partial it.the_row.coded };

    fn eq(&self, other: &Output) -> bool {
        self.same(other)
    }
}

impl Eq for Output {
    ghost use Rattle.contract.proofs.FromCollections.SameLaws.{same_by-equiv};
    ghost use Rattle.eutxo_types.specs.contracts.output.Output as it;

    ghost laws = { same_by-equiv it.the_row.coded };
}

impl PartialEq for Redeemer {
    ghost use Rattle.contract.specs.Collections.Same.{same_by};
    ghost use Rattle.contract.proofs.FromCollections.SameLaws.{same_by-partial};
    ghost use Rattle.eutxo_types.specs.contracts.redeemer.Redeemer as it;

    ghost eq = { same_by it.the_row.coded };

    ghost laws = { same_by-partial it.the_row.coded };

    fn eq(&self, other: &Redeemer) -> bool {
        self.same(other)
    }
}

impl Eq for Redeemer {
    ghost use Rattle.contract.proofs.FromCollections.SameLaws.{same_by-equiv};
    ghost use Rattle.eutxo_types.specs.contracts.redeemer.Redeemer as it;

    ghost laws = { same_by-equiv it.the_row.coded };
}

impl PartialEq for Spend {
    ghost use Rattle.contract.specs.Collections.Same.{same_by};
    ghost use Rattle.contract.proofs.FromCollections.SameLaws.{same_by-partial};
    ghost use Rattle.eutxo_types.specs.contracts.spend.Spend as it;

    ghost eq = { same_by it.the_row.coded };

    ghost laws = { same_by-partial it.the_row.coded };

    fn eq(&self, other: &Spend) -> bool {
        self.same(other)
    }
}

impl Eq for Spend {
    ghost use Rattle.contract.proofs.FromCollections.SameLaws.{same_by-equiv};
    ghost use Rattle.eutxo_types.specs.contracts.spend.Spend as it;

    ghost laws = { same_by-equiv it.the_row.coded };
}

impl PartialEq for Tx {
    ghost use Rattle.contract.specs.Collections.Same.{same_by};
    ghost use Rattle.contract.proofs.FromCollections.SameLaws.{same_by-partial};
    ghost use Rattle.eutxo_types.specs.contracts.tx.Tx as it;

    ghost eq = { same_by it.the_row.coded };

    ghost laws = { same_by-partial it.the_row.coded };

    fn eq(&self, other: &Tx) -> bool {
        self.same(other)
    }
}

impl Eq for Tx {
    ghost use Rattle.contract.proofs.FromCollections.SameLaws.{same_by-equiv};
    ghost use Rattle.eutxo_types.specs.contracts.tx.Tx as it;

    ghost laws = { same_by-equiv it.the_row.coded };
}
