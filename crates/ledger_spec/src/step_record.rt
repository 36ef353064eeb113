//! Records.
use builder_spec::Cont;
use contract::{Input, Interval, Items, Memory, Payment, Same, State, TryClone, Warning};

/// One step of a thread (Marlowe specification version 3, "Compute transaction").
#[derive(Drop)]
pub struct StepRecord {
    /// The ticks at which the transaction could happen, both ends included, in POSIX milliseconds.
    pub interval: Interval,
    /// The inputs that the transaction gave to the contract, in order.
    pub inputs: Items<Input>,
    /// What the contract warned of, in order.
    pub warnings: Items<Warning>,
    /// What the contract paid, in order.
    pub payments: Items<Payment>,
    /// The state that the step left.
    pub state: State,
    /// Where the contract went on: the number, in the published table, of what remained of it.
    pub number: Cont,
}

impl TryClone for StepRecord {
    fn try_clone(&self) -> Result<StepRecord, Memory> {
        let inputs = self.inputs.try_clone()?;
        let warnings = self.warnings.try_clone()?;
        let payments = self.payments.try_clone()?;
        let state = self.state.try_clone()?;
        Ok(StepRecord {
            interval: self.interval,
            inputs,
            warnings,
            payments,
            state,
            number: self.number,
        })
    }
}

impl Same for StepRecord {
    fn same(&self, other: &StepRecord) -> bool {
        self.interval == other.interval
            && self.inputs.same(&other.inputs)
            && self.warnings.same(&other.warnings)
            && self.payments.same(&other.payments)
            && self.state.same(&other.state)
            && self.number == other.number
    }
}

impl PartialEq for StepRecord {
    ghost use Rattle.contract.specs.Collections.Same.{same_by};
    ghost use Rattle.contract.proofs.FromCollections.SameLaws.{same_by-partial};
    ghost use Rattle.ledger_spec.specs.contracts.step_record.StepRecord as it;

    ghost eq = { same_by it.the_row.coded };

    ghost laws = { same_by-partial it.the_row.coded };

    fn eq(&self, other: &StepRecord) -> bool {
        self.same(other)
    }
}

impl Eq for StepRecord {
    ghost use Rattle.contract.proofs.FromCollections.SameLaws.{same_by-equiv};
    ghost use Rattle.ledger_spec.specs.contracts.step_record.StepRecord as it;

    ghost laws = { same_by-equiv it.the_row.coded };
}
