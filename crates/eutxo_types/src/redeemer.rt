//! Redeemers.
ghost use Rattle.std.specs.Prelude.{◌≡◌};
ghost use Rattle.eutxo_types.specs.Parts.{is_step, inputs_of};

use contract::{Input, Items, Memory, Same, TryClone};

/// What an input hands to the lock of its output (The Extended UTXO Model, "Extended UTXO model: EUTXO").
#[derive(Debug, Drop)]
pub enum Redeemer {
    /// Nothing, for a key.
    None,
    /// A claim, for a payout.
    Claim,
    /// A step, for a contract: the inputs of a Marlowe transaction, in order.
    Step(Items<Input>),
}

impl Redeemer {
    /// Whether it steps a contract.
    pub fn is_step(&self) -> bool
        ensures { result ≡ is_step self.now }
    {
        match self {
            Redeemer::None => false,
            Redeemer::Claim => false,
            Redeemer::Step(_) => true,
        }
    }

    /// The inputs that it gives to a contract, in order: those of a step, and else none.
    pub fn inputs(&self) -> &[Input]
        ensures { result.now ≡ inputs_of self.now }
    {
        match self {
            Redeemer::None => &[],
            Redeemer::Claim => &[],
            Redeemer::Step(inputs) => inputs.as_slice(),
        }
    }
}

impl TryClone for Redeemer {
    fn try_clone(&self) -> Result<Redeemer, Memory> {
        match self {
            Redeemer::None => Ok(Redeemer::None),
            Redeemer::Claim => Ok(Redeemer::Claim),
            Redeemer::Step(inputs) => Ok(Redeemer::Step(inputs.try_clone()?)),
        }
    }
}

impl Same for Redeemer {
    fn same(&self, other: &Redeemer) -> bool {
        match (self, other) {
            (Redeemer::None, Redeemer::None) => true,
            (Redeemer::Claim, Redeemer::Claim) => true,
            (Redeemer::Step(a), Redeemer::Step(b)) => a.same(b),
            (Redeemer::None, Redeemer::Claim) => false,
            (Redeemer::None, Redeemer::Step(_)) => false,
            (Redeemer::Claim, Redeemer::None) => false,
            (Redeemer::Claim, Redeemer::Step(_)) => false,
            (Redeemer::Step(_), Redeemer::None) => false,
            (Redeemer::Step(_), Redeemer::Claim) => false,
        }
    }
}
