//! Outputs.
use crate::lock::Lock;
use bundle::{Bundle, Holds};
use contract::{Memory, Same, TryClone};

/// An output (The Extended UTXO Model, "Extended UTXO model: EUTXO"): what guards its spending, and how much it
/// holds of each token. It is spent at most once, and whole.
#[derive(Drop)]
pub struct Output {
    pub lock: Lock,
    pub amount: Bundle,
}

impl Holds for Output {
    ghost held = { λ output. output.amount };

    fn amounts(&self) -> &Bundle {
        &self.amount
    }
}

impl TryClone for Output {
    fn try_clone(&self) -> Result<Output, Memory> {
        let lock = self.lock.try_clone()?;
        let amount = self.amount.try_clone()?;
        Ok(Output { lock, amount })
    }
}

impl Same for Output {
    fn same(&self, other: &Output) -> bool {
        self.lock.same(&other.lock) && self.amount.same(&other.amount)
    }
}
