//! How scripts judge.
ghost use Rattle.std.specs.Prelude.{◌≡◌, true, IfOk};
ghost use Rattle.eutxo_types.specs.Bundle.Bundles.{Amounts};
ghost use Rattle.eutxo_types.specs.Machine.declared.datum.Datum.{Datum};
ghost use Rattle.eutxo.specs.Asked.{Stepping, question, Judges};

use crate::spent::Spent;
use crate::step_fault::StepFault;
use contract::{Bytes, Input, Memory, SemFault, Text};
use eutxo_types::{Bundle, Datum, Tx};
use std::alloc::Global;

/// What a script answers to a step of its contract. The outputs that the step makes are a block: the one in which the
/// contract goes on, unless it is over, and then its payments.
#[derive(Debug, PartialEq, Eq, Drop)]
pub enum StepAnswer {
    /// The contract refuses the inputs, rule 12. Its block is empty.
    Refused(SemFault),
    /// The contract takes the inputs.
    Takes {
        /// The lowest of rules 13 to 15 that refuses, if one does.
        fault: Option<StepFault>,
        /// Whether the contract goes on: in the first output of its block.
        goes_on: bool,
        /// How many payments are due, in the outputs behind. They are counted also where a rule refuses.
        payments: usize,
    },
}

/// A script (The Extended UTXO Model, "Extended UTXO model: EUTXO", where it is the validator of an output): it
/// judges steps of its contracts, tells their starts, and grants payouts of its kind. What it answers
/// depends on what it is asked alone; want of memory is answered beside it.
pub trait Validator: Eq {
    /// How it judges steps, tells starts, and grants payouts.
    ghost judges: { Judges Self };

    /// Judges a step, rules 12 to 15: it gets the id by which the output names the script, the datum that is
    /// brought for it, the redeemer's inputs, the place of the output from which its block stands, the transaction
    /// and all that it spends. Answers `Memory` only where a growth was refused.
    fn step(
        &self,
        alloc: Global,
        script: &[u8; 32],
        datum: &Datum,
        inputs: &[Input],
        from: usize,
        tx: &Tx,
        spent: &[Spent<'_>],
    ) -> Result<StepAnswer, Memory>
        ensures { IfOk result (λ answer. answer ≡ judges.step self.now (question script.now datum.now inputs.now from tx.now spent.now)) };

    /// Whether an output for which this datum is brought, with this amount, starts a contract, rule 17. Answers
    /// `Memory` only where a growth was refused.
    fn start(&self, alloc: Global, datum: &Datum, amount: &Bundle) -> Result<bool, Memory>
        ensures { IfOk result (λ answer. answer ≡ judges.starts self.now datum.now amount.now) };

    /// Whether what is spent grants a payout of this currency to this role, rule 11. No script is asked:
    /// a payout names none.
    fn claim(spent: &[Spent<'_>], currency: &Bytes, role: &Text) -> bool
        ensures { result ≡ judges.claims spent.now currency.now role.now };

    /// Equal scripts answer alike.
    ghost alike: { (x y : Self) → Self.eq x y ≡ true
        → ((s : Stepping) → judges.step x s ≡ judges.step y s) × ((d : Datum) (m : Amounts) → judges.starts x d m ≡ judges.starts y d m) };
}
