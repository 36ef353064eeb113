//! How published contracts judge.
ghost use Rattle.std.specs.Prelude.{◌≡◌, IfOk};
ghost use Rattle.roles.specs.Steps.{is_fresh, starts_from};

use crate::amounts::holds_sums;
use crate::authorise::holds_role;
use crate::published::Published;
use crate::step::{StepParts, step_of};
use contract::{Bytes, Input, Memory, State, Text};
use eutxo::{Bundle, Cont, Datum, Spent, StepAnswer, Tx, Validator};
use std::alloc::Global;

// Whether nothing was chosen and nothing is bound.
fn is_fresh(state: &State) -> bool
    ensures { result ≡ is_fresh state.now }
{
    state.choices().is_empty() && state.bound_values().is_empty()
}

// Whether an output with this datum and amount starts a contract whose table has this root.
fn starts_from(alloc: Global, root: Cont, datum: &Datum, amount: &Bundle) -> Result<bool, Memory>
    ensures { IfOk result (λ answer. answer ≡ starts_from root datum.now amount.now) }
{
    if root.0 == datum.cont.0 && is_fresh(&datum.state) {
        holds_sums(alloc, amount, &datum.state)
    } else {
        Ok(false)
    }
}

/// A published contract judges the steps of its threads, and their starts, by its table, root and
/// currency. A payout is granted, whatever is published, beside a key input whose output holds the
/// role's token.
impl Validator for Published {
    ghost use Rattle.std.proofs.Common.{ap};
    ghost use Rattle.contract.proofs.FromCollections.SameLaws.{same_by_decides};
    ghost use Rattle.roles.specs.contracts.published.Published as it;
    ghost use Rattle.roles.specs.Terms.{terms_of};
    ghost use Rattle.roles.specs.Steps.{step_of, starts_from, marlowe};

    ghost judges = { marlowe };

    ghost alike = { λ x y e. (λ s. ap (λ p. step_of (terms_of p) s) ((same_by_decides it.the_row.coded x y).0 e), λ d held. ap (λ p. starts_from p.root d held) ((same_by_decides it.the_row.coded x y).0 e)) };

    fn step(
        &self,
        alloc: Global,
        script: &[u8; 32],
        datum: &Datum,
        inputs: &[Input],
        from: usize,
        tx: &Tx,
        spent: &[Spent<'_>],
    ) -> Result<StepAnswer, Memory> {
        let asked = StepParts {
            script,
            datum,
            inputs,
            from,
            tx,
        };
        step_of(alloc, self, asked, spent)
    }

    fn start(&self, alloc: Global, datum: &Datum, amount: &Bundle) -> Result<bool, Memory> {
        starts_from(alloc, self.root, datum, amount)
    }

    fn claim(spent: &[Spent<'_>], currency: &Bytes, role: &Text) -> bool {
        holds_role(spent, currency, role)
    }
}
