//! What a contract's accounts hold, and how that changes.
ghost use Rattle.std.specs.Prelude.{◌≡◌, [], ◌∷◌, OnOk, pos, ◌+ℤ◌, ◌≤ℤ◌, ◌<ℤ◌};
ghost use Rattle.std.specs.Int.{int_min};
ghost use Rattle.contract.specs.States.States.{with_money};
ghost use Rattle.evaluation.specs.Numbers.{within};
ghost use Rattle.contract.specs.Collections.Answers.{Aside};
ghost use Rattle.semantics.specs.Reduction.{account_of, balance, debited, account_sums, credited};

use contract::{Memory, Party, Payee, SemFault, State, Token};
use evaluation::sum;

/// The lesser of what an account holds and of what is due.
pub fn payable(from: &Party, token: &Token, due: i128, state: &State) -> i128
    requires { pos 0 <ℤ due }
    ensures least { result ≡ int_min (balance state.now from.now token.now) due }
    ensures positive { pos 0 ≤ℤ result }
    ensures held { result ≤ℤ balance state.now from.now token.now }
{
    state.money(from, token).min(due)
}

/// An account is reduced by what it can pay; where nothing is left its entry is removed.
pub fn debit(owner: &Party, token: &Token, paid: i128, state: &mut State) -> Result<(), Memory>
    requires positive { pos 0 ≤ℤ paid }
    requires held { paid ≤ℤ balance state.old owner.now token.now }
    ensures state { OnOk result (state.new ≡ debited state.old owner.now token.now paid) }
{
    let held = state.money(owner, token);
    state.set_money(owner, token, held - paid)
}

/// The account of a payee that is one grows by what is paid to it.
pub fn credit(to: &Payee, token: &Token, paid: i128, state: &mut State) -> Result<(), SemFault>
    requires { pos 0 ≤ℤ paid }
    ensures reply { Aside SemFault.Memory result (within (account_sums state.old to.now token.now paid) tt) }
    ensures state { OnOk result (state.new ≡ credited state.old to.now token.now paid) }
{
    match to {
        Payee::Account(owner) => deposit(owner, token, paid, state),
        Payee::Party(_) => Ok(()),
    }
}

/// An account grows by an amount; `Leaves128` where it would hold more than 2^127 - 1.
#[tactic(auto, unfolding(evaluation::specs::Checked::checked))]
pub fn deposit(
    owner: &Party,
    token: &Token,
    amount: i128,
    state: &mut State,
) -> Result<(), SemFault>
    requires { pos 0 ≤ℤ amount }
    ensures reply { Aside SemFault.Memory result (within ((balance state.old owner.now token.now +ℤ amount) ∷ []) tt) }
    ensures state { OnOk result (state.new
        ≡ with_money state.old (account_of owner.now token.now) (balance state.old owner.now token.now +ℤ amount)) }
{
    let total = sum(state.money(owner, token), amount)?;
    state.set_money(owner, token, total)?;
    Ok(())
}
