//! What payments and deposits come to.
ghost use Rattle.std.specs.Prelude.{◌≡◌, pos, cond, IfSome};
ghost use Rattle.contract.specs.Names.Equal.{same_party, same_token};
ghost use Rattle.contract.specs.States.States.{counted};
ghost use Rattle.analysis_spec.specs.Runs.{reaches_party, paid_to};
ghost use Rattle.losses.specs.Losses.{brought, brought_by};
ghost use Rattle.reached_bounds.specs.ReachedSupport.{brought_by_all};

use contract::{Input, Party, Payee, Payment, Same, Token, Transaction};

/// What payments pay a party of a token, if the sum has 128 bits.
pub(crate) fn paid(party: &Party, token: &Token, payments: &[Payment]) -> Option<i128>
    ensures { IfSome result (λ n. n ≡ paid_to party.now token.now payments.now) }
{
    let mut sum: i128 = 0;
    for payment in payments {
        sum = sum.checked_add(reaching(party, token, payment))?;
    }
    Some(sum)
}

// What a payment brings out of the contract for a party.
fn reaching(party: &Party, token: &Token, payment: &Payment) -> i128
    ensures { result ≡ reaches_party party.now payment.now.to (counted token.now payment.now.token payment.now.amount) }
{
    match &payment.to {
        Payee::Account(_) => 0,
        Payee::Party(to) => counted_by(party, token, to, &payment.token, payment.amount),
    }
}

/// What a party brings of a token by transactions, if the sum has 128 bits.
pub(crate) fn brought(party: &Party, token: &Token, run: &[Transaction]) -> Option<i128>
    ensures { IfSome result (λ n. n ≡ brought_by_all party.now token.now run.now) }
{
    let mut sum: i128 = 0;
    for transaction in run {
        let inputs = transaction.inputs.as_slice();
        sum = sum.checked_add(brought_in(party, token, inputs)?)?;
    }
    Some(sum)
}

// .. by the inputs of one.
fn brought_in(party: &Party, token: &Token, inputs: &[Input]) -> Option<i128>
    ensures { IfSome result (λ n. n ≡ brought_by party.now token.now inputs.now) }
{
    let mut sum: i128 = 0;
    for input in inputs {
        sum = sum.checked_add(bringing(party, token, input))?;
    }
    Some(sum)
}

// .. by one input.
fn bringing(party: &Party, token: &Token, input: &Input) -> i128
    ensures { result ≡ brought party.now token.now input.now }
{
    match input {
        Input::Deposit(_, by, of, amount) => counted_by(party, token, by, of, (*amount).max(0)),
        Input::Choice(_, _) | Input::Notify => 0,
    }
}

// An amount of a token that goes from or to a party, where these are the ones that count.
fn counted_by(party: &Party, token: &Token, other: &Party, of: &Token, amount: i128) -> i128
    ensures { result ≡ cond (same_party party.now other.now) (counted token.now of.now amount) (pos 0) }
{
    if is_party(party, other) && is_token(token, of) {
        amount
    } else {
        0
    }
}

fn is_party(party: &Party, other: &Party) -> bool
    ensures { result ≡ same_party party.now other.now }
{
    party.same(other)
}

fn is_token(token: &Token, other: &Token) -> bool
    ensures { result ≡ same_token token.now other.now }
{
    token.same(other)
}
