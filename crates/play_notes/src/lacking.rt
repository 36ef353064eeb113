//! How much lacks.
ghost use Rattle.std.specs.Prelude.{◌≡◌};
ghost use Rattle.contract.specs.Names.Equal.{same_token};
ghost use Rattle.play_notes.specs.Lacking as told;
ghost use Rattle.play_notes.specs.Lacking.{and_more, and_less, deposited, with_inputs, with_steps, wanted, without};

use builder_spec::{Unspent, difference, sum};
use contract::{Input, Items, Same, SemFault, Token};
use plans::Intent;

// A sum, or that it leaves 128 bits.
type Sum = Result<i128, SemFault>;

fn and_more(total: Sum, number: i128) -> Sum
    ensures { result ≡ and_more total number }
{
    match total {
        Ok(total) => sum(total, number),
        Err(fault) => Err(fault),
    }
}

fn and_less(total: Sum, number: i128) -> Sum
    ensures { result ≡ and_less total number }
{
    match total {
        Ok(total) => difference(total, number),
        Err(fault) => Err(fault),
    }
}

fn same_token(token: &Token, of: &Token) -> bool
    ensures { result ≡ same_token token.now of.now }
{
    token.same(of)
}

fn deposited(token: &Token, input: &Input) -> i128
    ensures { result ≡ deposited token.now input.now }
{
    match input {
        Input::Deposit(_, _, of, amount) => {
            if *amount > 0 && same_token(of, token) {
                *amount
            } else {
                0
            }
        }
        _ => 0,
    }
}

fn with_inputs(token: &Token, total: Sum, inputs: &[Input]) -> Sum
    ensures { result ≡ with_inputs token.now total inputs.now }
{
    let mut all = total;
    for input in inputs {
        all = and_more(all, deposited(token, input));
    }
    all
}

fn with_steps(token: &Token, total: Sum, steps: &[(usize, Items<Input>)]) -> Sum
    ensures { result ≡ with_steps token.now total steps.now }
{
    let mut all = total;
    for step in steps {
        all = with_inputs(token, all, step.1.as_slice());
    }
    all
}

fn wanted(token: &Token, intent: &Intent<usize, usize>) -> Sum
    ensures { result ≡ wanted token.now intent.now }
{
    match intent {
        Intent::Step { inputs, .. } => with_inputs(token, Ok(0), inputs.as_slice()),
        Intent::Steps { steps, .. } => with_steps(token, Ok(0), steps.as_slice()),
        _ => Ok(0),
    }
}

fn without(token: &Token, total: Sum, offered: &[Unspent]) -> Sum
    ensures { result ≡ without token.now total offered.now }
{
    let mut rest = total;
    for unspent in offered {
        rest = and_less(rest, unspent.output.amount.amount(token));
    }
    rest
}

/// How much of a token an intent deposits, less what these outputs hold, or that the sum leaves 128 bits.
pub(crate) fn lacking(token: &Token, intent: &Intent<usize, usize>, offered: &[Unspent]) -> Sum
    ensures { result ≡ told.lacking token.now intent.now offered.now }
{
    without(token, wanted(token, intent), offered)
}
