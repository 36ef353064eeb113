//! Whether JSON has all numbers of a run.
ghost use Rattle.std.specs.Prelude.{◌≡◌, true, All, IfSome};
ghost use Rattle.bound_runs.specs.Told.{HasNumber, HasNumbers};

use contract::{Input, Items, Transaction};
use counter_runs::is_written;

/// A run, if JSON has all its numbers.
pub(crate) fn if_written(found: Option<Items<Transaction>>) -> Option<Items<Transaction>>
    ensures { IfSome result HasNumbers }
{
    match found {
        Some(run) => {
            if has_all_numbers(run.as_slice()) {
                Some(run)
            } else {
                None
            }
        }
        None => None,
    }
}

fn has_all_numbers(run: &[Transaction]) -> bool
    ensures { result ≡ true → HasNumbers run.now }
{
    for transaction in run {
        let written = has_numbers(transaction.inputs.as_slice());
        if !written {
            return false;
        }
    }
    true
}

fn has_numbers(inputs: &[Input]) -> bool
    ensures { result ≡ true → All HasNumber inputs.now }
{
    for input in inputs {
        let written = has_number(input);
        if !written {
            return false;
        }
    }
    true
}

fn has_number(input: &Input) -> bool
    ensures { result ≡ true → HasNumber input.now }
{
    match input {
        Input::Deposit(_, _, _, number) => is_written(*number),
        Input::Choice(_, number) => is_written(*number),
        Input::Notify => true,
    }
}
