//! Pieces of the lines.
ghost use Rattle.std.specs.Prelude.{◌≡◌, ◌++◌, IfOk, OnOk, string_bytes};
ghost use Rattle.next_lines.specs.Lines.{money_text, bound_text, payment_text};
ghost use Rattle.step_notes.specs.StepLines.{bounds_text, more_bounds};

use contract::{Bound, Memory, Payment, Token};
use json_write_contracts::term_text;
use places::token_text;
use std::alloc::Global;
use std::fmt::Write;

/// An amount of a token.
pub(crate) fn money_text(alloc: Global, amount: i128, token: &Token) -> Result<String, Memory>
    ensures { IfOk result (λ text. string_bytes text ≡ money_text amount token.now) }
{
    let token = token_text(alloc, token)?;
    format!(in alloc; "{amount} {token}")
}

/// A payment.
pub(crate) fn payment_text(alloc: Global, payment: &Payment) -> Result<String, Memory>
    ensures { IfOk result (λ text. string_bytes text ≡ payment_text payment.now) }
{
    let money = money_text(alloc, payment.amount, &payment.token)?;
    let from = term_text(alloc, &payment.from)?;
    let to = term_text(alloc, &payment.to)?;
    format!(in alloc; "{money} from {from} to {to}")
}

// A bound: from one number to another, or the number that is both.
fn put_bound(out: &mut String, bound: Bound) -> Result<(), Memory>
    ensures { OnOk result (string_bytes out.new ≡ string_bytes out.old ++ bound_text bound) }
{
    let Bound { from, to } = bound;
    if from == to {
        write!(out, "{from}")
    } else {
        write!(out, "{from} to {to}")
    }
}

/// Puts bounds at the end of a text, with a comma between each two.
pub(crate) fn put_bounds(out: &mut String, bounds: &[Bound]) -> Result<(), Memory>
    ensures { OnOk result (string_bytes out.new ≡ string_bytes out.old ++ bounds_text bounds.now) }
{
    match bounds {
        [] => Ok(()),
        [first, rest @ ..] => {
            put_bound(out, *first)?;
            put_others(out, rest)
        }
    }
}

fn put_others(out: &mut String, bounds: &[Bound]) -> Result<(), Memory>
    ensures { OnOk result (string_bytes out.new ≡ string_bytes out.old ++ more_bounds bounds.now) }
{
    for bound in bounds {
        out.push_str(", ")?;
        put_bound(out, *bound)?;
    }
    Ok(())
}
