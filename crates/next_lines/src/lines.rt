//! Lines for people.
ghost use Rattle.std.specs.Prelude.{◌≡◌, ◌++◌, flat_map, IfOk, IfSome, OnOk, Some, string_bytes};
ghost use Rattle.next_lines.specs.Lines.{lines_of, stands_lines, input_line, more_line, deposit_text, choice_text, leaving_line, then_text, times_text, waits_line, closes_line, payment_line, warning_line};
ghost use Rattle.next_lines.specs.Seen.{IsMoment, seen, seen_deposit, seen_case, seen_warning};

use crate::pieces::{put_bytes, put_joined};
use crate::told::{CaseTold, Deposit, ToldHere, ToldWarning};
use crate::words::{deposit_text, leaving_line, more_line, payment_line, refused_text};
use contract::{Bound, ChoiceId, Items, Memory, Party, Payment, SemFault, Token};
use json_write_contracts::term_text;
use places::{Key, put_place};
use std::alloc::Global;

/// The lines for people: one for each case that takes an input or whose number leaves 128 bits; where not all are told, how many more
/// there are; the moment until which the contract waits; and one for each payment and warning. Of a contract that closes there is one line
/// in place of the cases, the moment and the payments.
pub fn told_lines(alloc: Global, told: ToldHere<'_>) -> Result<Vec<u8>, Memory>
    requires { IfSome told.until IsMoment }
    ensures { IfOk result (λ text. text.items ≡ lines_of (seen told.entry)) }
{
    let mut out = Vec::new(alloc);
    put_standing(alloc, &mut out, told)?;
    put_warnings(alloc, &mut out, told.warned)?;
    Ok(out)
}

// What applies and how long, or that it closes.
fn put_standing(alloc: Global, out: &mut Vec<u8>, told: ToldHere<'_>) -> Result<(), Memory>
    requires { IfSome told.until IsMoment }
    ensures { OnOk result (out.new.items ≡ out.old.items ++ stands_lines told.entry.until (seen told.entry)) }
{
    match told.until {
        Some(last) => put_waiting(alloc, out, told, last),
        None => put_closing(alloc, out, told.can_reduce, told.payments),
    }
}

fn put_waiting(
    alloc: Global,
    out: &mut Vec<u8>,
    told: ToldHere<'_>,
    last: i128,
) -> Result<(), Memory>
    requires { IsMoment last }
    ensures { OnOk result (out.new.items ≡ out.old.items ++ stands_lines (Some last) (seen told.entry)) }
{
    put_cases(alloc, out, told.path, told.cases)?;
    put_more(alloc, out, told.more)?;
    put_until(alloc, out, told.path, last)?;
    put_payments(alloc, out, told.payments)
}

// A line for each case of which something is told.
fn put_cases(
    alloc: Global,
    out: &mut Vec<u8>,
    path: &[Key],
    cases: &[CaseTold<'_>],
) -> Result<(), Memory>
    ensures { OnOk result (out.new.items ≡ out.old.items ++ flat_map (λ c. input_line path.now (seen_case c)) cases.now) }
{
    for case in cases {
        put_case(alloc, out, path, *case)?;
    }
    Ok(())
}

fn put_case(
    alloc: Global,
    out: &mut Vec<u8>,
    path: &[Key],
    case: CaseTold<'_>,
) -> Result<(), Memory>
    ensures { OnOk result (out.new.items ≡ out.old.items ++ input_line path.now (seen_case case.entry)) }
{
    match case {
        CaseTold::Deposit(index, deposit, refused) => {
            put_deposit(alloc, out, &deposit)?;
            put_then(alloc, out, path, index, refused)
        }
        CaseTold::Choice(index, id, bounds) => {
            put_choice(alloc, out, id, bounds)?;
            put_then(alloc, out, path, index, None)
        }
        CaseTold::Notify(index, refused) => {
            put_bytes(out, b"notify")?;
            put_then(alloc, out, path, index, refused)
        }
        CaseTold::DepositLeaves(_, account, party, token) => {
            put_leaving(alloc, out, account, party, token)
        }
        CaseTold::NotifyLeaves(_) => put_bytes(out, b"notify: Leaves128\n"),
    }
}

fn put_deposit(alloc: Global, out: &mut Vec<u8>, deposit: &Deposit<'_>) -> Result<(), Memory>
    ensures { OnOk result (out.new.items ≡ out.old.items ++ seen_deposit deposit_text deposit.now) }
{
    let text = deposit_text(alloc, deposit)?;
    put_bytes(out, text.as_bytes())
}

fn put_choice(
    alloc: Global,
    out: &mut Vec<u8>,
    id: &ChoiceId,
    bounds: &Items<Bound>,
) -> Result<(), Memory>
    ensures { OnOk result (out.new.items ≡ out.old.items ++ choice_text id.now bounds.now) }
{
    let name = term_text(alloc, &id.name)?;
    let owner = term_text(alloc, &id.owner)?;
    let head = format!(in alloc; "choose {name} of {owner}: ")?;
    put_bytes(out, head.as_bytes())?;
    put_joined(alloc, out, bounds.as_slice())
}

// A deposit of which a number leaves 128 bits.
fn put_leaving(
    alloc: Global,
    out: &mut Vec<u8>,
    account: &Party,
    party: &Party,
    token: &Token,
) -> Result<(), Memory>
    ensures { OnOk result (out.new.items ≡ out.old.items ++ leaving_line account.now party.now token.now) }
{
    let line = leaving_line(alloc, account, party, token)?;
    put_bytes(out, line.as_bytes())
}

// Where a case leads, and whether what follows is refused.
fn put_then(
    alloc: Global,
    out: &mut Vec<u8>,
    path: &[Key],
    index: usize,
    refused: Option<SemFault>,
) -> Result<(), Memory>
    ensures { OnOk result (out.new.items ≡ out.old.items ++ then_text path.now index refused) }
{
    let refused = refused_text(alloc, refused)?;
    let end = format!(in alloc; ".when[{index}].then{refused}\n")?;
    put_bytes(out, b", then ")?;
    put_place(alloc, out, path)?;
    put_bytes(out, end.as_bytes())
}

// How many more cases take an input, if there are more.
fn put_more(alloc: Global, out: &mut Vec<u8>, more: usize) -> Result<(), Memory>
    ensures { OnOk result (out.new.items ≡ out.old.items ++ more_line more) }
{
    let line = more_line(alloc, more)?;
    put_bytes(out, line.as_bytes())
}

// Until when it waits, and what follows from then on.
fn put_until(alloc: Global, out: &mut Vec<u8>, path: &[Key], last: i128) -> Result<(), Memory>
    requires { IsMoment last }
    ensures { OnOk result (out.new.items ≡ out.old.items ++ waits_line path.now last) }
{
    let times = times_text(alloc, last)?;
    put_bytes(out, times.as_bytes())?;
    put_place(alloc, out, path)?;
    put_bytes(out, b".timeout_continuation\n")
}

// The last moment, and the next.
fn times_text(alloc: Global, last: i128) -> Result<String, Memory>
    requires { IsMoment last }
    ensures { IfOk result (λ text. string_bytes text ≡ times_text last) }
{
    let next = last + 1;
    format!(in alloc; "waits until {last}; from {next} on ")
}

// A line for each payment.
fn put_payments(alloc: Global, out: &mut Vec<u8>, payments: &[Payment]) -> Result<(), Memory>
    ensures { OnOk result (out.new.items ≡ out.old.items ++ flat_map payment_line payments.now) }
{
    for payment in payments {
        put_payment(alloc, out, payment)?;
    }
    Ok(())
}

fn put_payment(alloc: Global, out: &mut Vec<u8>, payment: &Payment) -> Result<(), Memory>
    ensures { OnOk result (out.new.items ≡ out.old.items ++ payment_line payment.now) }
{
    let line = payment_line(alloc, payment)?;
    put_bytes(out, line.as_bytes())
}

// What it pays where it closes.
fn put_closing(
    alloc: Global,
    out: &mut Vec<u8>,
    can_reduce: bool,
    payments: &[Payment],
) -> Result<(), Memory>
    ensures { OnOk result (out.new.items ≡ out.old.items ++ closes_line can_reduce payments.now) }
{
    if !can_reduce {
        return put_bytes(out, b"closed\n");
    }
    if payments.is_empty() {
        return put_bytes(out, b"closes, and pays nothing\n");
    }
    put_bytes(out, b"closes, and pays ")?;
    put_joined(alloc, out, payments)?;
    put_bytes(out, b"\n")
}

// A line for each warning.
fn put_warnings(alloc: Global, out: &mut Vec<u8>, warned: &[ToldWarning]) -> Result<(), Memory>
    ensures { OnOk result (out.new.items ≡ out.old.items ++ flat_map (λ w. warning_line (seen_warning w)) warned.now) }
{
    for warning in warned {
        put_warning(alloc, out, warning)?;
    }
    Ok(())
}

fn put_warning(alloc: Global, out: &mut Vec<u8>, warning: &ToldWarning) -> Result<(), Memory>
    ensures { OnOk result (out.new.items ≡ out.old.items ++ warning_line (seen_warning warning.now)) }
{
    put_bytes(out, b"warns on the way: ")?;
    put_bytes(out, warning.name.as_bytes())?;
    put_bytes(out, b" at ")?;
    put_place(alloc, out, &warning.place)?;
    put_bytes(out, b"\n")
}
