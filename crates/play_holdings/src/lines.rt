//! The lines of holdings.
ghost use Rattle.std.specs.Prelude.{◌≡◌, ◌++◌, slice_get, IfOk, OnOk, option_copied, string_bytes};
ghost use Rattle.play_holdings.specs.HoldingLines as printed;
ghost use Rattle.play_holdings.specs.HoldingLines.{name_of, quoted, holder_text, holding_line};

use crate::holder::Holder;
use crate::holding::Holding;
use eutxo::Memory;
use json_write_contracts::term_text;
use places::token_text;
use plans::NamedThread;
use std::alloc::Global;
use std::fmt::Write;

fn thread_at(threads: &[NamedThread], place: usize) -> Option<&NamedThread>
    ensures { option_copied result ≡ slice_get threads.now place }
{
    threads.get(place)
}

// The name of the thread at a place, as a JSON text.
fn thread_name(alloc: Global, threads: &[NamedThread], place: usize) -> Result<String, Memory>
    ensures { IfOk result (λ text. string_bytes text ≡ quoted (name_of (slice_get threads.now place))) }
{
    match thread_at(threads, place) {
        Some(thread) => term_text(alloc, &thread.name),
        None => term_text(alloc, &""),
    }
}

fn holder_text(alloc: Global, threads: &[NamedThread], holder: &Holder) -> Result<String, Memory>
    ensures { IfOk result (λ text. string_bytes text ≡ holder_text threads.now holder.now) }
{
    match holder {
        Holder::Address(address) => {
            let address = term_text(alloc, address)?;
            format!(in alloc; "holds {address}")
        }
        Holder::Payout { currency, role } => {
            let currency = term_text(alloc, currency)?;
            let role = term_text(alloc, role)?;
            format!(in alloc; "unclaimed {currency} {role}")
        }
        Holder::Thread(place) => {
            let name = thread_name(alloc, threads, *place)?;
            format!(in alloc; "in thread {name}")
        }
        Holder::Elsewhere => String::from_str(alloc, "in no thread"),
    }
}

fn print_holding(
    alloc: Global,
    out: &mut String,
    threads: &[NamedThread],
    holding: &Holding,
) -> Result<(), Memory>
    ensures { OnOk result (string_bytes out.new ≡ string_bytes out.old ++ holding_line threads.now holding.now) }
{
    let holder = holder_text(alloc, threads, &holding.holder)?;
    let token = token_text(alloc, &holding.token)?;
    let amount = holding.amount;
    write!(out, "{holder} {token} {amount}\n")
}

/// The lines of holdings, each with a line feed, with the names of threads by their places: `holds ADDRESS TOKEN N`,
/// `unclaimed CURRENCY ROLE TOKEN N`, `in thread NAME TOKEN N`. Answers `Memory` only where a growth was refused.
pub fn holding_lines(
    alloc: Global,
    threads: &[NamedThread],
    holdings: &[Holding],
) -> Result<String, Memory>
    ensures { IfOk result (λ text. string_bytes text ≡ printed.holding_lines threads.now holdings.now) }
{
    let mut out = String::new(alloc);
    for holding in holdings {
        print_holding(alloc, &mut out, threads, holding)?;
    }
    Ok(out)
}
