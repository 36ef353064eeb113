//! The objects of holdings.
ghost use Rattle.std.specs.Prelude.{◌≡◌, ◌++◌, IfOk, OnOk, string_bytes};
ghost use Rattle.play_objects.specs.HoldingObjects as told;
ghost use Rattle.play_objects.specs.HoldingObjects.{holder_members, holding_object};

use contract::Memory;
use json_write_contracts::term_text;
use plans::NamedThread;
use play_holdings::{Holder, Holding};
use play_notes::thread_name;
use std::alloc::Global;
use std::fmt::Write;

fn holder_members(alloc: Global, threads: &[NamedThread], holder: &Holder) -> Result<String, Memory>
    ensures { IfOk result (λ text. string_bytes text ≡ holder_members threads.now holder.now) }
{
    match holder {
        Holder::Address(address) => {
            let address = term_text(alloc, address)?;
            format!(in alloc; "\"holds\":{address}")
        }
        Holder::Payout { currency, role } => {
            let currency = term_text(alloc, currency)?;
            let role = term_text(alloc, role)?;
            format!(in alloc; "\"unclaimed\":{currency},\"role\":{role}")
        }
        Holder::Thread(place) => {
            let name = thread_name(alloc, threads, *place)?;
            format!(in alloc; "\"in_thread\":{name}")
        }
        Holder::Elsewhere => String::from_str(alloc, "\"in_thread\":null"),
    }
}

fn put_holding(
    alloc: Global,
    out: &mut String,
    threads: &[NamedThread],
    holding: &Holding,
) -> Result<(), Memory>
    ensures { OnOk result (string_bytes out.new ≡ string_bytes out.old ++ holding_object threads.now holding.now) }
{
    let holder = holder_members(alloc, threads, &holding.holder)?;
    let token = term_text(alloc, &holding.token)?;
    let amount = term_text(alloc, &holding.amount)?;
    write!(out, "{{{holder},\"token\":{token},\"amount\":{amount}}}\n")
}

/// The objects of holdings, each with a line feed, with the names of threads by their places. Answers `Memory` only where a growth was
/// refused.
pub fn holding_objects(
    alloc: Global,
    threads: &[NamedThread],
    holdings: &[Holding],
) -> Result<String, Memory>
    ensures { IfOk result (λ text. string_bytes text ≡ told.holding_objects threads.now holdings.now) }
{
    let mut out = String::new(alloc);
    for holding in holdings {
        put_holding(alloc, &mut out, threads, holding)?;
    }
    Ok(out)
}
