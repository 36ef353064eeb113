//! JSON for tools.
ghost use Rattle.std.specs.Prelude.{◌≡◌, IfOk, OnOk};
ghost use Rattle.json_write_contracts.specs.Tokens.{Puts};
ghost use Rattle.next_lines.specs.Json.{until_json, told_json, json_line};
ghost use Rattle.next_lines.specs.Seen.{seen};

use crate::json_inputs::put_inputs;
use crate::json_lists::put_list;
use crate::terms::Flag;
use crate::told::ToldHere;
use contract::Memory;
use json::Writer;
use json_write_contracts::{put_amount, put_member};
use places::put_place_json;
use std::alloc::Global;

/// All that is told, as one JSON text, and a line feed. A number that JSON doesn't have is a text of its digits.
pub fn told_json(alloc: Global, told: ToldHere<'_>) -> Result<Vec<u8>, Memory>
    ensures { IfOk result (λ text. text.items ≡ json_line (seen told.entry)) }
{
    let mut out = Writer::new(Vec::new(alloc));
    put_told(alloc, &mut out, told)?;
    let mut text = out.into_inner();
    text.push(b'\n')?;
    Ok(text)
}

fn put_told(alloc: Global, out: &mut Writer, told: ToldHere<'_>) -> Result<(), Memory>
    ensures { OnOk result (Puts out.old out.new (told_json (seen told.entry))) }
{
    out.begin_object()?;
    out.key("applicable_inputs")?;
    put_inputs(alloc, out, told.cases)?;
    out.key("at")?;
    put_place_json(out, told.path)?;
    put_member(alloc, out, "can_reduce", &Flag(told.can_reduce))?;
    out.key("payments")?;
    put_list(alloc, out, told.payments)?;
    out.key("waits_until")?;
    put_until(alloc, out, told.until)?;
    out.key("warnings")?;
    put_list(alloc, out, told.warned)?;
    out.end_object()?;
    Ok(())
}

// The last moment at which it waits, or null where it closes.
fn put_until(alloc: Global, out: &mut Writer, until: Option<i128>) -> Result<(), Memory>
    ensures { OnOk result (Puts out.old out.new (until_json until)) }
{
    match until {
        Some(last) => put_amount(alloc, out, &last),
        None => out.null(),
    }
}
