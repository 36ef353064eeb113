//! What is told of a party that keeps up.
ghost use Rattle.std.specs.Prelude.{◌≡◌, ◌++◌, ◌-◌, length, map, flat_map, take, Some, IfOk, OnOk, codes, string_bytes};
ghost use Rattle.serde_json.specs.Data.{array};
ghost use Rattle.serde_json.specs.View.{items_of};
ghost use Rattle.serde_json.specs.Written.{compact_text};
ghost use Rattle.json_write_contracts.specs.Tokens.{Puts};
ghost use Rattle.analysis_lines.specs.Tools.{bound_json};
ghost use Rattle.analysis_lines.specs.Kept.{down_text, kept_json, kept_line, kept_lines, kept_token_json, least_text, nothing_line, nothing_text, sure_text, tokens_json, up_text, with_kept, with_member};

use crate::lines::{loss_text, put_bytes, put_given};
use crate::reached::put_holder;
use crate::tools::{put_bound, put_null};
use contract::{Items, Memory, Party};
use json::Writer;
use json_write_contracts::{put_party, put_token, term_text};
use keeping_up::Kept;
use std::alloc::Global;

/// A text that tells of an analysis, with what is told of a party that keeps up: for people lines behind the others, each of one token,
/// or one where no token is told, and none where it isn't told at all; for tools a last member of the object.
pub fn with_kept(
    alloc: Global,
    text: Vec<u8>,
    tools: bool,
    given: bool,
    party: &Party,
    kept: &Option<Items<Kept>>,
) -> Result<Vec<u8>, Memory>
    ensures { IfOk result (λ whole. whole.items ≡ with_kept tools given party.now kept.now text.items) }
{
    if tools {
        with_member(alloc, text, party, kept)
    } else {
        with_lines(alloc, text, given, party, kept)
    }
}

// ---- for people

fn with_lines(
    alloc: Global,
    mut text: Vec<u8>,
    given: bool,
    party: &Party,
    kept: &Option<Items<Kept>>,
) -> Result<Vec<u8>, Memory>
    ensures { IfOk result (λ whole. whole.items ≡ text.items ++ kept_lines given party.now kept.now) }
{
    put_kept(alloc, &mut text, given, party, kept)?;
    Ok(text)
}

fn put_kept(
    alloc: Global,
    out: &mut Vec<u8>,
    given: bool,
    party: &Party,
    kept: &Option<Items<Kept>>,
) -> Result<(), Memory>
    ensures { OnOk result (out.new.items ≡ out.old.items ++ kept_lines given party.now kept.now) }
{
    match kept {
        Some(kept) => put_all(alloc, out, given, party, kept.as_slice()),
        None => Ok(()),
    }
}

fn put_all(
    alloc: Global,
    out: &mut Vec<u8>,
    given: bool,
    party: &Party,
    kept: &[Kept],
) -> Result<(), Memory>
    ensures { OnOk result (out.new.items ≡ out.old.items ++ kept_lines given party.now (Some kept.now)) }
{
    if kept.is_empty() {
        put_nothing(alloc, out, given, party)
    } else {
        put_each(alloc, out, given, party, kept)
    }
}

fn put_nothing(alloc: Global, out: &mut Vec<u8>, given: bool, party: &Party) -> Result<(), Memory>
    ensures { OnOk result (out.new.items ≡ out.old.items ++ nothing_line given party.now) }
{
    let text = nothing_text(alloc, party)?;
    put_bytes(out, text.as_bytes())?;
    put_given(out, given)
}

fn nothing_text(alloc: Global, party: &Party) -> Result<String, Memory>
    ensures { IfOk result (λ text. string_bytes text ≡ nothing_text party.now) }
{
    let party = term_text(alloc, party)?;
    format!(in alloc; "{party} at least 0, never down of any token while it keeps up")
}

fn put_each(
    alloc: Global,
    out: &mut Vec<u8>,
    given: bool,
    party: &Party,
    kept: &[Kept],
) -> Result<(), Memory>
    ensures { OnOk result (out.new.items ≡ out.old.items ++ flat_map (kept_line given party.now) kept.now) }
{
    for one in kept {
        put_line(alloc, out, given, party, one)?;
    }
    Ok(())
}

fn put_line(
    alloc: Global,
    out: &mut Vec<u8>,
    given: bool,
    party: &Party,
    kept: &Kept,
) -> Result<(), Memory>
    ensures { OnOk result (out.new.items ≡ out.old.items ++ kept_line given party.now kept.now) }
{
    put_holder(alloc, out, party, &kept.token)?;
    let sure = sure_text(alloc, kept)?;
    put_bytes(out, sure.as_bytes())?;
    put_given(out, given)
}

// What the party is sure of.
fn sure_text(alloc: Global, kept: &Kept) -> Result<String, Memory>
    ensures { IfOk result (λ text. string_bytes text ≡ sure_text kept.now) }
{
    let least = least_text(alloc, kept)?;
    let most = down_text(alloc, kept.most)?;
    let text = both(alloc, least.as_str(), most.as_str())?;
    Ok(text)
}

fn both(alloc: Global, least: &str, most: &str) -> Result<String, Memory>
    ensures { IfOk result (λ text. string_bytes text ≡ least.now ++ (codes ", " ++ (most.now ++ codes " while it keeps up"))) }
{
    format!(in alloc; "{least}, {most} while it keeps up")
}

fn least_text(alloc: Global, kept: &Kept) -> Result<String, Memory>
    ensures { IfOk result (λ text. string_bytes text ≡ least_text kept.now.least) }
{
    let least = kept.least;
    format!(in alloc; "at least {least}")
}

fn down_text(alloc: Global, most: Option<i128>) -> Result<String, Memory>
    ensures { IfOk result (λ text. string_bytes text ≡ down_text most) }
{
    match most {
        Some(most) => {
            if most < 0 {
                up_text(alloc, most)
            } else {
                loss_text(alloc, Some(most))
            }
        }
        None => loss_text(alloc, None),
    }
}

fn up_text(alloc: Global, most: i128) -> Result<String, Memory>
    ensures { IfOk result (λ text. string_bytes text ≡ up_text most) }
{
    let up = most.unsigned_abs();
    format!(in alloc; "at least {up} up")
}

// ---- for tools

fn with_member(
    alloc: Global,
    mut text: Vec<u8>,
    party: &Party,
    kept: &Option<Items<Kept>>,
) -> Result<Vec<u8>, Memory>
    ensures { IfOk result (λ whole. whole.items ≡ with_member text.items (kept_json party.now kept.now)) }
{
    let member = kept_text(alloc, party, kept)?;
    let open = text.len().saturating_sub(2);
    text.truncate(open);
    put_bytes(&mut text, b",\"while_keeping_up\":")?;
    put_bytes(&mut text, member.as_slice())?;
    put_bytes(&mut text, b"}\n")?;
    Ok(text)
}

// What is told, as compact JSON.
fn kept_text(alloc: Global, party: &Party, kept: &Option<Items<Kept>>) -> Result<Vec<u8>, Memory>
    ensures { IfOk result (λ text. text.items ≡ compact_text (kept_json party.now kept.now)) }
{
    let mut out = Writer::new(Vec::new(alloc));
    put_object(alloc, &mut out, party, kept)?;
    Ok(out.into_inner())
}

fn put_object(
    alloc: Global,
    out: &mut Writer,
    party: &Party,
    kept: &Option<Items<Kept>>,
) -> Result<(), Memory>
    ensures { OnOk result (Puts out.old out.new (kept_json party.now kept.now)) }
{
    out.begin_object()?;
    out.key("party")?;
    put_party(out, party)?;
    out.key("tokens")?;
    put_tokens(alloc, out, kept)?;
    out.end_object()?;
    Ok(())
}

fn put_tokens(alloc: Global, out: &mut Writer, kept: &Option<Items<Kept>>) -> Result<(), Memory>
    ensures { OnOk result (Puts out.old out.new (tokens_json kept.now)) }
{
    match kept {
        Some(kept) => put_each_token(alloc, out, kept.as_slice()),
        None => put_null(out),
    }
}

fn put_each_token(alloc: Global, out: &mut Writer, kept: &[Kept]) -> Result<(), Memory>
    ensures { OnOk result (Puts out.old out.new (array (items_of (map kept_token_json kept.now)))) }
{
    out.begin_array()?;
    for one in kept {
        put_token_of(alloc, out, one)?;
    }
    out.end_array()?;
    Ok(())
}

fn put_token_of(alloc: Global, out: &mut Writer, kept: &Kept) -> Result<(), Memory>
    ensures { OnOk result (Puts out.old out.new (kept_token_json kept.now)) }
{
    out.begin_object()?;
    out.key("down")?;
    put_bound(alloc, out, kept.most)?;
    out.key("least")?;
    put_least(alloc, out, kept)?;
    out.key("token")?;
    put_token(alloc, out, &kept.token)?;
    out.end_object()?;
    Ok(())
}

fn put_least(alloc: Global, out: &mut Writer, kept: &Kept) -> Result<(), Memory>
    ensures { OnOk result (Puts out.old out.new (bound_json (Some kept.now.least))) }
{
    put_bound(alloc, out, Some(kept.least))
}
