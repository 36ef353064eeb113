//! The line of an answer.
ghost use Rattle.std.specs.Prelude.{◌≡◌, ◌++◌, IfOk, OnOk, codes, map};
ghost use Rattle.request_parts.specs.Answered.{begun, comma_for_feed, cut_answer, listed, ok_answer, reasoned_answer, refused_answer, traced_answer, without_feed};

use crate::refusal::Refusal;
use crate::refused::refusal_object;
use contract::Memory;
use marlowe_run::TraceFault;
use std::alloc::Global;

/// What is told.
pub fn ok_answer(alloc: Global, id: &[u8], text: &[u8]) -> Result<Vec<u8>, Memory>
    ensures { IfOk result (λ line. line.items ≡ ok_answer id.now text.now) }
{
    let mut line = begun(alloc, id)?;
    line.extend_from_slice(b",\"ok\":")?;
    line.extend_from_slice(text)?;
    ended(line)
}

/// Why nothing is.
pub fn refused_answer(alloc: Global, id: &[u8], refusal: Refusal) -> Result<Vec<u8>, Memory>
    ensures { IfOk result (λ line. line.items ≡ refused_answer id.now refusal) }
{
    reasoned_answer(alloc, id, refusal, b"")
}

/// .. and what else is told of it.
pub fn reasoned_answer(
    alloc: Global,
    id: &[u8],
    refusal: Refusal,
    reason: &[u8],
) -> Result<Vec<u8>, Memory>
    ensures { IfOk result (λ line. line.items ≡ reasoned_answer id.now refusal reason.now) }
{
    let object = refusal_object(alloc, refusal, reason)?;
    let line = begun(alloc, id)?;
    refused_behind(line, object.as_slice())
}

/// Outcomes, and why the next transaction is refused, if one is, with what else is told of it.
pub fn traced_answer(
    alloc: Global,
    id: &[u8],
    lines: &[u8],
    refused: Option<TraceFault>,
    reason: &[u8],
) -> Result<Vec<u8>, Memory>
    ensures { IfOk result (λ line. line.items ≡ traced_answer id.now lines.now refused reason.now) }
{
    let text = listed(alloc, lines)?;
    match refused {
        None => ok_answer(alloc, id, text.as_slice()),
        Some(fault) => cut_answer(alloc, id, text.as_slice(), Refusal::from(fault), reason),
    }
}

fn cut_answer(
    alloc: Global,
    id: &[u8],
    text: &[u8],
    refusal: Refusal,
    reason: &[u8],
) -> Result<Vec<u8>, Memory>
    ensures { IfOk result (λ line. line.items ≡ cut_answer id.now text.now refusal reason.now) }
{
    let object = refusal_object(alloc, refusal, reason)?;
    let rest = refused_behind(Vec::new(alloc), object.as_slice())?;
    told_before(alloc, id, text, rest.as_slice())
}

// What is told, before the rest.
fn told_before(alloc: Global, id: &[u8], text: &[u8], rest: &[u8]) -> Result<Vec<u8>, Memory>
    ensures { IfOk result (λ line. line.items ≡ begun id.now ++ (codes ",\"ok\":" ++ (text.now ++ rest.now))) }
{
    let mut line = begun(alloc, id)?;
    line.extend_from_slice(b",\"ok\":")?;
    line.extend_from_slice(text)?;
    line.extend_from_slice(rest)?;
    Ok(line)
}

// Why nothing more is told, and the end of the answer, behind what is there.
fn refused_behind(mut line: Vec<u8>, object: &[u8]) -> Result<Vec<u8>, Memory>
    ensures { IfOk result (λ whole. whole.items ≡ line.items ++ (codes ",\"refused\":" ++ (object.now ++ codes "}\n"))) }
{
    line.extend_from_slice(b",\"refused\":")?;
    line.extend_from_slice(object)?;
    ended(line)
}

// The member `id`, before others.
fn begun(alloc: Global, id: &[u8]) -> Result<Vec<u8>, Memory>
    ensures { IfOk result (λ line. line.items ≡ begun id.now) }
{
    let mut line = Vec::from_slice(alloc, b"{\"id\":")?;
    line.extend_from_slice(id)?;
    Ok(line)
}

// The end of an answer.
fn ended(mut line: Vec<u8>) -> Result<Vec<u8>, Memory>
    ensures { IfOk result (λ whole. whole.items ≡ line.items ++ codes "}\n") }
{
    line.extend_from_slice(b"}\n")?;
    Ok(line)
}

/// A printed line without its line feed.
pub fn without_feed(mut line: Vec<u8>) -> Vec<u8>
    ensures { result.items ≡ without_feed line.items }
{
    let _ = line.pop();
    line
}

// Lines, each of which is a JSON value, as a list.
fn listed(alloc: Global, lines: &[u8]) -> Result<Vec<u8>, Memory>
    ensures { IfOk result (λ text. text.items ≡ listed lines.now) }
{
    let mut text = Vec::from_slice(alloc, b"[")?;
    put_commas(&mut text, &lines[..lines.len().saturating_sub(1)])?;
    text.push(b']')?;
    Ok(text)
}

fn put_commas(text: &mut Vec<u8>, lines: &[u8]) -> Result<(), Memory>
    ensures { OnOk result (text.new.items ≡ text.old.items ++ map comma_for_feed lines.now) }
{
    for byte in lines {
        let byte = if *byte == b'\n' { b',' } else { *byte };
        text.push(byte)?;
    }
    Ok(())
}
