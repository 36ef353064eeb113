//! Reading a text, in one pass over its tokens.
ghost use Rattle.std.specs.Prelude.{◌≡◌, ◌≢◌, ◌<◌, ◌≤◌, length, Some, None, Err, IfOk, IfErr, OnOk, IsUtf8};
ghost use Rattle.json.specs.Json.{value};
ghost use Rattle.serde_json.specs.Read.{of_json, converted, read as read_text};
ghost use Rattle.json_tree.specs.View.{view, items_view, members_view, read_within};
ghost use Rattle.json_tree.specs.ReadSupport.{items_read, members_read};
ghost use Rattle.json_tree.specs.declared.read.Refusal.TheVariants.{NotJson, Memory};

use crate::number::number;
use crate::tree::Json;
use json::{Invalid, Reader, Scratch, Token};
use std::alloc::{AllocError, AllocFailed, Global};

/// Why a text isn't read.
#[derive(Clone, Copy, Debug, PartialEq, Eq, Drop)]
pub enum Refusal {
    /// The text isn't JSON in UTF-8, or nests deeper than 127.
    NotJson = 1,
    /// Memory was refused.
    Memory = 2,
}

impl From<AllocError> for Refusal {
    ghost from_gives = { λ _ fault. fault ≡ Memory };

    fn from(_error: AllocError) -> Refusal {
        Refusal::Memory
    }
}

impl<T: Drop> From<AllocFailed<T>> for Refusal {
    ghost from_gives = { λ _ fault. fault ≡ Memory };

    fn from(_error: AllocFailed<T>) -> Refusal {
        Refusal::Memory
    }
}

impl From<Invalid> for Refusal {
    ghost from_gives = { λ _ fault. fault ≡ NotJson };

    fn from(_error: Invalid) -> Refusal {
        Refusal::NotJson
    }
}

// How deep lists and objects may nest, as `serde_json` has it.
const MAX_DEPTH: usize = 127;

/// The tree of a text. Texts with escapes are written into `scratch`, all others are borrowed from
/// `bytes`.
pub fn from_slice<'a>(
    alloc: Global,
    bytes: &'a [u8],
    scratch: &'a mut Scratch,
) -> Result<Json<'a>, Refusal>
    ensures ok { IfOk result (λ j. IsUtf8 bytes.now × (read_text bytes.now ≡ Some (view j))) }
    ensures err { result ≡ Err NotJson → IsUtf8 bytes.now → read_text bytes.now ≡ None }
{
    from_slice_within(alloc, bytes, scratch, MAX_DEPTH)
}

/// The tree of a text whose lists and objects nest no deeper than `depth`: `from_slice` has 127. Each level takes stack as it is read, and
/// as the tree is dropped.
pub fn from_slice_within<'a>(
    alloc: Global,
    bytes: &'a [u8],
    scratch: &'a mut Scratch,
    depth: usize,
) -> Result<Json<'a>, Refusal>
    ensures ok { IfOk result (λ j. IsUtf8 bytes.now × (read_within depth bytes.now ≡ Some (view j))) }
    ensures err { result ≡ Err NotJson → IsUtf8 bytes.now → read_within depth bytes.now ≡ None }
{
    let Ok(text) = simdutf8::compat::from_utf8(bytes) else {
        return Err(Refusal::NotJson);
    };
    from_text(alloc, text, scratch, depth)
}

#[tactic(auto, using(crate::proofs::Converted::whole_steps))]
fn from_text<'a>(
    alloc: Global,
    text: &'a str,
    scratch: &'a mut Scratch,
    depth: usize,
) -> Result<Json<'a>, Refusal>
    ensures ok { IfOk result (λ j. read_within depth text.now ≡ Some (view j)) }
    ensures err { result ≡ Err NotJson → read_within depth text.now ≡ None }
{
    let mut reader = Reader::new(text, scratch)?;
    let mut items = Vec::new(alloc);
    let mut members = Vec::new(alloc);
    let json = read(&mut reader, &mut items, &mut members, depth)?;
    if reader.next().is_some() {
        return Err(Refusal::NotJson);
    }
    Ok(json)
}

// One value. What a list or an object holds waits on `items` or `members` until it ends, so that each
// gets just the room that it needs.
#[cycle(read)]
fn read<'a>(
    reader: &mut Reader<'a>,
    items: &mut Vec<Json<'a>>,
    members: &mut Vec<(&'a str, Json<'a>)>,
    depth: usize,
) -> Result<Json<'a>, Refusal>
    ensures ok { IfOk result (λ j. converted of_json (value depth reader.old) ≡ Some (view j, reader.new)) }
    ensures kept { OnOk result ((items.new.items ≡ items.old.items) × (members.new.items ≡ members.old.items)) }
    ensures shorter { OnOk result (length reader.new < length reader.old) }
    ensures err { result ≡ Err NotJson → converted of_json (value depth reader.old) ≡ None }
{
    let token = reader.next().ok_or(Refusal::NotJson)?;
    match token {
        Token::String(text) => Ok(Json::String(text)),
        Token::Number(text) => match number(text) {
            Some(number) => Ok(Json::Number(number)),
            None => Err(Refusal::NotJson),
        },
        Token::Bool(b) => Ok(Json::Bool(b)),
        Token::Null => Ok(Json::Null),
        Token::EndObject | Token::EndArray | Token::Key(_) | Token::Bad => Err(Refusal::NotJson),
        Token::BeginArray => {
            if depth == 0 {
                return Err(Refusal::NotJson);
            }
            Ok(Json::Array(read_items(reader, items, members, depth - 1)?))
        }
        Token::BeginObject => {
            if depth == 0 {
                return Err(Refusal::NotJson);
            }
            Ok(Json::Object(read_members(reader, items, members, depth - 1)?))
        }
    }
}

#[cycle(read)]
fn read_items<'a>(
    reader: &mut Reader<'a>,
    items: &mut Vec<Json<'a>>,
    members: &mut Vec<(&'a str, Json<'a>)>,
    depth: usize,
) -> Result<Vec<Json<'a>>, Refusal>
    ensures ok { IfOk result (λ v. items_read depth reader.old ≡ Some (items_view v.items, reader.new)) }
    ensures kept { OnOk result ((items.new.items ≡ items.old.items) × (members.new.items ≡ members.old.items)) }
    ensures shorter { OnOk result (length reader.new < length reader.old) }
    ensures err { result ≡ Err NotJson → items_read depth reader.old ≡ None }
{
    let start = items.len();
    'items: while !reader.take_end_array() {
        let item = read(reader, items, members, depth)?;
        items.push(item)?;
    }
    Ok(items.split_off(start)?)
}

#[cycle(read)]
fn read_members<'a>(
    reader: &mut Reader<'a>,
    items: &mut Vec<Json<'a>>,
    members: &mut Vec<(&'a str, Json<'a>)>,
    depth: usize,
) -> Result<Vec<(&'a str, Json<'a>)>, Refusal>
    ensures ok { IfOk result (λ v. members_read depth reader.old ≡ Some (members_view v.items, reader.new)) }
    ensures kept { OnOk result ((items.new.items ≡ items.old.items) × (members.new.items ≡ members.old.items)) }
    ensures shorter { OnOk result (length reader.new < length reader.old) }
    ensures err { result ≡ Err NotJson → members_read depth reader.old ≡ None }
{
    let start = members.len();
    'members: while let Some(key) = reader.next_key()? {
        let member = read(reader, items, members, depth)?;
        members.push((key, member))?;
    }
    Ok(members.split_off(start)?)
}
