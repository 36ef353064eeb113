//! The object of a refusal.
ghost use Rattle.std.specs.Prelude.{◌≡◌, ◌++◌, IfOk, OnOk};
ghost use Rattle.refusal_objects.specs.Objects.{behind, named, refused_line, refused_object};

use contract::Memory;
use std::alloc::Global;

/// The members that say what is refused and the name of the fault. Both are words, without a character that JSON spells otherwise.
pub fn named_members(alloc: Global, of: &str, name: &str) -> Result<Vec<u8>, Memory>
    ensures { IfOk result (λ members. members.items ≡ named of.now name.now) }
{
    let members = format!(in alloc; "\"of\":\"{of}\",\"name\":\"{name}\"")?;
    Ok(members.into_bytes())
}

/// The object of these members and of what else is told, which may be nothing.
pub fn refused_object(alloc: Global, members: &[u8], told: &[u8]) -> Result<Vec<u8>, Memory>
    ensures { IfOk result (λ text. text.items ≡ refused_object members.now told.now) }
{
    let mut text = Vec::from_slice(alloc, b"{")?;
    text.extend_from_slice(members)?;
    put_behind(&mut text, told)?;
    text.push(b'}')?;
    Ok(text)
}

// What else is told, behind a comma.
fn put_behind(text: &mut Vec<u8>, told: &[u8]) -> Result<(), Memory>
    ensures { OnOk result (text.new.items ≡ text.old.items ++ behind told.now) }
{
    if told.is_empty() {
        return Ok(());
    }
    text.push(b',')?;
    text.extend_from_slice(told)
}

/// The line that `--json` prints for a refusal, with its line feed: an object with that object as `refused`.
pub fn refused_line(alloc: Global, members: &[u8], told: &[u8]) -> Result<Vec<u8>, Memory>
    ensures { IfOk result (λ text. text.items ≡ refused_line members.now told.now) }
{
    let object = refused_object(alloc, members, told)?;
    let mut text = Vec::from_slice(alloc, b"{\"refused\":")?;
    text.extend_from_slice(object.as_slice())?;
    text.extend_from_slice(b"}\n")?;
    Ok(text)
}
