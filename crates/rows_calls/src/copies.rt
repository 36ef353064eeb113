//! Copies of calls and replies, beside what they are of.
use chain::{Call, Entry, Reply};
use contract::Memory;
use rows_text::{done, put_beside, put_copy, put_same};
use std::alloc::{AllocError, Global};

/// Of each of the last so many entries, whether a copy of its call is the same, and of its reply; and whether each call, reply and
/// entry is the same as the one before it.
pub fn history_copies(
    alloc: Global,
    entries: &[Entry],
    count: usize,
) -> Result<String, AllocError> {
    let entries = &entries[entries.len().saturating_sub(count)..];
    let mut lines = String::from_str(alloc, "calls")?;
    for entry in entries {
        put_copy::<Call>(&mut lines, &entry.call)?;
    }
    lines.push_str("\nreplies")?;
    for entry in entries {
        put_copy::<Reply>(&mut lines, &entry.reply)?;
    }
    let put = put_pairs(&mut lines, entries);
    done(lines, put)
}

fn put_pairs(lines: &mut String, entries: &[Entry]) -> Result<(), Memory> {
    lines.push_str("\ncalls beside")?;
    put_calls_beside(lines, entries)?;
    lines.push_str("\nreplies beside")?;
    put_replies_beside(lines, entries)?;
    lines.push_str("\nentries")?;
    put_beside(lines, entries)
}

fn put_calls_beside(lines: &mut String, entries: &[Entry]) -> Result<(), Memory> {
    let mut last: Option<&Entry> = None;
    for entry in entries {
        if let Some(before) = last {
            put_same(lines, before.call == entry.call)?;
        }
        last = Some(entry);
    }
    Ok(())
}

fn put_replies_beside(lines: &mut String, entries: &[Entry]) -> Result<(), Memory> {
    let mut last: Option<&Entry> = None;
    for entry in entries {
        if let Some(before) = last {
            put_same(lines, before.reply == entry.reply)?;
        }
        last = Some(entry);
    }
    Ok(())
}
