//! The objects of threads, and all objects of a history.
ghost use Rattle.std.specs.Prelude.{◌≡◌, ◌++◌, length, map, IfOk, OnOk, string_bytes};
ghost use Rattle.play_objects.specs.EntryObjects as told;
ghost use Rattle.play_objects.specs.EntryObjects.{truth_text, thread_object, thread_objects, joined};

use crate::entries::quoted;
use contract::Memory;
use play_lines::ThreadLine;
use std::alloc::Global;
use std::fmt::Write;

fn truth_text(truth: bool) -> &'static str
    ensures { result.now ≡ truth_text truth }
{
    if truth { "true" } else { "false" }
}

fn put_thread(alloc: Global, out: &mut String, thread: &ThreadLine<'_>) -> Result<(), Memory>
    ensures { OnOk result (string_bytes out.new ≡ string_bytes out.old ++ thread_object thread.now) }
{
    let name = quoted(alloc, thread.name.as_str())?;
    let steps = thread.steps;
    let closed = truth_text(thread.closed);
    write!(
        out,
        "{{\"thread\":{name},\"steps\":{steps},\"closed\":{closed}}}\n"
    )
}

fn put_threads(alloc: Global, out: &mut String, threads: &[ThreadLine<'_>]) -> Result<(), Memory>
    ensures { OnOk result (string_bytes out.new ≡ string_bytes out.old ++ thread_objects threads.now) }
{
    for thread in threads {
        put_thread(alloc, out, thread)?;
    }
    Ok(())
}

// Puts texts one behind the other.
fn put_joined(out: &mut String, texts: &[String]) -> Result<(), Memory>
    ensures { OnOk result (string_bytes out.new ≡ string_bytes out.old ++ joined (map (λ s. string_bytes s) texts.now)) }
{
    for text in texts {
        out.push_str(text.as_str())?;
    }
    Ok(())
}

/// The objects of a history and of threads: the texts that stand for its entries, one for each thread, and one for the number of entries.
/// Answers `Memory` only where a growth was refused.
pub fn noted_objects(
    alloc: Global,
    notes: &[String],
    count: usize,
    threads: &[ThreadLine<'_>],
) -> Result<Vec<u8>, Memory>
    ensures { IfOk result (λ text. text.items ≡ told.noted_objects (map (λ s. string_bytes s) notes.now) count threads.now) }
{
    let mut out = String::new(alloc);
    put_joined(&mut out, notes)?;
    put_threads(alloc, &mut out, threads)?;
    write!(out, "{{\"entries\":{count}}}\n")?;
    Ok(out.into_bytes())
}
