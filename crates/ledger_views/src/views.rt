//! What a look shows.
ghost use Rattle.std.specs.Prelude.{◌≡◌, Some, IfOk, option_copied};
ghost use Rattle.ledger_kept.specs.EutxoTypes.Parts.{script_in};
ghost use Rattle.ledger_kept.specs.LedgerSpec.Replay.{world};
ghost use Rattle.ledger_kept.specs.LedgerSpec.Views.{object_under, thread_output, thread_output_in, look};
ghost use Rattle.ledger_kept.specs.Kept.{IsIndexOf};
ghost use Rattle.ledger_views.specs.ViewsSupport.{output_shown_in, thread_shown_in, look_in};

use contract::{Memory, TryClone};
use ledger_kept::{
    Ask, Datum, Index, Kept, Lock, Look, Output, OutputRef, Published, Shared, ThreadOutput,
    index_follows_threads, index_tells_data,
};
use std::alloc::Global;

// ---- a thread

fn object_under<'a>(index: &'a Index, lock: &Lock) -> Option<&'a Shared<Published>>
    ensures { option_copied result ≡ object_under index.now.present.published (script_in lock.now) }
{
    match lock.contract() {
        Some(contract) => index.published_at(contract.script),
        None => None,
    }
}

fn thread_output(
    reference: OutputRef,
    output: &Output,
    datum: &Datum,
    object: Option<&Shared<Published>>,
) -> Result<Option<ThreadOutput>, Memory>
    ensures { IfOk result (λ x. x ≡ thread_output reference output.now datum.now (option_copied object.entry)) }
{
    match object {
        Some(object) => {
            let output = output.try_clone()?;
            let datum = datum.try_clone()?;
            let published = object.try_clone()?;
            Ok(Some(ThreadOutput {
                reference,
                output,
                datum,
                published,
            }))
        }
        None => Ok(None),
    }
}

fn thread_output_in(
    index: &Index,
    reference: OutputRef,
    output: Option<&Output>,
    datum: Option<&Datum>,
) -> Result<Option<ThreadOutput>, Memory>
    ensures { IfOk result (λ x. x ≡ thread_output_in index.now.present.published reference
        (option_copied output.entry) (option_copied datum.entry)) }
{
    match (output, datum) {
        (Some(output), Some(datum)) => {
            thread_output(reference, output, datum, object_under(index, &output.lock))
        }
        _ => Ok(None),
    }
}

// The unspent output that a thread has here, with its datum and what is published under its script.
fn output_shown(index: &Index, at: Option<OutputRef>) -> Result<Option<ThreadOutput>, Memory>
    ensures { IfOk result (λ x. x ≡ output_shown_in index.now.present at) }
{
    match at {
        Some(reference) => thread_output_in(
            index,
            reference,
            index.unspent_at(&reference),
            index.datum_at(&reference),
        ),
        None => Ok(None),
    }
}

fn thread_shown(index: &Index, asked: Option<OutputRef>) -> Result<Option<ThreadOutput>, Memory>
    ensures { IfOk result (λ x. x ≡ thread_shown_in index.now.present asked) }
{
    match asked {
        Some(reference) => output_shown(index, index.end_of(&reference)),
        None => Ok(None),
    }
}

// ---- a look

// What is shown of what is indexed, at a tick.
fn look_at(alloc: Global, index: &Index, tick: i64, ask: &Ask) -> Result<Look, Memory>
    ensures { IfOk result (λ shown. shown ≡ look_in index.now.present tick ask.now) }
{
    let keys = index.keys_shown(alloc, ask.keys.as_slice())?;
    let payouts = index.payouts_shown(alloc, ask.payouts.as_slice())?;
    let thread = thread_shown(index, ask.thread)?;
    Ok(Look {
        tick,
        thread,
        keys,
        payouts,
    })
}

/// What a look shows. The asked thread costs one look-up for each of its steps; the outputs under locks cost what is asked
/// and what is shown. Answers `Memory` only where a growth was refused.
pub fn show(alloc: Global, kept: &Kept<'_>, index: &Index, ask: &Ask) -> Result<Look, Memory>
    requires tied { IsIndexOf index.now.present (world kept.now) }
    ensures { IfOk result (λ shown. shown ≡ look (world kept.now) ask.now) }
{
    // touch: where threads end, and with which data
    index_follows_threads();
    index_tells_data();
    look_at(alloc, index, kept.tick(), ask)
}
