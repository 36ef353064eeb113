//! What is told of steps that were accepted.
ghost use Rattle.std.specs.Prelude.{◌≡◌, ◌++◌, ◌∷◌, [], map, IfOk, OnOk, option_copied, slice_get, string_bytes};
ghost use Rattle.play_endings.specs.StepTexts as told;
ghost use Rattle.play_endings.specs.StepTexts.{shown_text, thread_text, step_head, first_text, steps_texts, done_text, put_text, put_done, put_ended};

use crate::ending::{Ended, Ending};
use crate::lines::intent_at;
use crate::placed::Placed;
use contract::{Input, Interval, Items, Memory};
use ledger::{Reply, ThreadOutput};
use play_objects::{Intent, NamedThread, Spelling, Step, put_behind, step_text, thread_name};
use std::alloc::Global;

// Of a thread that a look showed.
fn thread_text(
    alloc: Global,
    spelling: Spelling,
    head: &str,
    inputs: &[Input],
    interval: Interval,
    tick: i64,
    shown: &Option<ThreadOutput>,
) -> Result<String, Memory>
    ensures { IfOk result (λ text. string_bytes text ≡ thread_text spelling head.now inputs.now interval tick shown.now) }
{
    match shown {
        Some(shown) => {
            let step = Step {
                table: &shown.published.get().table,
                datum: &shown.datum,
                inputs,
                interval,
                tick,
            };
            step_text(alloc, spelling, head, &step)
        }
        None => Ok(String::new(alloc)),
    }
}

// Of what a look showed.
fn shown_text(
    alloc: Global,
    spelling: Spelling,
    head: &str,
    inputs: &[Input],
    interval: Interval,
    reply: &Reply,
) -> Result<String, Memory>
    ensures { IfOk result (λ text. string_bytes text ≡ shown_text spelling head.now inputs.now interval reply.now) }
{
    match reply {
        Reply::Look(look) => thread_text(
            alloc,
            spelling,
            head,
            inputs,
            interval,
            look.tick,
            &look.thread,
        ),
        _ => Ok(String::new(alloc)),
    }
}

// How what is told of a step begins.
fn step_head(
    alloc: Global,
    spelling: Spelling,
    threads: &[NamedThread],
    thread: usize,
    place: usize,
) -> Result<String, Memory>
    ensures { IfOk result (λ text. string_bytes text ≡ step_head spelling threads.now thread place) }
{
    let name = thread_name(alloc, threads, thread)?;
    match spelling {
        Spelling::Lines => format!(in alloc; "    step {name}: "),
        Spelling::Objects => format!(in alloc; "{{\"step\":{name},\"entry\":{place},"),
    }
}

// Of a step whose look is the first of these entries.
fn first_text(
    alloc: Global,
    spelling: Spelling,
    threads: &[NamedThread],
    thread: usize,
    inputs: &[Input],
    interval: Interval,
    place: usize,
    turn: &[Placed<'_>],
) -> Result<String, Memory>
    ensures { IfOk result (λ text. string_bytes text ≡ first_text spelling threads.now thread inputs.now interval place turn.now) }
{
    let head = step_head(alloc, spelling, threads, thread, place)?;
    let head = head.as_str();
    match turn {
        [look, ..] => shown_text(alloc, spelling, head, inputs, interval, &look.entry.reply),
        [] => Ok(String::new(alloc)),
    }
}

// Of steps whose looks are the first of these entries.
fn steps_texts(
    alloc: Global,
    spelling: Spelling,
    threads: &[NamedThread],
    steps: &[(usize, Items<Input>)],
    interval: Interval,
    place: usize,
    turn: &[Placed<'_>],
) -> Result<String, Memory>
    ensures { IfOk result (λ text. string_bytes text ≡ steps_texts spelling threads.now interval place steps.now turn.now) }
{
    let mut out = String::new(alloc);
    let mut rest = turn;
    for step in steps {
        let inputs = step.1.as_slice();
        let text = first_text(
            alloc, spelling, threads, step.0, inputs, interval, place, rest,
        )?;
        out.push_str(text.as_str())?;
        rest = behind_first(rest);
    }
    Ok(out)
}

fn behind_first<'p, 'e>(turn: &'p [Placed<'e>]) -> &'p [Placed<'e>]
    ensures { result.now ≡ told.behind_first turn.now }
{
    match turn {
        [_, rest @ ..] => rest,
        [] => turn,
    }
}

// Of an intent that is done at a place.
fn done_text(
    alloc: Global,
    spelling: Spelling,
    threads: &[NamedThread],
    intent: &Intent<usize, usize>,
    place: usize,
    turn: &[Placed<'_>],
) -> Result<String, Memory>
    ensures { IfOk result (λ text. string_bytes text ≡ done_text spelling threads.now intent.now place turn.now) }
{
    match intent {
        Intent::Step {
            thread,
            inputs,
            interval,
            ..
        } => {
            let inputs = inputs.as_slice();
            first_text(
                alloc, spelling, threads, *thread, inputs, *interval, place, turn,
            )
        }
        Intent::Steps {
            steps,
            interval,
            ..
        } => {
            let steps = steps.as_slice();
            steps_texts(alloc, spelling, threads, steps, *interval, place, turn)
        }
        _ => Ok(String::new(alloc)),
    }
}

fn put_text(
    alloc: Global,
    notes: &mut Vec<String>,
    spelling: Spelling,
    threads: &[NamedThread],
    intent: &Intent<usize, usize>,
    ended: &Ended<'_, '_>,
) -> Result<(), Memory>
    ensures { OnOk result (map (λ s. string_bytes s) notes.new.items
        ≡ put_text spelling threads.now intent.now ended.now.turn ended.now.ending (map (λ s. string_bytes s) notes.old.items)) }
{
    match ended.ending {
        Ending::Done(place) => {
            let text = done_text(alloc, spelling, threads, intent, place, ended.turn)?;
            put_behind(notes, place, text.as_str())
        }
        _ => Ok(()),
    }
}

// Puts what is told of an intent with this ending, if there is one.
fn put_done(
    alloc: Global,
    notes: &mut Vec<String>,
    spelling: Spelling,
    threads: &[NamedThread],
    intent: Option<&Intent<usize, usize>>,
    ended: &Ended<'_, '_>,
) -> Result<(), Memory>
    ensures { OnOk result (map (λ s. string_bytes s) notes.new.items
        ≡ put_done spelling threads.now (option_copied intent.entry) ended.now (map (λ s. string_bytes s) notes.old.items)) }
{
    match intent {
        Some(intent) => put_text(alloc, notes, spelling, threads, intent, ended),
        None => Ok(()),
    }
}

/// Puts behind the entries that accepted the steps of a plan what they did: of each what it paid and warned of, and what its contract
/// waits for now. Answers `Memory` only where a growth was refused.
pub fn put_steps(
    alloc: Global,
    notes: &mut Vec<String>,
    spelling: Spelling,
    threads: &[NamedThread],
    intents: &[Intent<usize, usize>],
    ended: &[Ended<'_, '_>],
) -> Result<(), Memory>
    ensures { OnOk result (map (λ s. string_bytes s) notes.new.items
        ≡ put_ended spelling threads.now intents.now 0 ended.now (map (λ s. string_bytes s) notes.old.items)) }
{
    for (place, one) in ended.iter().enumerate() {
        let intent = intent_at(intents, place);
        put_done(alloc, notes, spelling, threads, intent, one)?;
    }
    Ok(())
}
