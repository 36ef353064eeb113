//! What is told behind the entries of a play, and of the intents of its plans.
ghost use Rattle.std.specs.Prelude.{◌≡◌, ◌<◌, ◌-◌, ◌^◌, ◌++◌, length, map, slice_get, IfOk, OnOk, option_copied, string_bytes};
ghost use Rattle.play_endings.specs.EndingLines as lines;
ghost use Rattle.play_endings.specs.StepTexts as texts;
ghost use Rattle.marlowe_play.specs.Notes as notes;
ghost use Rattle.marlowe_play.specs.Notes.{left_intent, keys_at, offered_at, unbuilt_by, put_at, put_intent, put_left, plan_told, put_plans, marlowe_play, notes_by};

use parties::LeftOut;
use play_endings::{
    Ended, Entry, Intent, LeftIntent, Memory, Plan, Reply, Scenario, Spelling, Taken, Unspent,
    endings, entries_of, entry_objects, is_no_thread, notes_of, put_behind, put_endings, put_steps,
    taken_in, unbuilt_object, unbuilt_text,
};
use play_setup::BuildFault;
use std::alloc::Global;

// What is told of the plans of a play.
#[derive(Drop)]
pub(crate) struct Told {
    // Behind each entry, in order; as objects beside the entry's own.
    pub(crate) notes: Vec<String>,
    // How each intent of each plan ended, a line each.
    pub(crate) lines: String,
}

// ---- what was left out

fn entry_at(entries: &[Entry], place: usize) -> Option<&Entry>
    ensures { option_copied result ≡ slice_get entries.now place }
{
    entries.get(place)
}

// The key outputs that an entry showed.
fn keys_of(entry: Option<&Entry>) -> &[Unspent]
    ensures { result.now ≡ keys_at (option_copied entry.entry) }
{
    match entry {
        Some(entry) => match &entry.reply {
            Reply::Look(look) => look.keys.as_slice(),
            _ => &[],
        },
        None => &[],
    }
}

// The key outputs that the first of these looks showed.
fn offered<'e>(entries: &'e [Entry], looks: &[u64]) -> &'e [Unspent]
    ensures { result.now ≡ offered_at entries.now (slice_get looks.now 0) }
{
    match looks.first() {
        Some(place) => keys_of(entry_at(entries, *place as usize)),
        None => &[],
    }
}

fn last_of(places: &[u64]) -> Option<u64>
    ensures { result ≡ slice_get places.now (length places.now - 1) }
{
    match places.last() {
        Some(place) => Some(*place),
        None => None,
    }
}

fn unbuilt_by(
    alloc: Global,
    spelling: Spelling,
    scenario: &Scenario,
    place: usize,
    intent: &Intent<usize, usize>,
    offered: &[Unspent],
    fault: &BuildFault,
) -> Result<String, Memory>
    ensures { IfOk result (λ text. string_bytes text ≡ unbuilt_by spelling scenario.now place intent.now offered.now fault.now) }
{
    let threads = scenario.threads.as_slice();
    let contracts = scenario.contracts.as_slice();
    match spelling {
        Spelling::Lines => unbuilt_text(alloc, threads, contracts, intent, offered, fault),
        Spelling::Objects => {
            unbuilt_object(alloc, threads, contracts, place, intent, offered, fault)
        }
    }
}

fn put_at(
    alloc: Global,
    notes: &mut Vec<String>,
    spelling: Spelling,
    scenario: &Scenario,
    place: Option<u64>,
    intent: &Intent<usize, usize>,
    offered: &[Unspent],
    fault: &BuildFault,
) -> Result<(), Memory>
    ensures { OnOk result (map (λ s. string_bytes s) notes.new.items
        ≡ put_at spelling scenario.now place intent.now offered.now fault.now (map (λ s. string_bytes s) notes.old.items)) }
{
    let Some(place) = place else {
        return Ok(());
    };
    let place = place as usize;
    let text = unbuilt_by(alloc, spelling, scenario, place, intent, offered, fault)?;
    put_behind(notes, place, text.as_str())
}

fn intent_at(intents: &[Intent<usize, usize>], place: usize) -> Option<&Intent<usize, usize>>
    ensures { option_copied result ≡ slice_get intents.now place }
{
    intents.get(place)
}

// Puts what is told of an intent that was left out.
fn put_intent(
    alloc: Global,
    notes: &mut Vec<String>,
    spelling: Spelling,
    scenario: &Scenario,
    entries: &[Entry],
    intent: Option<&Intent<usize, usize>>,
    left: &LeftOut,
) -> Result<(), Memory>
    ensures { OnOk result (map (λ s. string_bytes s) notes.new.items
        ≡ put_intent spelling scenario.now entries.now (option_copied intent.entry) left.now (map (λ s. string_bytes s) notes.old.items)) }
{
    let Some(intent) = intent else {
        return Ok(());
    };
    let keys = offered(entries, &left.looks);
    let place = last_of(&left.looks);
    put_at(
        alloc,
        notes,
        spelling,
        scenario,
        place,
        intent,
        keys,
        &left.fault,
    )
}

// Puts what is told of each of these intents that was left out.
fn put_left(
    alloc: Global,
    notes: &mut Vec<String>,
    spelling: Spelling,
    scenario: &Scenario,
    entries: &[Entry],
    intents: &[Intent<usize, usize>],
    left: &[LeftOut],
) -> Result<(), Memory>
    ensures { OnOk result (map (λ s. string_bytes s) notes.new.items
        ≡ put_left spelling scenario.now entries.now intents.now left.now (map (λ s. string_bytes s) notes.old.items)) }
{
    for out in left {
        let intent = intent_at(intents, out.intent);
        put_intent(alloc, notes, spelling, scenario, entries, intent, out)?;
    }
    Ok(())
}

// ---- plans

fn left_intent(left: &LeftOut) -> LeftIntent
    ensures { result ≡ left_intent left.now }
{
    LeftIntent {
        intent: left.intent,
        last_look: last_of(&left.looks),
        no_thread: is_no_thread(&left.fault),
    }
}

pub(crate) fn left_intents(alloc: Global, left: &[LeftOut]) -> Result<Vec<LeftIntent>, Memory>
    ensures { IfOk result (λ intents. intents.items ≡ map left_intent left.now) }
{
    let mut intents = Vec::new(alloc);
    for out in left {
        intents.push(left_intent(out))?;
    }
    Ok(intents)
}

pub(crate) fn plan_at(plans: &[Plan<usize, usize>], place: usize) -> Option<&Plan<usize, usize>>
    ensures { option_copied result ≡ slice_get plans.now place }
{
    plans.get(place)
}

// Puts what is told of a plan whose intents ended so.
fn put_ended(
    alloc: Global,
    told: &mut Told,
    spelling: Spelling,
    scenario: &Scenario,
    seat: u64,
    plan: &Plan<usize, usize>,
    ended: &[Ended<'_, '_>],
) -> Result<(), Memory>
    ensures notes { OnOk result (map (λ s. string_bytes s) told.new.notes.items
        ≡ texts.put_ended spelling scenario.now.threads plan.now.intents 0 ended.now (map (λ s. string_bytes s) told.old.notes.items)) }
    ensures lines { OnOk result (string_bytes told.new.lines ≡ string_bytes told.old.lines
        ++ lines.plan_lines spelling seat plan.now.name scenario.now.threads scenario.now.contracts plan.now.intents ended.now) }
{
    let threads = scenario.threads.as_slice();
    let contracts = scenario.contracts.as_slice();
    let intents = plan.intents.as_slice();
    put_steps(alloc, &mut told.notes, spelling, threads, intents, ended)?;
    put_endings(
        alloc,
        &mut told.lines,
        spelling,
        seat,
        &plan.name,
        threads,
        contracts,
        intents,
        ended,
    )
}

// Puts what is told of a plan, by its place in the scenario: its seat has the number behind it.
fn put_plan(
    alloc: Global,
    told: &mut Told,
    spelling: Spelling,
    scenario: &Scenario,
    entries: &[Entry],
    taken: &[Taken],
    place: usize,
    left: &[LeftOut],
) -> Result<(), Memory>
    requires { place < 2 ^ 63 }
    ensures notes { OnOk result (map (λ s. string_bytes s) told.new.notes.items
        ≡ notes.put_plan spelling scenario.now entries.now taken.now place (slice_get scenario.now.plans place) left.now
        (map (λ s. string_bytes s) told.old.notes.items)) }
    ensures lines { OnOk result (string_bytes told.new.lines ≡ string_bytes told.old.lines
        ++ plan_told spelling scenario.now entries.now taken.now place (slice_get scenario.now.plans place) left.now) }
{
    let Some(plan) = plan_at(scenario.plans.as_slice(), place) else {
        return Ok(());
    };
    let intents = plan.intents.as_slice();
    put_left(
        alloc,
        &mut told.notes,
        spelling,
        scenario,
        entries,
        intents,
        left,
    )?;
    let seat = place as u64 + 1;
    let own = entries_of(alloc, seat, entries)?;
    let lefts = left_intents(alloc, left)?;
    let ended = endings(alloc, intents, &lefts, &own, taken)?;
    put_ended(alloc, told, spelling, scenario, seat, plan, &ended)
}

// Puts what is told of each plan.
fn put_plans(
    alloc: Global,
    told: &mut Told,
    spelling: Spelling,
    scenario: &Scenario,
    entries: &[Entry],
    taken: &[Taken],
    left: &[Vec<LeftOut>],
) -> Result<(), Memory>
    ensures notes { OnOk result (map (λ s. string_bytes s) told.new.notes.items
        ≡ put_plans spelling scenario.now entries.now taken.now 0 (map (λ l. l.items) left.now) (map (λ s. string_bytes s) told.old.notes.items)) }
    ensures lines { OnOk result (string_bytes told.new.lines ≡ string_bytes told.old.lines
        ++ marlowe_play spelling scenario.now entries.now taken.now 0 (map (λ l. l.items) left.now)) }
{
    for (place, of_plan) in left.iter().enumerate() {
        put_plan(
            alloc, told, spelling, scenario, entries, taken, place, of_plan,
        )?;
    }
    Ok(())
}

// What is told of entries alone.
fn notes_by(alloc: Global, spelling: Spelling, entries: &[Entry]) -> Result<Vec<String>, Memory>
    ensures { IfOk result (λ notes. map (λ s. string_bytes s) notes.items ≡ notes_by spelling entries.now) }
{
    match spelling {
        Spelling::Lines => notes_of(alloc, entries),
        Spelling::Objects => entry_objects(alloc, entries),
    }
}

/// What is told behind each entry of a scenario's play: why its reply refuses something, what hindered an intent behind the last look for
/// it, and what a step did behind the entry that accepted it; and how each intent ended.
pub(crate) fn told_of(
    alloc: Global,
    spelling: Spelling,
    scenario: &Scenario,
    left: &[Vec<LeftOut>],
    entries: &[Entry],
) -> Result<Told, Memory>
    ensures notes { IfOk result (λ told. map (λ s. string_bytes s) told.notes.items
        ≡ notes.notes_with spelling scenario.now (map (λ l. l.items) left.now) entries.now) }
    ensures lines { IfOk result (λ told. string_bytes told.lines
        ≡ notes.intents_told spelling scenario.now (map (λ l. l.items) left.now) entries.now) }
{
    let taken = taken_in(alloc, entries)?;
    let mut told = Told {
        notes: notes_by(alloc, spelling, entries)?,
        lines: String::new(alloc),
    };
    put_plans(alloc, &mut told, spelling, scenario, entries, &taken, left)?;
    Ok(told)
}
