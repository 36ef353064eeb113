//! Whether all went well.
ghost use Rattle.std.specs.Prelude.{◌≡◌, ◌<◌, ◌^◌, map, slice_get, IfOk, option_copied};
ghost use Rattle.marlowe_play.specs.Strict as strict;
ghost use Rattle.marlowe_play.specs.Strict.{is_among, closed_but, plan_done, plans_done, went_well};

use crate::notes::{left_intents, plan_at};
use parties::LeftOut;
use play_endings::{Entry, Memory, Plan, Scenario, Taken, all_done, endings, entries_of, taken_in};
use play_setup::ThreadLine;
use std::alloc::Global;

// Whether each intent of a plan is done, if there is one. Its seat has the number behind its place.
fn plan_done(
    alloc: Global,
    plan: Option<&Plan<usize, usize>>,
    entries: &[Entry],
    taken: &[Taken],
    place: usize,
    left: &[LeftOut],
) -> Result<bool, Memory>
    requires { place < 2 ^ 63 }
    ensures { IfOk result (λ done. done ≡ plan_done entries.now taken.now place (option_copied plan.entry) left.now) }
{
    let Some(plan) = plan else {
        return Ok(true);
    };
    let own = entries_of(alloc, place as u64 + 1, entries)?;
    let lefts = left_intents(alloc, left)?;
    let ended = endings(alloc, plan.intents.as_slice(), &lefts, &own, taken)?;
    Ok(all_done(&ended))
}

// Whether each intent of each plan is done.
fn plans_done(
    alloc: Global,
    scenario: &Scenario,
    entries: &[Entry],
    taken: &[Taken],
    left: &[Vec<LeftOut>],
) -> Result<bool, Memory>
    ensures { IfOk result (λ done. done ≡ plans_done scenario.now entries.now taken.now 0 (map (λ l. l.items) left.now)) }
{
    for (place, of_plan) in left.iter().enumerate() {
        let plan = plan_at(scenario.plans.as_slice(), place);
        let done = plan_done(alloc, plan, entries, taken, place, of_plan)?;
        if !done {
            return Ok(false);
        }
    }
    Ok(true)
}

fn is_among(name: &str, names: &[&str]) -> bool
    ensures { result ≡ is_among name.now (map (λ s. s.now) names.now) }
{
    for other in names {
        if name == *other {
            return true;
        }
    }
    false
}

// Whether each of these threads is closed, but for those with these names.
fn closed_but(kept_open: &[&str], lines: &[ThreadLine<'_>]) -> bool
    ensures { result ≡ closed_but (map (λ s. s.now) kept_open.now) lines.now }
{
    for line in lines {
        if !line.closed && !is_among(line.name.as_str(), kept_open) {
            return false;
        }
    }
    true
}

/// Whether a play went well: each intent of each plan is done, and each thread is closed, but for those with these names, which may stay
/// open. A name that no thread has asks for nothing. `left` has what the party of each plan left out, in the order of the plans, and
/// `lines` what is told of the threads. Answers `Memory` only where a growth was refused.
pub(crate) fn went_well(
    alloc: Global,
    scenario: &Scenario,
    left: &[Vec<LeftOut>],
    entries: &[Entry],
    lines: &[ThreadLine<'_>],
    kept_open: &[&str],
) -> Result<bool, Memory>
    ensures { IfOk result (λ well. well
        ≡ strict.went_well (map (λ s. s.now) kept_open.now) scenario.now (map (λ l. l.items) left.now) entries.now lines.now) }
{
    let taken = taken_in(alloc, entries)?;
    let done = plans_done(alloc, scenario, entries, &taken, left)?;
    Ok(done && closed_but(kept_open, lines))
}
