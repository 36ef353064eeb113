//! Parties with their seats, and how they play.
ghost use Rattle.std.specs.Prelude.{◌≡◌, ◌<◌, ◌∷◌, length, map, Ok, IfOk};
ghost use Rattle.std.specs.List.{All, AllZip};
ghost use Rattle.play_setup.specs.JsonReadScenarios.Named.{PlanNames};
ghost use Rattle.marlowe_play.specs.PlayedSupport.{HasEnded};
ghost use Rattle.play_setup.specs.SetUp.{currencies, plan_on};

use parties::{Hub, LeftOut, Party, Seat, SeatAtHub, Session, Watch};
use play_endings::{Memory, OutputRef, Scenario};
use play_setup::plan_on;
use std::alloc::Global;
use std::sync::Wait;
use std::thread;
use std::thread::Threads;

// A party that is to play, and its seat at the hub that all share.
#[derive(Drop)]
pub(crate) struct Turn<'h, J: Session> {
    pub(crate) party: Party,
    pub(crate) place: SeatAtHub<'h, J>,
}

// A seat that comes back, and what its party left out, unless it was refused memory.
pub(crate) type Ended<J> = (Seat<J>, Result<Vec<LeftOut>, Memory>);

// A turn for each plan, with the seat at its place.
pub(crate) fn turns_of<'h, J: Session>(
    alloc: Global,
    hub: &'h Hub<J>,
    scenario: &Scenario,
    starts: &[OutputRef],
    mut seats: Vec<Seat<J>>,
) -> Result<Vec<Turn<'h, J>>, Memory>
    requires names { All (PlanNames (length scenario.now.contracts) (length starts.now)) scenario.now.plans }
    requires seats { length seats.items ≡ length scenario.now.plans }
    ensures plans { IfOk result (λ turns. map (λ turn. turn.party.plan) turns.items
        ≡ map (plan_on (currencies scenario.now.contracts) starts.now) scenario.now.plans) }
    ensures seats { IfOk result (λ turns. map (λ turn. turn.place.seat) turns.items ≡ seats.items) }
{
    let contracts = scenario.contracts.as_slice();
    let plans = scenario.plans.as_slice();
    let mut turns = Vec::new(alloc);
    for plan in plans {
        let plan = plan_on(alloc, contracts, starts, plan)?;
        let seat = take_first(&mut seats);
        turns.push(Turn {
            party: Party { plan },
            place: SeatAtHub { hub, seat },
        })?;
    }
    Ok(turns)
}

// Takes the first item out.
pub(crate) fn take_first<T>(items: &mut Vec<T>) -> T
    requires { 0 < length items.old.items }
    ensures { items.old.items ≡ result ∷ items.new.items }
{
    items.remove(0)
}

// Plays one party's plan.
fn played<R: Threads + Wait + Sync, J: Session, W: Watch>(
    rt: &R,
    alloc: Global,
    watch: &W,
    turn: Turn<'_, J>,
) -> Ended<J>
    ensures { HasEnded turn.entry.party.plan turn.entry.place.seat result.0 result.1 }
{
    let Turn { party, place } = turn;
    let SeatAtHub { hub, mut seat } = place;
    match party.run_watched(rt, alloc, hub, &mut seat, watch) {
        Ok((_, left)) => (seat, Ok(left)),
        Err(refused) => (seat, Err(refused)),
    }
}

// All parties at once, each in a thread of its own where one can be made, and else on the caller's: the seats in the order
// of the turns.
fn at_once<R: Threads + Wait + Sync, J: Session + Send + Sync, W: Watch + Sync>(
    rt: &R,
    alloc: Global,
    watch: &W,
    turns: Vec<Turn<'_, J>>,
) -> Result<Vec<Ended<J>>, Memory>
    ensures { IfOk result (λ ended.
        AllZip (λ turn end. HasEnded turn.party.plan turn.place.seat end.0 end.1) turns.entry.items ended.items) }
{
    thread::map_vec(
        rt,
        turns,
        &|turn: Turn<'_, J>| -> Ended<J>
            ensures { HasEnded turn.entry.party.plan turn.entry.place.seat result.0 result.1 }
        { played(rt, alloc, watch, turn) },
    )
}

// All parties on the caller's thread, one after another.
fn in_turn<R: Threads + Wait + Sync, J: Session, W: Watch>(
    rt: &R,
    alloc: Global,
    watch: &W,
    turns: Vec<Turn<'_, J>>,
) -> Result<Vec<Ended<J>>, Memory>
    ensures { IfOk result (λ ended.
        AllZip (λ turn end. HasEnded turn.party.plan turn.place.seat end.0 end.1) turns.entry.items ended.items) }
{
    let mut ended = Vec::new(alloc);
    for turn in turns {
        ended.push(played(rt, alloc, watch, turn))?;
    }
    Ok(ended)
}

// All parties, one after another or at once.
pub(crate) fn play_turns<R: Threads + Wait + Sync, J: Session + Send + Sync, W: Watch + Sync>(
    rt: &R,
    alloc: Global,
    watch: &W,
    turns: Vec<Turn<'_, J>>,
    one: bool,
) -> Result<Vec<Ended<J>>, Memory>
    ensures { IfOk result (λ ended.
        AllZip (λ turn end. HasEnded turn.party.plan turn.place.seat end.0 end.1) turns.entry.items ended.items) }
{
    if one {
        in_turn(rt, alloc, watch, turns)
    } else {
        at_once(rt, alloc, watch, turns)
    }
}

// The seats behind a first one, and what the parties left out, unless one was refused memory.
pub(crate) fn seats_of<J: Session>(
    alloc: Global,
    first: Seat<J>,
    ended: Vec<Ended<J>>,
) -> Result<(Vec<Seat<J>>, Vec<Vec<LeftOut>>), Memory>
    ensures seats { IfOk result (λ r. r.0.items ≡ first ∷ map (λ end. end.0) ended.items) }
    ensures left { IfOk result (λ r. map (λ left. Ok left) r.1.items ≡ map (λ end. end.1) ended.items) }
{
    let mut seats = Vec::new(alloc);
    let mut all = Vec::new(alloc);
    seats.push(first)?;
    for (seat, left) in ended {
        all.push(left?)?;
        seats.push(seat)?;
    }
    Ok((seats, all))
}
