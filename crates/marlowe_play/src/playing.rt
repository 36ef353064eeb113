//! A scenario, from text to text.
ghost use Rattle.std.specs.Prelude.{◌≡◌, ◌+◌, false, length, map, IfErr, IfOk};
ghost use Rattle.parties.specs.Hub.Seats.{AreNumbered, answered};
ghost use Rattle.json_read_names.specs.ReadsText.{of_text, of_text_within};
ghost use Rattle.play_setup.specs.JsonReadScenarios.Named.{NamesWhatItHas};
ghost use Rattle.play_setup.specs.JsonReadScenarios.ReadsScenario as reads;
ghost use Rattle.marlowe_play.specs.Faults.{IsOfText, IsRefused};
ghost use Rattle.marlowe_play.specs.Played.{IsAnswered, IsPlayed, TellsAPlay, face_of, wanted};
ghost use Rattle.marlowe_play.specs.PlayedSupport.{WerePlayed};
ghost use Rattle.play_setup.specs.SetUp.{key_output, object_of};

use crate::asked::{Asked, Face, Played};
use crate::fault::PlayFault;
use crate::lines::played_text;
use crate::turns::{play_turns, seats_of, take_first, turns_of};
use json_tree::JsonValue;
use parties::{Hub, LeftOut, NoWatch, Opening, Seat, Session, Watch};
use play_endings::Scenario;
use play_setup::{
    Stage, first_chain, read_scenario, read_scenario_within, scenario_from_json, set_up,
};
use std::alloc::Global;
use std::marker::Brand;
use std::sync::Wait;
use std::thread::Threads;

/// How a scenario is played, and what is told of it.
#[derive(Clone, Copy, Debug)]
pub struct How {
    /// The plans are played one after another, and else all at once.
    pub one: bool,
    /// Behind entries stands what steps did and why something was refused or wasn't built, and behind the lines how intents ended and who
    /// holds what.
    pub explain: bool,
}

impl How {
    // What is told.
    fn face(&self) -> Face
        ensures { result ≡ face_of self.now.explain }
    {
        if self.explain {
            Face::Explained
        } else {
            Face::Plain
        }
    }
}

/// Plays the scenario of a JSON text of at most 1,048,576 bytes, and gives the lines that tell what happened, each with a
/// line feed: one for each entry of the history, one for each thread, and last the number of entries.
///
/// The setup comes first. Then each plan is played by a party with a seat of its own: `one` after another on the caller's
/// thread, so that the text is always the same; or at once, each in a thread of its own where one can be made.
///
/// Refused is a text that is no scenario, and a scenario whose setup has a fault; else only a growth that was refused gives
/// `Memory`. Whatever the parties are told is no fault. The lines are those of a legal history, which begins with the
/// scenario's outputs at its tick: it has the calls of the setup, in order, and calls of each plan (`specs/Played.antt`).
pub fn play<R: Threads + Wait + Sync>(
    rt: &R,
    alloc: Global,
    text: &[u8],
    one: bool,
) -> Result<Vec<u8>, PlayFault>
    ensures unread { IsRefused (of_text reads.scenario text.now) result }
    ensures played { IfOk result (λ lines. IsPlayed (of_text reads.scenario text.now) false lines.items) }
{
    let how = How {
        one,
        explain: false,
    };
    play_watched(rt, alloc, text, how, &NoWatch)
}

/// The same, while somebody is told how far it is. Where it is to `explain`, lines of four blanks and a text stand behind entries: what
/// the steps did that it accepted, why something was refused, and behind a look on which nothing was built, what hindered the intent.
/// Behind the number of entries each intent of each plan has a line that says how it ended. And lines behind all others say who holds what
/// at the end, token by token: each address, each payout that nobody has claimed, and the contract of each thread. Together that is what
/// the ledger began with.
pub fn play_watched<R: Threads + Wait + Sync, W: Watch + Sync>(
    rt: &R,
    alloc: Global,
    text: &[u8],
    how: How,
    watch: &W,
) -> Result<Vec<u8>, PlayFault>
    ensures unread { IsRefused (of_text reads.scenario text.now) result }
    ensures played { IfOk result (λ lines. IsPlayed (of_text reads.scenario text.now) how.explain lines.items) }
{
    let scenario = match read_scenario(alloc, text) {
        Ok(scenario) => scenario,
        Err(fault) => return Err(PlayFault::of_scenario(fault)),
    };
    let asked = Asked {
        one: how.one,
        face: how.face(),
        depth: 127,
        strict: false,
        kept_open: &[],
    };
    let played = play_scenario(rt, alloc, &scenario, asked, watch)?;
    Ok(played.text)
}

/// The same with all that can be asked of a play: a scenario whose text nests no deeper than `depth`, where `play_watched` has 127; and
/// whether all went well, if it is to be `strict`.
pub fn play_asked<R: Threads + Wait + Sync, W: Watch + Sync>(
    rt: &R,
    alloc: Global,
    text: &[u8],
    asked: Asked<'_>,
    watch: &W,
) -> Result<Played, PlayFault>
    ensures unread { IsRefused (of_text_within asked.entry.depth reads.scenario text.now) result }
    ensures played { IfOk result (λ p. IsAnswered (of_text_within asked.entry.depth reads.scenario text.now)
        (wanted asked.entry.face asked.entry.strict (map (λ s. s.now) asked.entry.kept_open.now)) p.text.items p.well) }
{
    let scenario = match read_scenario_within(alloc, text, asked.depth) {
        Ok(scenario) => scenario,
        Err(fault) => return Err(PlayFault::of_scenario(fault)),
    };
    play_scenario(rt, alloc, &scenario, asked, watch)
}

/// The same for a scenario that stands in a JSON value. How deep that may nest is asked where it is read, so here `depth` asks nothing.
pub fn play_value<R: Threads + Wait + Sync, W: Watch + Sync, J: JsonValue>(
    rt: &R,
    alloc: Global,
    json: &J,
    asked: Asked<'_>,
    watch: &W,
) -> Result<Played, PlayFault>
    ensures unread { IsRefused (reads.scenario (J.json json.now)) result }
    ensures played { IfOk result (λ p. IsAnswered (reads.scenario (J.json json.now))
        (wanted asked.entry.face asked.entry.strict (map (λ s. s.now) asked.entry.kept_open.now)) p.text.items p.well) }
{
    let scenario = match scenario_from_json(alloc, json) {
        Ok(scenario) => scenario,
        Err(fault) => return Err(PlayFault::of_scenario(fault)),
    };
    play_scenario(rt, alloc, &scenario, asked, watch)
}

// Plays a scenario that was read.
fn play_scenario<R: Threads + Wait + Sync, W: Watch + Sync>(
    rt: &R,
    alloc: Global,
    scenario: &Scenario,
    asked: Asked<'_>,
    watch: &W,
) -> Result<Played, PlayFault>
    requires names { NamesWhatItHas scenario.now }
    ensures told { IfErr result (λ fault. IsOfText fault → ⊥) }
    ensures played { IfOk result (λ p. TellsAPlay scenario.now
        (wanted asked.entry.face asked.entry.strict (map (λ s. s.now) asked.entry.kept_open.now)) p.text.items p.well) }
{
    let chain = first_chain(alloc, scenario.genesis.as_slice(), scenario.tick)?;
    let opening = Opening::new(chain, scenario.plans.len() as u64 + 1);
    play_on::<R, Brand, W>(rt, alloc, opening, scenario, asked, watch)
}

// Plays a scenario on its ledger, which has begun.
fn play_on<R: Threads + Wait + Sync, J: Session + Send + Sync, W: Watch + Sync>(
    rt: &R,
    alloc: Global,
    opening: Opening,
    scenario: &Scenario,
    asked: Asked<'_>,
    watch: &W,
) -> Result<Played, PlayFault>
    requires session { opening ≡ J.session }
    requires genesis { opening.genesis ≡ map key_output scenario.now.genesis }
    requires tick { opening.first_tick ≡ scenario.now.tick }
    requires seats { opening.seats ≡ length scenario.now.plans + 1 }
    requires names { NamesWhatItHas scenario.now }
    ensures told { IfErr result (λ fault. IsOfText fault → ⊥) }
    ensures played { IfOk result (λ p. TellsAPlay scenario.now
        (wanted asked.entry.face asked.entry.strict (map (λ s. s.now) asked.entry.kept_open.now)) p.text.items p.well) }
{
    let (hub, seats) = opening.open::<J>(alloc)?;
    let (stage, seats, left) = play_all(rt, alloc, &hub, seats, scenario, asked.one, watch)?;
    let closed = hub.close(seats);
    let played = played_text(alloc, closed.chain(), scenario, &stage, &left, asked)?;
    Ok(played)
}

// Sets the scenario up by the first seat, and has each plan played by a party with one of the others: what was set up, all
// seats, in order, and what each plan left out.
fn play_all<R: Threads + Wait + Sync, J: Session + Send + Sync, W: Watch + Sync>(
    rt: &R,
    alloc: Global,
    hub: &Hub<J>,
    mut seats: Vec<Seat<J>>,
    scenario: &Scenario,
    one: bool,
    watch: &W,
) -> Result<(Stage, Vec<Seat<J>>, Vec<Vec<LeftOut>>), PlayFault>
    requires names { NamesWhatItHas scenario.now }
    requires seats { length seats.items ≡ length scenario.now.plans + 1 }
    requires numbers { AreNumbered 0 seats.items }
    requires answers { answered seats.items ≡ 0 }
    ensures told { IfErr result (λ fault. IsOfText fault → ⊥) }
    ensures contracts { IfOk result (λ r. r.0.contracts.items ≡ map object_of scenario.now.contracts) }
    ensures seats { IfOk result (λ r. WerePlayed scenario.now r.0.starts.items r.1.items (map (λ l. l.items) r.2.items)) }
{
    let mut first = take_first(&mut seats);
    let stage = set_up(rt, alloc, hub, &mut first, watch, scenario)?;
    let turns = turns_of(alloc, hub, scenario, &stage.starts, seats)?;
    let ended = play_turns(rt, alloc, watch, turns, one)?;
    let (seats, left) = seats_of(alloc, first, ended)?;
    Ok((stage, seats, left))
}
