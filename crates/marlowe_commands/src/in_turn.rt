//! The scenarios of requests, played one plan after another.
ghost use Rattle.std.specs.Prelude.{◌≡◌, [], Ok, Err, IfOk, option_map};
ghost use Rattle.std.specs.Thread.{IsSync};
ghost use Rattle.json_tree.specs.View.{view};
ghost use Rattle.serve.specs.Playing.{answer_seen};
ghost use Rattle.marlowe_commands.specs.Serving.{MayExplain, TellsAt, TellsOfValue, TellsPlay};
ghost use Rattle.marlowe_commands.specs.Tasks.{play_members};

use crate::tasks::play_members;
use json_tree::{Json, JsonValue};
use marlowe_play::{Asked, Face, JsonFault, Memory, NoWatch, PlayFault, Played, play_value};
use serve::{PlayAnswer, Player, scenario_told};
use std::alloc::{AllocError, Global};
use std::sync::Wait;
use std::thread::Threads;

// Plays the scenario at the key `scenario` on the caller's thread, one plan after another.
#[derive(Drop)]
pub(crate) struct InTurn<'r, R: Threads + Wait + Sync> {
    pub(crate) rt: &'r R,
}

impl<R: Threads + Wait + Sync> Player for InTurn<'_, R> {
    // that threads may share the runtime: a method of a trait isn't told that of its parameters
    ghost may = { λ _. IsSync R.row };

    ghost tells = { TellsPlay };

    fn play(&self, alloc: Global, body: &Json<'_>) -> Result<PlayAnswer, Memory> {
        played_at(self.rt, alloc, body.member("scenario"))
    }
}

// What is told of what stands at the key, or of nothing.
fn played_at<R: Threads + Wait + Sync>(
    rt: &R,
    alloc: Global,
    scenario: Option<&Json<'_>>,
) -> Result<PlayAnswer, Memory>
    ensures { IfOk result (λ answer. TellsAt (option_map (λ json. view json.now) scenario.entry) (answer_seen answer)) }
{
    match scenario {
        Some(json) => played_value(rt, alloc, json),
        None => {
            let fault = PlayFault::Scenario(JsonFault::NoForm);
            refused(alloc, &fault, Vec::new(alloc))
        }
    }
}

// What is told of a scenario as JSON.
fn played_value<R: Threads + Wait + Sync>(
    rt: &R,
    alloc: Global,
    json: &Json<'_>,
) -> Result<PlayAnswer, Memory>
    ensures { IfOk result (λ answer. TellsOfValue (view json.now) (answer_seen answer)) }
{
    // how deep it nests was asked of its line
    let asked = Asked {
        one: true,
        face: Face::Objects,
        depth: 127,
        strict: false,
        kept_open: &[],
    };
    match play_value(rt, alloc, json, asked, &NoWatch) {
        Ok(played) => Ok(told_of(played)),
        Err(PlayFault::Memory) => Err(AllocError),
        Err(fault) => {
            let told = why(alloc, &fault, json);
            refused(alloc, &fault, told)
        }
    }
}

// Why it isn't read, if it isn't: nothing for want of memory.
fn why(alloc: Global, fault: &PlayFault, json: &Json<'_>) -> Vec<u8>
    ensures { MayExplain (view json.now) result.items }
{
    match fault {
        PlayFault::Scenario(_) => told_or_nothing(alloc, json),
        PlayFault::Setup(_) | PlayFault::Memory => Vec::new(alloc),
    }
}

fn told_or_nothing(alloc: Global, json: &Json<'_>) -> Vec<u8>
    ensures { MayExplain (view json.now) result.items }
{
    match scenario_told(alloc, json) {
        Ok(told) => told,
        Err(_) => Vec::new(alloc),
    }
}

// The lines that tell of a play.
fn told_of(played: Played) -> PlayAnswer
    ensures { answer_seen result ≡ Ok played.text.items }
{
    let Played { text, .. } = played;
    PlayAnswer::Told(text)
}

// Why it isn't played, and what explains that.
fn refused(alloc: Global, fault: &PlayFault, told: Vec<u8>) -> Result<PlayAnswer, Memory>
    ensures { IfOk result (λ answer. answer_seen answer ≡ Err (play_members fault.now, told.items)) }
{
    let members = play_members(alloc, fault)?;
    Ok(PlayAnswer::Refused(members, told))
}
