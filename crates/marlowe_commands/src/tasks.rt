//! What each task says, from texts.
ghost use Rattle.std.specs.Prelude.{◌≡◌, ◌⊎◌, [], Ok, IfOk, map, option_map};
ghost use Rattle.marlowe_run.specs.Run.{run_within};
ghost use Rattle.marlowe_run.specs.TableText.{table_text_within};
ghost use Rattle.serve.specs.MarloweTrace.Traced.{trace_text};
ghost use Rattle.serve.specs.MarloweNext.Question.{reached};
ghost use Rattle.marlowe_play.specs.JsonReadNames.ReadsText.{of_text_within};
ghost use Rattle.marlowe_play.specs.JsonReadScenarios.ReadsScenario as reads;
ghost use Rattle.marlowe_play.specs.Played.{wanted};
ghost use Rattle.marlowe_commands.specs.Streams.{refusal_of, refuses, saying_of, says};
ghost use Rattle.marlowe_commands.specs.Tasks.{SaysAnalysis, SaysNext, SaysPlay, analysis_status, outcomes, play_members, play_refusal, play_status, run_said, table_answer, table_said, trace_said, well_status};

use crate::face::Face;
use crate::said::{Refusal, Said};
use big_texts::big_as_text;
use contract::Party;
use marlowe_play::{
    Fault, Memory, PlayFault, Played, RunFault, TableFault, TraceFault, Watch, json_fault_name,
    play_asked, play_refusal, setup_members,
};
use marlowe_run::Readable;
use serve::{
    Analysed, Telling, Traced, analyse_text, lines_object, named_members, next, run_within,
    table_text_within, trace,
};
use std::alloc::{AllocError, Global};
use std::sync::Wait;
use std::thread::Threads;

/// Outcomes, or what a play tells to tools, with their big numbers as texts where they are wanted so.
pub fn outcomes(alloc: Global, text: Vec<u8>, big: bool) -> Result<Vec<u8>, Memory>
    ensures { IfOk result (λ written. written.items ≡ outcomes big text.items) }
{
    if big {
        big_as_text(alloc, text.as_slice())
    } else {
        Ok(text)
    }
}

/// One transaction: its outcome, with status 0, or its refusal.
pub fn run_said(
    alloc: Global,
    contract: &[u8],
    state: &[u8],
    transaction: &[u8],
    readable: Readable,
    big: bool,
) -> Result<Said, Memory>
    ensures { IfOk result (λ said. saying_of said ≡ run_said big (run_within readable contract.now state.now transaction.now)) }
{
    match run_within(alloc, contract, state, transaction, readable) {
        Ok(text) => Ok(Said::Text(outcomes(alloc, text, big)?, 0)),
        Err(RunFault::Memory) => Err(AllocError),
        Err(fault) => Said::refused(alloc, Vec::new(alloc), &Fault::Run(fault)),
    }
}

/// Transactions one after another: the outcome of each, or of the last alone, with status 0. Where one is refused, those before it, or
/// nothing where the last alone is wanted, and its refusal; and only a refusal where a text isn't read.
pub fn trace_said(
    alloc: Global,
    contract: &[u8],
    state: Option<&[u8]>,
    transactions: &[Vec<u8>],
    asked: serve::Asked,
    big: bool,
) -> Result<Said, Memory>
    ensures { IfOk result (λ said. saying_of said ≡ trace_said big
        (trace_text asked contract.now (option_map (λ text. text.now) state.entry) (map (λ text. text.items) transactions.now))) }
{
    match trace(alloc, contract, state, transactions, asked) {
        Ok(Traced { text, refused }) => outcomes_said(alloc, text, refused, big),
        Err(TraceFault::Run(RunFault::Memory)) => Err(AllocError),
        Err(fault) => Said::refused(alloc, Vec::new(alloc), &Fault::Trace(fault)),
    }
}

// Outcomes, and the refusal that ends them, if one does.
fn outcomes_said(
    alloc: Global,
    text: Vec<u8>,
    refused: Option<TraceFault>,
    big: bool,
) -> Result<Said, Memory>
    ensures { IfOk result (λ said. saying_of said ≡ trace_said big (Ok (text.items, refused))) }
{
    let text = outcomes(alloc, text, big)?;
    match refused {
        None => Ok(Said::Text(text, 0)),
        Some(fault) => Said::refused(alloc, text, &Fault::Trace(fault)),
    }
}

/// What can be done next, as lines for people or as JSON, with status 0, or a refusal.
pub fn next_said(
    alloc: Global,
    contract: &[u8],
    state: Option<&[u8]>,
    after: &[Vec<u8>],
    asked: marlowe_next::Asked,
) -> Result<Said, Memory>
    ensures { IfOk result (λ said. SaysNext asked
        (reached asked contract.now (option_map (λ text. text.now) state.entry) (map (λ text. text.items) after.now)) (saying_of said)) }
{
    match next(alloc, contract, state, after, asked) {
        Ok(text) => Ok(Said::Text(text, 0)),
        Err(TraceFault::Run(RunFault::Memory)) => Err(AllocError),
        Err(fault) => Said::refused(alloc, Vec::new(alloc), &Fault::Trace(fault)),
    }
}

/// The table of a contract: its lines, or the object of them for tools, with status 0, or a refusal.
pub fn table_said(alloc: Global, contract: &[u8], depth: usize, face: Face) -> Result<Said, Memory>
    ensures { IfOk result (λ said. saying_of said ≡ table_said face (table_text_within depth contract.now)) }
{
    match table_text_within(alloc, contract, depth) {
        Ok(text) => Ok(Said::Text(table_answer(alloc, text, face)?, 0)),
        Err(TableFault::Memory) => Err(AllocError),
        Err(fault) => Said::refused(alloc, Vec::new(alloc), &Fault::Table(fault)),
    }
}

/// The lines of a table, or the object of them for tools.
pub fn table_answer(alloc: Global, text: Vec<u8>, face: Face) -> Result<Vec<u8>, Memory>
    ensures { IfOk result (λ answer. answer.items ≡ table_answer face text.items) }
{
    match face {
        Face::Plain | Face::Explained => Ok(text),
        Face::Json => lines_object(alloc, text.as_slice()),
    }
}

/// The analysis of a contract from a state, with status 0 where the contract never warns and stays within 128 bits, and 3 where there is
/// an alarm, or with `strict` also where a part is told that no run reaches; or a refusal.
#[tactic(auto, using(crate::proofs::TaskLemmas::status_said))]
pub fn analysis_said(
    alloc: Global,
    contract: &[u8],
    state: Option<&[u8]>,
    readable: Readable,
    telling: Telling,
    strict: bool,
    party: &Option<Party>,
) -> Result<Said, Memory>
    ensures { IfOk result (λ said.
        SaysAnalysis telling strict readable contract.now (option_map (λ text. text.now) state.entry) party.now (saying_of said)) }
{
    match analyse_text(alloc, contract, state, readable, telling, party) {
        Ok(
            Analysed {
                text,
                is_clear,
                has_unreached,
                ..
            },
        ) => {
            let status = analysis_status(strict, is_clear, has_unreached);
            Ok(Said::Text(text, status))
        }
        Err(RunFault::Memory) => Err(AllocError),
        Err(fault) => Said::refused(alloc, Vec::new(alloc), &Fault::Run(fault)),
    }
}

fn analysis_status(strict: bool, clear: bool, unreached: bool) -> u8
    ensures { result ≡ analysis_status strict clear unreached }
{
    if clear && !(strict && unreached) {
        0
    } else {
        3
    }
}

/// A play, while somebody is told how far it is: what it tells, with big numbers as texts where they are wanted so, and status 0, or 3 where it is
/// asked whether all went well and not all did; or a refusal.
pub fn play_said<R: AllocGlobal + Threads + Wait + Sync, W: Watch + Sync>(
    rt: &R,
    watch: &W,
    scenario: &[u8],
    asked: marlowe_play::Asked<'_>,
    big: bool,
) -> Result<Said, Memory>
    ensures { IfOk result (λ said. SaysPlay big (of_text_within asked.entry.depth reads.scenario scenario.now)
        (wanted asked.entry.face asked.entry.strict (map (λ s. s.now) asked.entry.kept_open.now)) (saying_of said)) }
{
    let alloc = rt.alloc();
    match play_asked(rt, alloc, scenario, asked, watch) {
        Ok(played) => Ok(play_text(alloc, played, big)?),
        Err(PlayFault::Memory) => Err(AllocError),
        Err(fault) => play_refused(alloc, fault),
    }
}

fn play_text(alloc: Global, played: Played, big: bool) -> Result<Said, Memory>
    ensures { IfOk result (λ said. saying_of said ≡ says (outcomes big played.text.items) (well_status played.well)) }
{
    let status = played.status();
    Ok(Said::Text(outcomes(alloc, played.text, big)?, status))
}

fn play_refused(alloc: Global, fault: PlayFault) -> Result<Said, Memory>
    ensures { IfOk result (λ said. saying_of said ≡ refuses [] (play_refusal fault)) }
{
    let refusal = play_refusal_of(alloc, &fault)?;
    Ok(Said::Refused(Vec::new(alloc), refusal))
}

fn play_refusal_of(alloc: Global, fault: &PlayFault) -> Result<Refusal, Memory>
    ensures { IfOk result (λ refusal. refusal_of refusal ≡ play_refusal fault.now) }
{
    Ok(Refusal {
        line: play_refusal(alloc, fault)?,
        status: 1,
        members: play_members(alloc, fault)?,
        tool_status: play_status(fault),
    })
}

/// The members of the object that says why a scenario isn't played.
pub fn play_members(alloc: Global, fault: &PlayFault) -> Result<Vec<u8>, Memory>
    ensures { IfOk result (λ members. members.items ≡ play_members fault.now) }
{
    match fault {
        PlayFault::Scenario(fault) => named_members(alloc, "scenario", json_fault_name(*fault)),
        PlayFault::Setup(refusal) => setup_members(alloc, refusal),
        PlayFault::Memory => named_members(alloc, "memory", "Memory"),
    }
}

fn play_status(fault: &PlayFault) -> u8
    ensures { result ≡ play_status fault.now }
{
    match fault {
        PlayFault::Scenario(_) => 4,
        PlayFault::Setup(_) | PlayFault::Memory => 1,
    }
}
