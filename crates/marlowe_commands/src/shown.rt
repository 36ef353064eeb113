//! The tasks of the program, from texts to what is printed. Behind a refusal is told where and why, by a second look at the texts, where it
//! is to be explained: in lines for people, or in members of its object for tools. Paths are the names by which texts are told.
ghost use Rattle.std.specs.Prelude.{◌≡◌, ◌⊎◌, [], Some, IfOk, map, option_map};
ghost use Rattle.marlowe_run.specs.Run.{run_within};
ghost use Rattle.marlowe_run.specs.TableText.{table_text_within};
ghost use Rattle.marlowe_play.specs.JsonReadNames.ReadsText.{of_text_within};
ghost use Rattle.marlowe_play.specs.JsonReadScenarios.ReadsScenario as reads;
ghost use Rattle.marlowe_play.specs.Played.{wanted};
ghost use Rattle.serve.specs.MarloweTrace.Traced.{trace_text};
ghost use Rattle.serve.specs.MarloweNext.Question.{reached};
ghost use Rattle.serve.specs.RefusalReasons.Reasons.{Tells, TellsOfTable, TellsScenario};
ghost use Rattle.serve.specs.RefusalReasons.declared.source.Behind.TheVariants as behind;
ghost use Rattle.marlowe_commands.specs.Streams.{IsShown, spelling_of, streams_of};
ghost use Rattle.marlowe_commands.specs.Tasks.{SaysAnalysis, SaysNext, SaysPlay, over_of, run_said, table_said, trace_said};

use crate::face::Face;
use crate::printed::Printed;
use crate::said::Said;
use crate::tasks::{
    analysis_said, next_said, outcomes, play_said, run_said, table_answer, table_said, trace_said,
};
use contract::Party;
use marlowe_play::{Fault, Memory, Watch};
use marlowe_run::Readable;
use refusal_reasons::{Reasoned, reasons, run_reasoned, table_reasoned};
use serve::{Behind, Over, Source, Sources, Telling, scenario_reasons, text_if};
use std::alloc::Global;
use std::sync::Wait;
use std::thread::Threads;

// What is told of a refusal, if it is to be, and nothing for want of memory.
fn reasons_if(
    alloc: Global,
    wanted: bool,
    contract: Source<'_>,
    state: Option<Source<'_>>,
    readable: Readable,
    behind: Behind<'_>,
    face: Face,
) -> Vec<u8>
    ensures { (result.items ≡ []) ⊎ Tells contract.entry state.entry readable behind.entry (spelling_of face) result.items }
{
    if !wanted {
        return Vec::new(alloc);
    }
    match reasons(alloc, contract, state, readable, behind, face.spelling()) {
        Ok(told) => told,
        Err(_) => Vec::new(alloc),
    }
}

/// What is printed for one transaction: its outcome, with big numbers as texts where they are wanted so, or its refusal.
pub fn run_shown(
    alloc: Global,
    contract: Source<'_>,
    state: Source<'_>,
    transaction: Source<'_>,
    readable: Readable,
    big: bool,
    face: Face,
) -> Result<Printed, Memory>
    ensures { IfOk result (λ printed. IsShown face
        (λ said. said ≡ run_said big (run_within readable contract.entry.text.now state.entry.text.now transaction.entry.text.now))
        (Tells contract.entry (Some state.entry) readable (behind.One transaction.entry)) (streams_of printed)) }
{
    match face {
        Face::Plain => run_plain(alloc, contract, state, transaction, readable, big, face),
        Face::Explained | Face::Json => {
            run_explained(alloc, contract, state, transaction, readable, big, face)
        }
    }
}

// .. where nothing is explained.
fn run_plain(
    alloc: Global,
    contract: Source<'_>,
    state: Source<'_>,
    transaction: Source<'_>,
    readable: Readable,
    big: bool,
    face: Face,
) -> Result<Printed, Memory>
    ensures { IfOk result (λ printed. IsShown face
        (λ said. said ≡ run_said big (run_within readable contract.entry.text.now state.entry.text.now transaction.entry.text.now))
        (Tells contract.entry (Some state.entry) readable (behind.One transaction.entry)) (streams_of printed)) }
{
    let said = run_said(
        alloc,
        contract.text,
        state.text,
        transaction.text,
        readable,
        big,
    )?;
    said.shown(alloc, face, &Vec::new(alloc))
}

// .. where a refusal is explained: each text is read once.
fn run_explained(
    alloc: Global,
    contract: Source<'_>,
    state: Source<'_>,
    transaction: Source<'_>,
    readable: Readable,
    big: bool,
    face: Face,
) -> Result<Printed, Memory>
    ensures { IfOk result (λ printed. IsShown face
        (λ said. said ≡ run_said big (run_within readable contract.entry.text.now state.entry.text.now transaction.entry.text.now))
        (Tells contract.entry (Some state.entry) readable (behind.One transaction.entry)) (streams_of printed)) }
{
    let spelling = face.spelling();
    match run_reasoned(alloc, contract, state, transaction, readable, spelling)? {
        Reasoned::Answer(text) => {
            let lines = outcomes(alloc, text, big)?;
            let said = Said::Text(lines, 0);
            said.shown(alloc, face, &Vec::new(alloc))
        }
        Reasoned::Refused(fault, told) => {
            let said = Said::refused(alloc, Vec::new(alloc), &Fault::Run(fault))?;
            said.shown(alloc, face, &told)
        }
    }
}

/// What is printed for transactions one after another: the outcome of each, or of the last alone, with big numbers as texts where they are wanted
/// so, and behind them the refusal of the one that ends them, if one does.
pub fn trace_shown(
    alloc: Global,
    contract: Source<'_>,
    state: Option<Source<'_>>,
    transactions: Sources<'_>,
    asked: serve::Asked,
    big: bool,
    face: Face,
) -> Result<Printed, Memory>
    ensures { IfOk result (λ printed. IsShown face
        (λ said. said ≡ trace_said big (trace_text asked contract.entry.text.now (option_map (λ source. source.text.now) state.entry)
        (map (λ text. text.items) transactions.entry.texts.now)))
        (Tells contract.entry state.entry asked.readable (behind.Many transactions.entry)) (streams_of printed)) }
{
    let said = trace_said(
        alloc,
        contract.text,
        text_if(state),
        transactions.texts,
        asked,
        big,
    )?;
    let wanted = said.is_explained(face);
    let behind = Behind::Many(transactions);
    let told = reasons_if(alloc, wanted, contract, state, asked.readable, behind, face);
    said.shown(alloc, face, &told)
}

/// What is printed for what can be done next: the answer, or why there is none.
pub fn next_shown(
    alloc: Global,
    contract: Source<'_>,
    state: Option<Source<'_>>,
    after: Sources<'_>,
    asked: marlowe_next::Asked,
    face: Face,
) -> Result<Printed, Memory>
    ensures { IfOk result (λ printed. IsShown face
        (SaysNext asked (reached asked contract.entry.text.now (option_map (λ source. source.text.now) state.entry)
        (map (λ text. text.items) after.entry.texts.now)))
        (Tells contract.entry state.entry asked.readable (behind.Next after.entry (over_of asked))) (streams_of printed)) }
{
    let said = next_said(alloc, contract.text, text_if(state), after.texts, asked)?;
    let wanted = said.is_explained(face);
    let behind = Behind::Next(after, over_of(asked));
    let told = reasons_if(alloc, wanted, contract, state, asked.readable, behind, face);
    said.shown(alloc, face, &told)
}

fn over_of(asked: marlowe_next::Asked) -> Over
    ensures { result ≡ over_of asked }
{
    Over {
        from: asked.from,
        to: asked.to,
    }
}

/// What is printed for the table of a contract whose lists and objects may nest so deep: its lines, or why it has none.
pub fn table_shown(
    alloc: Global,
    contract: Source<'_>,
    depth: usize,
    face: Face,
) -> Result<Printed, Memory>
    ensures { IfOk result (λ printed. IsShown face (λ said. said ≡ table_said face (table_text_within depth contract.entry.text.now))
        (TellsOfTable contract.entry depth) (streams_of printed)) }
{
    match face {
        Face::Plain => table_plain(alloc, contract, depth, face),
        Face::Explained | Face::Json => table_explained(alloc, contract, depth, face),
    }
}

// .. where nothing is explained.
fn table_plain(
    alloc: Global,
    contract: Source<'_>,
    depth: usize,
    face: Face,
) -> Result<Printed, Memory>
    ensures { IfOk result (λ printed. IsShown face (λ said. said ≡ table_said face (table_text_within depth contract.entry.text.now))
        (TellsOfTable contract.entry depth) (streams_of printed)) }
{
    let said = table_said(alloc, contract.text, depth, face)?;
    said.shown(alloc, face, &Vec::new(alloc))
}

// .. where a refusal is explained: the text is read once.
fn table_explained(
    alloc: Global,
    contract: Source<'_>,
    depth: usize,
    face: Face,
) -> Result<Printed, Memory>
    ensures { IfOk result (λ printed. IsShown face (λ said. said ≡ table_said face (table_text_within depth contract.entry.text.now))
        (TellsOfTable contract.entry depth) (streams_of printed)) }
{
    match table_reasoned(alloc, contract, depth, face.spelling())? {
        Reasoned::Answer(text) => {
            let lines = table_answer(alloc, text, face)?;
            let said = Said::Text(lines, 0);
            said.shown(alloc, face, &Vec::new(alloc))
        }
        Reasoned::Refused(fault, told) => {
            let said = Said::refused(alloc, Vec::new(alloc), &Fault::Table(fault))?;
            said.shown(alloc, face, &told)
        }
    }
}

/// What is printed for the analysis of a contract from a state: the analysis, or why one of the texts isn't read.
pub fn analysis_shown(
    alloc: Global,
    contract: Source<'_>,
    state: Option<Source<'_>>,
    readable: Readable,
    telling: Telling,
    strict: bool,
    party: &Option<Party>,
    face: Face,
) -> Result<Printed, Memory>
    ensures { IfOk result (λ printed. IsShown face
        (SaysAnalysis telling strict readable contract.entry.text.now (option_map (λ source. source.text.now) state.entry) party.now)
        (Tells contract.entry state.entry readable behind.Nothing) (streams_of printed)) }
{
    let said = analysis_said(
        alloc,
        contract.text,
        text_if(state),
        readable,
        telling,
        strict,
        party,
    )?;
    let wanted = said.is_explained(face);
    let told = reasons_if(
        alloc,
        wanted,
        contract,
        state,
        readable,
        Behind::Nothing,
        face,
    );
    said.shown(alloc, face, &told)
}

/// What is printed for a play: what it tells, with big numbers as texts where they are wanted so, or why the scenario isn't played.
pub fn play_shown<R: AllocGlobal + Threads + Wait + Sync, W: Watch + Sync>(
    rt: &R,
    watch: &W,
    scenario: Source<'_>,
    asked: marlowe_play::Asked<'_>,
    big: bool,
    face: Face,
) -> Result<Printed, Memory>
    ensures { IfOk result (λ printed. IsShown face
        (SaysPlay big (of_text_within asked.entry.depth reads.scenario scenario.entry.text.now) (wanted asked.entry.face asked.entry.strict (map (λ s. s.now) asked.entry.kept_open.now)))
        (λ spelling. TellsScenario asked.entry.depth spelling scenario.entry) (streams_of printed)) }
{
    let alloc = rt.alloc();
    let said = play_said(rt, watch, scenario.text, asked, big)?;
    let told = scenario_if(alloc, said.is_explained(face), scenario, asked.depth, face);
    said.shown(alloc, face, &told)
}

fn scenario_if(
    alloc: Global,
    wanted: bool,
    scenario: Source<'_>,
    depth: usize,
    face: Face,
) -> Vec<u8>
    ensures { (result.items ≡ []) ⊎ TellsScenario depth (spelling_of face) scenario.entry result.items }
{
    if !wanted {
        return Vec::new(alloc);
    }
    match scenario_reasons(alloc, scenario, depth, face.spelling()) {
        Ok(told) => told,
        Err(_) => Vec::new(alloc),
    }
}
