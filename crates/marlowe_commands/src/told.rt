//! What is printed for a task, whose files are read first: the contract, the state, and then the transactions in the order of the command
//! line. Explanations name each text by its path.
ghost use Rattle.std.specs.Prelude.{IfOk};
ghost use Rattle.marlowe_commands.specs.Streams.{AreNotes, Shows, streams_of};

use crate::face::Face;
use crate::files::{Gathered, Joined, gather, scenario_joined};
use crate::noted::{
    contract_notes, noted, put, scenario_notes, state_notes, transaction_notes, transactions_notes,
};
use crate::party::{party_given, unread_party};
use crate::printed::Printed;
use crate::shown::{analysis_shown, next_shown, play_shown, run_shown, table_shown, trace_shown};
use crate::stops::{Stop, text_if, text_of, texts_of, unreadable};
use crate::texts::Texts;
use contract::Party;
use marlowe_cli::{AnalyseTask, NextTask, PlayTask, RunTask, TableTask, TraceTask};
use marlowe_play::{JsonFault, Memory, Watch};
use marlowe_run::Readable;
use scenario_files::{FileName, files_of};
use serve::{Source, Sources, Telling};
use std::alloc::Global;
use std::sync::Wait;
use std::thread::Threads;

// A text and its path.
fn source<'a>(path: &'a str, text: &'a Vec<u8>) -> Source<'a> {
    Source {
        path,
        text: text.as_slice(),
    }
}

// .. if there is one.
fn source_if<'a>(path: Option<&'a str>, text: &'a Option<Vec<u8>>) -> Option<Source<'a>> {
    match (path, text) {
        (Some(path), Some(text)) => Some(source(path, text)),
        _ => None,
    }
}

// Whether there are notes on what is printed: they are asked for, and all texts are read.
fn has_notes(explain: bool, printed: &Printed) -> bool {
    explain && !printed.unread
}

// The notes on what a transaction is about.
fn run_notes(
    alloc: Global,
    contract: Source<'_>,
    state: Source<'_>,
    transaction: Source<'_>,
    readable: Readable,
) -> Vec<u8>
    ensures { AreNotes result.items }
{
    let mut notes = contract_notes(alloc, contract, readable.depth);
    put(
        &mut notes,
        &state_notes(alloc, Some(state), readable.text_numbers),
    );
    put(&mut notes, &transaction_notes(alloc, transaction));
    notes
}

// The notes on what many transactions are about.
fn trace_notes(
    alloc: Global,
    contract: Source<'_>,
    state: Option<Source<'_>>,
    transactions: Sources<'_>,
    readable: Readable,
) -> Vec<u8>
    ensures { AreNotes result.items }
{
    let mut notes = analysis_notes(alloc, contract, state, readable);
    put(&mut notes, &transactions_notes(alloc, transactions));
    notes
}

// The notes on what an analysis is about.
fn analysis_notes(
    alloc: Global,
    contract: Source<'_>,
    state: Option<Source<'_>>,
    readable: Readable,
) -> Vec<u8>
    ensures { AreNotes result.items }
{
    let mut notes = contract_notes(alloc, contract, readable.depth);
    put(
        &mut notes,
        &state_notes(alloc, state, readable.text_numbers),
    );
    notes
}

// What is printed for one transaction.
fn ran(
    alloc: Global,
    contract: Source<'_>,
    state: Source<'_>,
    transaction: Source<'_>,
    readable: Readable,
    big: bool,
    face: Face,
) -> Result<Printed, Memory>
    ensures { IfOk result (λ printed. Shows face ⊥ ⊥ (streams_of printed)) }
{
    let printed = run_shown(alloc, contract, state, transaction, readable, big, face)?;
    Ok(printed)
}

pub fn run_told<'a, T: Texts>(
    alloc: Global,
    texts: &T,
    task: RunTask<'a>,
    face: Face,
) -> Result<Printed, Stop<'a>>
    ensures { IfOk result (λ printed. Shows face ⊥ ⊥ (streams_of printed)) }
{
    let contract = text_of(alloc, texts, task.contract)?;
    let state = text_of(alloc, texts, task.state)?;
    let transaction = text_of(alloc, texts, task.transaction)?;
    let readable = Readable {
        depth: task.depth,
        text_numbers: task.text_numbers,
    };
    let contract = source(task.contract, &contract);
    let state = source(task.state, &state);
    let transaction = source(task.transaction, &transaction);
    let big = task.big_as_text;
    let printed = ran(alloc, contract, state, transaction, readable, big, face)?;
    if !has_notes(task.explain, &printed) {
        return Ok(printed);
    }
    let notes = run_notes(alloc, contract, state, transaction, readable);
    Ok(noted(face, printed, &notes))
}

// What is printed for transactions one after another.
fn traced(
    alloc: Global,
    contract: Source<'_>,
    state: Option<Source<'_>>,
    transactions: Sources<'_>,
    asked: serve::Asked,
    big: bool,
    face: Face,
) -> Result<Printed, Memory>
    ensures { IfOk result (λ printed. Shows face ⊥ (Unit {0}) (streams_of printed)) }
{
    let printed = trace_shown(alloc, contract, state, transactions, asked, big, face)?;
    Ok(printed)
}

pub fn trace_told<'a, T: Texts>(
    alloc: Global,
    texts: &T,
    task: TraceTask<'a>,
    face: Face,
) -> Result<Printed, Stop<'a>>
    ensures { IfOk result (λ printed. Shows face ⊥ (Unit {0}) (streams_of printed)) }
{
    let contract = text_of(alloc, texts, task.contract)?;
    let state = text_if(alloc, texts, task.state)?;
    let transactions = texts_of(alloc, texts, task.transactions.as_slice())?;
    let readable = Readable {
        depth: task.depth,
        text_numbers: task.text_numbers,
    };
    let asked = serve::Asked {
        readable,
        last: task.last,
    };
    let contract = source(task.contract, &contract);
    let state = source_if(task.state, &state);
    let transactions = Sources {
        paths: task.transactions.as_slice(),
        texts: transactions.as_slice(),
    };
    let big = task.big_as_text;
    let printed = traced(alloc, contract, state, transactions, asked, big, face)?;
    if !has_notes(task.explain, &printed) {
        return Ok(printed);
    }
    let notes = trace_notes(alloc, contract, state, transactions, readable);
    Ok(noted(face, printed, &notes))
}

// What is printed for what can be done next.
#[tactic(auto, using(crate::proofs::ShownLemmas::next_shows))]
fn offered(
    alloc: Global,
    contract: Source<'_>,
    state: Option<Source<'_>>,
    after: Sources<'_>,
    asked: marlowe_next::Asked,
    face: Face,
) -> Result<Printed, Memory>
    ensures { IfOk result (λ printed. Shows face ⊥ ⊥ (streams_of printed)) }
{
    next_shown(alloc, contract, state, after, asked, face)
}

pub fn next_told<'a, T: Texts>(
    alloc: Global,
    texts: &T,
    task: NextTask<'a>,
    face: Face,
) -> Result<Printed, Stop<'a>>
    ensures { IfOk result (λ printed. Shows face ⊥ ⊥ (streams_of printed)) }
{
    let contract = text_of(alloc, texts, task.contract)?;
    let state = text_if(alloc, texts, task.state)?;
    let after = texts_of(alloc, texts, task.after.as_slice())?;
    let readable = Readable {
        depth: task.depth,
        text_numbers: task.text_numbers,
    };
    let asked = marlowe_next::Asked {
        from: task.from,
        to: task.to,
        readable,
        json: task.json,
    };
    let contract = source(task.contract, &contract);
    let state = source_if(task.state, &state);
    let after = Sources {
        paths: task.after.as_slice(),
        texts: after.as_slice(),
    };
    let printed = offered(alloc, contract, state, after, asked, face)?;
    if !has_notes(task.explain, &printed) {
        return Ok(printed);
    }
    let notes = trace_notes(alloc, contract, state, after, readable);
    Ok(noted(face, printed, &notes))
}

// What is printed for the table of a contract.
fn tabled(alloc: Global, contract: Source<'_>, depth: usize, face: Face) -> Result<Printed, Memory>
    ensures { IfOk result (λ printed. Shows face ⊥ ⊥ (streams_of printed)) }
{
    let printed = table_shown(alloc, contract, depth, face)?;
    Ok(printed)
}

pub fn table_told<'a, T: Texts>(
    alloc: Global,
    texts: &T,
    task: TableTask<'a>,
    face: Face,
) -> Result<Printed, Stop<'a>>
    ensures { IfOk result (λ printed. Shows face ⊥ ⊥ (streams_of printed)) }
{
    let contract = text_of(alloc, texts, task.contract)?;
    let contract = source(task.contract, &contract);
    let printed = tabled(alloc, contract, task.depth, face)?;
    if !has_notes(task.explain, &printed) {
        return Ok(printed);
    }
    let notes = contract_notes(alloc, contract, task.depth);
    Ok(noted(face, printed, &notes))
}

// What is printed for the analysis of a contract.
#[tactic(auto, using(crate::proofs::ShownLemmas::analysis_shows))]
fn analysed(
    alloc: Global,
    contract: Source<'_>,
    state: Option<Source<'_>>,
    readable: Readable,
    telling: Telling,
    strict: bool,
    party: &Option<Party>,
    face: Face,
) -> Result<Printed, Memory>
    ensures { IfOk result (λ printed. Shows face (Unit {0}) ⊥ (streams_of printed)) }
{
    analysis_shown(
        alloc, contract, state, readable, telling, strict, party, face,
    )
}

pub fn analysis_told<'a, T: Texts>(
    alloc: Global,
    texts: &T,
    task: AnalyseTask<'a>,
    face: Face,
) -> Result<Printed, Stop<'a>>
    ensures { IfOk result (λ printed. Shows face (Unit {0}) ⊥ (streams_of printed)) }
{
    let contract = text_of(alloc, texts, task.contract)?;
    let state = text_if(alloc, texts, task.state)?;
    let party = match party_given(alloc, task.party) {
        Ok(party) => party,
        Err(JsonFault::Memory) => return Err(Stop::Memory),
        Err(fault) => return Ok(unread_party(alloc, task.party, fault, face)?),
    };
    let telling = telling_of(&task);
    let readable = Readable {
        depth: task.depth,
        text_numbers: task.text_numbers,
    };
    let contract = source(task.contract, &contract);
    let state = source_if(task.state, &state);
    let strict = task.strict;
    let printed = analysed(
        alloc, contract, state, readable, telling, strict, &party, face,
    )?;
    if !has_notes(task.explain, &printed) {
        return Ok(printed);
    }
    let notes = analysis_notes(alloc, contract, state, readable);
    Ok(noted(face, printed, &notes))
}

// How an analysis is told, by its flags.
fn telling_of(task: &AnalyseTask<'_>) -> Telling {
    Telling {
        tools: task.json,
        runs: !task.no_runs,
        all: task.all,
        notes: task.notes,
    }
}

// What a play tells, by its flags.
fn play_face(json: bool, explain: bool) -> marlowe_play::Face {
    match (json, explain) {
        (true, _) => marlowe_play::Face::Objects,
        (false, true) => marlowe_play::Face::Explained,
        (false, false) => marlowe_play::Face::Plain,
    }
}

// What is printed for a play of this scenario.
#[tactic(auto, using(crate::proofs::ShownLemmas::play_shows))]
fn played<R: AllocGlobal + Threads + Wait + Sync, W: Watch + Sync>(
    rt: &R,
    watch: &W,
    scenario: Source<'_>,
    task: &PlayTask<'_>,
    face: Face,
) -> Result<Printed, Memory>
    ensures { IfOk result (λ printed. Shows face (Unit {0}) ⊥ (streams_of printed)) }
{
    let asked = marlowe_play::Asked {
        one: task.one,
        face: play_face(task.json, task.explain),
        depth: task.depth,
        strict: task.strict,
        kept_open: task.kept_open.as_slice(),
    };
    let big = task.json && task.big_as_text;
    play_shown(rt, watch, scenario, asked, big, face)
}

// .. with notes on its text.
fn play_noted<R: AllocGlobal + Threads + Wait + Sync, W: Watch + Sync>(
    rt: &R,
    watch: &W,
    scenario: Source<'_>,
    task: &PlayTask<'_>,
    face: Face,
) -> Result<Printed, Memory>
    ensures { IfOk result (λ printed. Shows face (Unit {0}) ⊥ (streams_of printed)) }
{
    let printed = played(rt, watch, scenario, task, face)?;
    if !has_notes(face == Face::Explained, &printed) {
        return Ok(printed);
    }
    let notes = scenario_notes(rt.alloc(), scenario, task.depth);
    Ok(noted(face, printed, &notes))
}

// .. with its files, each beside its text.
fn play_joined<R: AllocGlobal + Threads + Wait + Sync, W: Watch + Sync>(
    rt: &R,
    watch: &W,
    scenario: Source<'_>,
    files: &[FileName],
    texts: &[Vec<u8>],
    task: &PlayTask<'_>,
    face: Face,
) -> Result<Printed, Memory>
    ensures { IfOk result (λ printed. Shows face (Unit {0}) ⊥ (streams_of printed)) }
{
    match scenario_joined(rt.alloc(), scenario, task.depth, files, texts, face)? {
        Joined::Text(whole) => play_noted(rt, watch, source(scenario.path, &whole), task, face),
        Joined::Refused(printed) => Ok(printed),
    }
}

// .. whose contracts may be files, where that is asked.
#[tactic(auto, using(crate::proofs::ShownLemmas::widened_from_none))]
fn play_filed<T: Texts, R: AllocGlobal + Threads + Wait + Sync, W: Watch + Sync>(
    rt: &R,
    texts: &T,
    watch: &W,
    scenario: Source<'_>,
    task: &PlayTask<'_>,
    face: Face,
) -> Result<Printed, Memory>
    ensures { IfOk result (λ printed. Shows face (Unit {0}) ⊥ (streams_of printed)) }
{
    let files = files_if(rt.alloc(), task.files, scenario.text, task.depth)?;
    if files.is_empty() {
        return play_noted(rt, watch, scenario, task, face);
    }
    match gather(rt.alloc(), texts, scenario.path, files.as_slice())? {
        Gathered::Texts(found) => play_joined(
            rt,
            watch,
            scenario,
            files.as_slice(),
            found.as_slice(),
            task,
            face,
        ),
        Gathered::Unreadable(path) => unreadable(rt.alloc(), path.as_str(), face),
    }
}

// The contracts that are given as files, where they may be.
fn files_if(
    alloc: Global,
    wanted: bool,
    scenario: &[u8],
    depth: usize,
) -> Result<Vec<FileName>, Memory> {
    if wanted {
        files_of(alloc, scenario, depth)
    } else {
        Ok(Vec::new(alloc))
    }
}

pub fn play_told<'a, T: Texts, R: AllocGlobal + Threads + Wait + Sync, W: Watch + Sync>(
    rt: &R,
    texts: &T,
    watch: &W,
    task: PlayTask<'a>,
    face: Face,
) -> Result<Printed, Stop<'a>>
    ensures { IfOk result (λ printed. Shows face (Unit {0}) ⊥ (streams_of printed)) }
{
    let scenario = text_of(rt.alloc(), texts, task.scenario)?;
    let scenario = source(task.scenario, &scenario);
    let printed = play_filed(rt, texts, watch, scenario, &task, face)?;
    Ok(printed)
}
