//! What command lines ask for.
use marlowe_cli::{
    AnalyseTask, NextTask, PlayTask, RunTask, ServeTask, TableTask, Task, TraceTask, line,
};
use std::alloc::{AllocError, Global};

/// What a command line asks for, or where the text of `clap` goes.
pub fn line_row(alloc: Global, text: &str) -> Result<Vec<u8>, AllocError> {
    let words = text
        .split_whitespace()
        .map(|word| String::from_str(alloc, word));
    let words: Vec<String> = words.try_collect(alloc)?;
    match line(alloc, words.as_slice()) {
        Ok(task) => Ok(task_told(alloc, &task)?.into_bytes()),
        Err(error) if error.use_stderr() => Vec::from_slice(alloc, b"on standard error"),
        Err(_) => Vec::from_slice(alloc, b"on standard output"),
    }
}

fn task_told(alloc: Global, task: &Task<'_>) -> Result<String, AllocError> {
    match task {
        Task::Run(run) => run_told(alloc, run),
        Task::Trace(trace) => trace_told(alloc, trace),
        Task::Next(next) => next_told(alloc, next),
        Task::Table(table) => table_told(alloc, table),
        Task::Analyse(analyse) => analysis_told(alloc, analyse),
        Task::Play(play) => play_told(alloc, play),
        Task::Serve(serve) => serve_told(alloc, serve),
    }
}

fn run_told(alloc: Global, run: &RunTask<'_>) -> Result<String, AllocError> {
    let texts = texts_told(run.text_numbers);
    let big = big_told(run.big_as_text);
    let explained = explain_told(run.explain);
    format!(in alloc;
        "run {} {} {}{texts}{big}{explained}",
        run.contract, run.state, run.transaction
    )
}

fn trace_told(alloc: Global, trace: &TraceTask<'_>) -> Result<String, AllocError> {
    let state = state_told(trace.state);
    let mut told = format!(in alloc; "trace {} {state} by", trace.contract)?;
    put_paths(&mut told, trace.transactions.as_slice())?;
    if trace.last {
        told.push_str(", the last alone")?;
    }
    told.push_str(texts_told(trace.text_numbers))?;
    told.push_str(big_told(trace.big_as_text))?;
    told.push_str(explain_told(trace.explain))?;
    Ok(told)
}

fn next_told(alloc: Global, next: &NextTask<'_>) -> Result<String, AllocError> {
    let state = state_told(next.state);
    let mut told = format!(in alloc; "next {} {state}", next.contract)?;
    if let Some(from) = next.from {
        told.push_str(format!(in alloc; " from {from}")?.as_str())?;
    }
    if let Some(to) = next.to {
        told.push_str(format!(in alloc; " to {to}")?.as_str())?;
    }
    if !next.after.is_empty() {
        told.push_str(" after")?;
        put_paths(&mut told, next.after.as_slice())?;
    }
    told.push_str(form_told(next.json))?;
    told.push_str(texts_told(next.text_numbers))?;
    told.push_str(explain_told(next.explain))?;
    Ok(told)
}

fn table_told(alloc: Global, table: &TableTask<'_>) -> Result<String, AllocError> {
    let explained = explain_told(table.explain);
    format!(in alloc; "table {}{explained}", table.contract)
}

fn analysis_told(alloc: Global, analyse: &AnalyseTask<'_>) -> Result<String, AllocError> {
    let state = state_told(analyse.state);
    let form = form_told(analyse.json);
    let runs = if analyse.no_runs { " without runs" } else { "" };
    let all = if analyse.all { " in full" } else { "" };
    let notes = if analyse.notes { " with notes" } else { "" };
    let (of, party) = party_told(analyse.party);
    let strictly = if analyse.strict { " strictly" } else { "" };
    let texts = texts_told(analyse.text_numbers);
    let explained = explain_told(analyse.explain);
    format!(in alloc;
        "analyse {} {state}{form}{runs}{all}{notes}{of}{party}{strictly}{texts}{explained}",
        analyse.contract
    )
}

fn party_told(party: Option<&str>) -> (&str, &str) {
    match party {
        Some(party) => (" for ", party),
        None => ("", ""),
    }
}

fn play_told(alloc: Global, play: &PlayTask<'_>) -> Result<String, AllocError> {
    let how = if play.one {
        "one after another"
    } else {
        "at once"
    };
    let files = if play.files { " with files" } else { "" };
    let big = big_told(play.big_as_text);
    let explained = explain_told(play.explain);
    format!(in alloc; "play {} {how}{files}{big}{explained}", play.scenario)
}

fn serve_told(alloc: Global, serve: &ServeTask) -> Result<String, AllocError> {
    let texts = texts_told(serve.text_numbers);
    format!(in alloc; "serve to {} levels{texts}", serve.depth)
}

fn state_told<'a>(state: Option<&'a str>) -> &'a str {
    state.unwrap_or("without a state")
}

fn form_told(json: bool) -> &'static str {
    if json { " as JSON" } else { " in lines" }
}

fn texts_told(text_numbers: bool) -> &'static str {
    if text_numbers { " with texts" } else { "" }
}

fn big_told(big_as_text: bool) -> &'static str {
    if big_as_text {
        " with big numbers as texts"
    } else {
        ""
    }
}

fn explain_told(explain: bool) -> &'static str {
    if explain { " with explanations" } else { "" }
}

fn put_paths(told: &mut String, paths: &[&str]) -> Result<(), AllocError> {
    for path in paths {
        told.push_str(" ")?;
        told.push_str(path)?;
    }
    Ok(())
}
