//! What was found for the arguments of a command.
ghost use Rattle.std.specs.Prelude.{◌≡◌, ◌≤◌, pos, IfOk, OnOk, codes, if◌then◌else◌, map, option_map};
ghost use Rattle.clap.specs.Words.{first_of, found_of, one_of, rows_of};
ghost use Rattle.marlowe_cli.specs.Asked.{AreApart, IsDepth, IsFlag, IsTime, ReadsOnce, given_for, input_if, inputs, is_input};

use clap::ArgMatches;
use std::alloc::{AllocError, Global};
use std::num::ParseIntError;

/// Why no task is made of what was found.
#[derive(Clone, Copy)]
pub enum NoTask {
    /// An argument lacks, or is no number: `clap` refuses such words before.
    Missing,
    /// Both JSON and explanations for people are wanted.
    Both,
    /// Standard input is given for more than one file.
    Inputs,
    /// Memory was refused.
    Memory,
}

impl From<AllocError> for NoTask {
    fn from(_error: AllocError) -> Self {
        NoTask::Memory
    }
}

impl From<ParseIntError> for NoTask {
    fn from(_error: ParseIntError) -> Self {
        NoTask::Missing
    }
}

/// The word of an argument that has to be given.
pub fn word<'a>(found: &ArgMatches<'a>, name: &str) -> Result<&'a str, NoTask>
    ensures { IfOk result (λ word. first_of name.now (rows_of (found_of found.now)) ≡ Some word.now) }
{
    match found.get_str(name) {
        Some(word) => Ok(word),
        None => Err(NoTask::Missing),
    }
}

/// The word of an argument, if it was given.
pub fn word_if<'a>(found: &ArgMatches<'a>, name: &str) -> Option<&'a str>
    ensures { first_of name.now (rows_of (found_of found.now)) ≡ option_map (λ word. word.now) result }
{
    found.get_str(name)
}

/// The words of an argument that may be given again and again.
pub fn words_for<'a>(
    alloc: Global,
    found: &ArgMatches<'a>,
    name: &str,
) -> Result<Vec<&'a str>, NoTask>
    ensures { IfOk result (λ words. given_for name.now (rows_of (found_of found.now)) ≡ map (λ word. word.now) words.items) }
{
    match found.get_strs(name) {
        Some(words) => Ok(Vec::from_slice(alloc, words)?),
        None => Ok(Vec::new(alloc)),
    }
}

/// Whether a flag was given.
pub fn is_given(found: &ArgMatches<'_>, name: &str) -> bool
    ensures { IsFlag (one_of name.now (rows_of (found_of found.now))) result }
{
    found.get_flag(name)
}

/// A time, if it was given.
pub fn time_if(found: &ArgMatches<'_>, name: &str) -> Result<Option<i64>, NoTask>
    ensures { IfOk result (IsTime (one_of name.now (rows_of (found_of found.now)))) }
{
    Ok(found.try_get_one::<i64>(name)?)
}

/// How deep lists and objects may nest: 127 levels where nothing else was given.
pub fn depth(found: &ArgMatches<'_>) -> Result<usize, NoTask>
    ensures { IfOk result (IsDepth (one_of (codes "depth") (rows_of (found_of found.now)))) }
{
    match time_if(found, "depth")? {
        Some(depth) => depth_within(depth),
        None => Ok(127),
    }
}

// A depth that `clap` lets through.
fn depth_within(depth: i64) -> Result<usize, NoTask>
    ensures { IfOk result (λ n. (pos n ≡ depth) × (127 ≤ n) × (n ≤ 4000)) }
{
    if 127 <= depth && depth <= 4_000 {
        Ok(depth as usize)
    } else {
        Err(NoTask::Missing)
    }
}

/// Refuses JSON with explanations for people.
pub fn one_spelling(json: bool, explain: bool) -> Result<(), NoTask>
    ensures { OnOk result (AreApart json explain) }
{
    if json && explain {
        Err(NoTask::Both)
    } else {
        Ok(())
    }
}

// Whether a path is standard input.
fn is_input(path: &str) -> bool
    ensures { result ≡ is_input path.now }
{
    path == "-"
}

// How many of these paths are standard input.
#[tactic(auto, using(crate::proofs::FoundLemmas::counted))]
fn inputs(paths: &[&str]) -> usize
    ensures { result ≡ inputs (map (λ path. path.now) paths.now) }
{
    paths.iter().filter(|path| is_input(**path)).count()
}

// .. of a path, if there is one.
fn input_if(path: Option<&str>) -> usize
    ensures { result ≡ input_if (option_map (λ path. path.now) path.entry) }
{
    match path {
        Some(path) => { if is_input(path) { 1 } else { 0 } }
        None => 0,
    }
}

/// Refuses standard input for more than one of these paths.
pub fn one_input(given: &[&str], state: Option<&str>, more: &[&str]) -> Result<(), NoTask>
    ensures { OnOk result (ReadsOnce (map (λ path. path.now) given.now) (option_map (λ path. path.now) state.entry) (map (λ path. path.now) more.now)) }
{
    let (given, state, more) = (inputs(given), input_if(state), inputs(more));
    if given <= 1 && state <= 1 - given && more <= 1 - given - state {
        Ok(())
    } else {
        Err(NoTask::Inputs)
    }
}
