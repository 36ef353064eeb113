//! `analyse CONTRACT [STATE]`.
ghost use Rattle.std.specs.Prelude.{IfOk, Some, codes};
ghost use Rattle.clap.specs.Words.{found_of, rows_of};
ghost use Rattle.marlowe_cli.specs.Asked.{IsAsked};

use crate::found::{NoTask, depth, is_given, one_input, one_spelling, word, word_if};
use crate::task::Task;
use clap::ArgMatches;

/// What a contract can warn of and what it can pay, from the path of a file and, if one is given, that of a state's.
#[derive(Clone, Copy)]
pub struct AnalyseTask<'a> {
    pub contract: &'a str,
    /// The state from which it starts, if one is given.
    pub state: Option<&'a str>,
    /// As JSON, a refusal too, and not as lines for people.
    pub json: bool,
    /// No run is looked for, and else those that end in alarms, and those that reach bounds.
    pub no_runs: bool,
    /// Each alarm is told in full, and else of alarms of one kind at equal parts the first that has a run.
    pub all: bool,
    /// Notes on the contract are told too.
    pub notes: bool,
    /// The party, as JSON, of which is told what it is sure of while it keeps up, if one is given.
    pub party: Option<&'a str>,
    /// Status 3 also where a part is told that no run reaches.
    pub strict: bool,
    /// How deep lists and objects of a contract may nest: from 127 to 4,000 levels.
    pub depth: usize,
    /// Numbers of the state may be texts.
    pub text_numbers: bool,
    /// Lines behind a refusal say where and why.
    pub explain: bool,
}

/// What `analyse` is asked, from what was found for its words.
pub(crate) fn analyse_task<'a>(analyse: &ArgMatches<'a>) -> Result<Task<'a>, NoTask>
    ensures { IfOk result (IsAsked (Some (codes "analyse", rows_of (found_of analyse.now)))) }
{
    let json = is_given(analyse, "json");
    let explain = is_given(analyse, "explain");
    one_spelling(json, explain)?;
    let contract = word(analyse, "CONTRACT")?;
    let state = word_if(analyse, "STATE");
    one_input(&[contract], state, &[])?;
    Ok(Task::Analyse(AnalyseTask {
        contract,
        state,
        json,
        no_runs: is_given(analyse, "no-runs"),
        all: is_given(analyse, "all"),
        notes: is_given(analyse, "notes"),
        party: word_if(analyse, "party"),
        strict: is_given(analyse, "strict"),
        depth: depth(analyse)?,
        text_numbers: is_given(analyse, "text-numbers"),
        explain,
    }))
}
