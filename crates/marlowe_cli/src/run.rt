//! `run CONTRACT STATE TX`.
ghost use Rattle.std.specs.Prelude.{IfOk, Some, codes};
ghost use Rattle.clap.specs.Words.{found_of, rows_of};
ghost use Rattle.marlowe_cli.specs.Asked.{IsAsked};

use crate::found::{NoTask, depth, is_given, one_input, one_spelling, word};
use crate::task::Task;
use clap::ArgMatches;

/// The outcome of one transaction, from the paths of three files.
#[derive(Clone, Copy)]
pub struct RunTask<'a> {
    pub contract: &'a str,
    pub state: &'a str,
    pub transaction: &'a str,
    /// JSON for tools, a refusal too.
    pub json: bool,
    /// How deep lists and objects of a contract may nest: from 127 to 4,000 levels.
    pub depth: usize,
    /// Numbers of the state may be texts.
    pub text_numbers: bool,
    /// Big numbers of outcomes are texts, but for those of the contract.
    pub big_as_text: bool,
    /// Lines behind a refusal say where and why.
    pub explain: bool,
}

/// What `run` is asked, from what was found for its words.
pub(crate) fn run_task<'a>(run: &ArgMatches<'a>) -> Result<Task<'a>, NoTask>
    ensures { IfOk result (IsAsked (Some (codes "run", rows_of (found_of run.now)))) }
{
    let json = is_given(run, "json");
    let explain = is_given(run, "explain");
    one_spelling(json, explain)?;
    let contract = word(run, "CONTRACT")?;
    let state = word(run, "STATE")?;
    let transaction = word(run, "TX")?;
    one_input(&[contract, state, transaction], None, &[])?;
    Ok(Task::Run(RunTask {
        contract,
        state,
        transaction,
        json,
        depth: depth(run)?,
        text_numbers: is_given(run, "text-numbers"),
        big_as_text: is_given(run, "big-as-text"),
        explain,
    }))
}
