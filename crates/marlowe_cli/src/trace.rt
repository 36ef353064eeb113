//! `trace CONTRACT TX..`.
ghost use Rattle.std.specs.Prelude.{IfOk, Some, codes};
ghost use Rattle.clap.specs.Words.{found_of, rows_of};
ghost use Rattle.marlowe_cli.specs.Asked.{IsAsked};

use crate::found::{NoTask, depth, is_given, one_input, one_spelling, word, word_if, words_for};
use crate::task::Task;
use clap::ArgMatches;
use std::alloc::Global;

/// The outcomes of transactions one after another, from the paths of files.
#[derive(Drop)]
pub struct TraceTask<'a> {
    pub contract: &'a str,
    /// Each has transactions: they are computed in this order.
    pub transactions: Vec<&'a str>,
    /// The state from which they start, if one is given.
    pub state: Option<&'a str>,
    /// The last outcome alone.
    pub last: bool,
    /// JSON for tools, a refusal too.
    pub json: bool,
    /// How deep lists and objects of a contract may nest: from 127 to 4,000 levels.
    pub depth: usize,
    /// Numbers of the state may be texts.
    pub text_numbers: bool,
    /// Big numbers of outcomes are texts, but for those of the contract.
    pub big_as_text: bool,
    /// Lines behind a refusal say where and why.
    pub explain: bool,
}

/// What `trace` is asked, from what was found for its words.
pub(crate) fn trace_task<'a>(alloc: Global, trace: &ArgMatches<'a>) -> Result<Task<'a>, NoTask>
    ensures { IfOk result (IsAsked (Some (codes "trace", rows_of (found_of trace.now)))) }
{
    let json = is_given(trace, "json");
    let explain = is_given(trace, "explain");
    one_spelling(json, explain)?;
    let contract = word(trace, "CONTRACT")?;
    let transactions = words_for(alloc, trace, "TX")?;
    let state = word_if(trace, "state");
    one_input(&[contract], state, transactions.as_slice())?;
    Ok(Task::Trace(TraceTask {
        contract,
        transactions,
        state,
        last: is_given(trace, "last"),
        json,
        depth: depth(trace)?,
        text_numbers: is_given(trace, "text-numbers"),
        big_as_text: is_given(trace, "big-as-text"),
        explain,
    }))
}
