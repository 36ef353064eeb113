//! `next CONTRACT [STATE]`.
ghost use Rattle.std.specs.Prelude.{IfOk, Some, codes};
ghost use Rattle.clap.specs.Words.{found_of, rows_of};
ghost use Rattle.marlowe_cli.specs.Asked.{IsAsked};

use crate::found::{
    NoTask, depth, is_given, one_input, one_spelling, time_if, word, word_if, words_for,
};
use crate::task::Task;
use clap::ArgMatches;
use std::alloc::Global;

/// The inputs that a contract takes next, from the paths of files.
#[derive(Drop)]
pub struct NextTask<'a> {
    pub contract: &'a str,
    /// The state in which it is, if one is given.
    pub state: Option<&'a str>,
    /// The first millisecond of the next transaction's interval, if it is given.
    pub from: Option<i64>,
    /// The last millisecond of that interval, if it is given.
    pub to: Option<i64>,
    /// Each has transactions, which are computed before, in this order.
    pub after: Vec<&'a str>,
    /// As JSON, a refusal too, and not as lines for people.
    pub json: bool,
    /// How deep lists and objects of a contract may nest: from 127 to 4,000 levels.
    pub depth: usize,
    /// Numbers of the state may be texts.
    pub text_numbers: bool,
    /// Lines behind a refusal say where and why.
    pub explain: bool,
}

/// What `next` is asked, from what was found for its words.
pub(crate) fn next_task<'a>(alloc: Global, next: &ArgMatches<'a>) -> Result<Task<'a>, NoTask>
    ensures { IfOk result (IsAsked (Some (codes "next", rows_of (found_of next.now)))) }
{
    let json = is_given(next, "json");
    let explain = is_given(next, "explain");
    one_spelling(json, explain)?;
    let contract = word(next, "CONTRACT")?;
    let state = word_if(next, "STATE");
    let after = words_for(alloc, next, "after")?;
    one_input(&[contract], state, after.as_slice())?;
    Ok(Task::Next(NextTask {
        contract,
        state,
        from: time_if(next, "from")?,
        to: time_if(next, "to")?,
        after,
        json,
        depth: depth(next)?,
        text_numbers: is_given(next, "text-numbers"),
        explain,
    }))
}
