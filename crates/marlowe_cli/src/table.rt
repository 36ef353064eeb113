//! `table CONTRACT`.
ghost use Rattle.std.specs.Prelude.{IfOk, Some, codes};
ghost use Rattle.clap.specs.Words.{found_of, rows_of};
ghost use Rattle.marlowe_cli.specs.Asked.{IsAsked};

use crate::found::{NoTask, depth, is_given, one_spelling, word};
use crate::task::Task;
use clap::ArgMatches;

/// The table of a contract, from the path of a file.
#[derive(Clone, Copy)]
pub struct TableTask<'a> {
    pub contract: &'a str,
    /// JSON for tools, a refusal too.
    pub json: bool,
    /// How deep lists and objects of a contract may nest: from 127 to 4,000 levels.
    pub depth: usize,
    /// Lines behind a refusal say where and why.
    pub explain: bool,
}

/// What `table` is asked, from what was found for its words.
pub(crate) fn table_task<'a>(table: &ArgMatches<'a>) -> Result<Task<'a>, NoTask>
    ensures { IfOk result (IsAsked (Some (codes "table", rows_of (found_of table.now)))) }
{
    let json = is_given(table, "json");
    let explain = is_given(table, "explain");
    one_spelling(json, explain)?;
    Ok(Task::Table(TableTask {
        contract: word(table, "CONTRACT")?,
        json,
        depth: depth(table)?,
        explain,
    }))
}
