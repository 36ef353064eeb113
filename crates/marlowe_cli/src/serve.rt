//! `serve`.
ghost use Rattle.std.specs.Prelude.{IfOk, Some, codes};
ghost use Rattle.clap.specs.Words.{found_of, rows_of};
ghost use Rattle.marlowe_cli.specs.Asked.{IsAsked};

use crate::found::{NoTask, depth, is_given};
use crate::task::Task;
use clap::ArgMatches;

/// The answers to requests that come on standard input.
#[derive(Clone, Copy)]
pub struct ServeTask {
    /// How deep lists and objects of a contract may nest: from 127 to 4,000 levels.
    pub depth: usize,
    /// Numbers of states may be texts.
    pub text_numbers: bool,
}

/// What `serve` is asked, from what was found for its words.
pub(crate) fn serve_task<'a>(serve: &ArgMatches<'a>) -> Result<Task<'a>, NoTask>
    ensures { IfOk result (IsAsked (Some (codes "serve", rows_of (found_of serve.now)))) }
{
    Ok(Task::Serve(ServeTask {
        depth: depth(serve)?,
        text_numbers: is_given(serve, "text-numbers"),
    }))
}
