//! `play SCENARIO`.
ghost use Rattle.std.specs.Prelude.{IfOk, Some, codes};
ghost use Rattle.clap.specs.Words.{found_of, rows_of};
ghost use Rattle.marlowe_cli.specs.Asked.{IsAsked};

use crate::found::{NoTask, depth, is_given, one_spelling, word, words_for};
use crate::task::Task;
use clap::ArgMatches;
use std::alloc::Global;

/// The lines of a play, from the path of a scenario's file.
#[derive(Drop)]
pub struct PlayTask<'a> {
    pub scenario: &'a str,
    /// The plans are played one after another, and else all at once.
    pub one: bool,
    /// A contract of the scenario may be a file of its own, whose path is from the scenario's folder.
    pub files: bool,
    /// Status 3 where an intent isn't done, or a thread isn't closed at the end.
    pub strict: bool,
    /// The names of threads that may stay open all the same.
    pub kept_open: Vec<&'a str>,
    /// JSON for tools, a refusal too.
    pub json: bool,
    /// How deep lists and objects of the scenario may nest: from 127 to 4,000 levels.
    pub depth: usize,
    /// Numbers outside -2^53 to 2^53 are texts in JSON.
    pub big_as_text: bool,
    /// Lines say what each step did, what was refused or not built, how each intent ended, and who holds what at the end.
    pub explain: bool,
}

/// What `play` is asked, from what was found for its words.
pub(crate) fn play_task<'a>(alloc: Global, play: &ArgMatches<'a>) -> Result<Task<'a>, NoTask>
    ensures { IfOk result (IsAsked (Some (codes "play", rows_of (found_of play.now)))) }
{
    let json = is_given(play, "json");
    let explain = is_given(play, "explain");
    one_spelling(json, explain)?;
    Ok(Task::Play(PlayTask {
        scenario: word(play, "SCENARIO")?,
        one: is_given(play, "one"),
        files: is_given(play, "files"),
        strict: is_given(play, "strict"),
        kept_open: words_for(alloc, play, "expect-open")?,
        json,
        depth: depth(play)?,
        big_as_text: is_given(play, "big-as-text"),
        explain,
    }))
}
