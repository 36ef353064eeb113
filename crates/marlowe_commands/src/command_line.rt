//! What becomes of a command line.
ghost use Rattle.std.specs.Prelude.{◌≡◌, [], IfOk, map, string_bytes};
ghost use Rattle.clap.specs.Words.{subcommand_of};
ghost use Rattle.marlowe_usage.specs.Lines.{command_line};
ghost use Rattle.marlowe_commands.specs.Streams.{IsHelp, Shows, streams_of};
ghost use Rattle.marlowe_commands.specs.Tasks.{AsksForAlarms, HasAlarms, IsAnswerTo, IsTrace, MayAlarm, NestsAtMost, ShowsOnStreams, face_of, stream_of};

use crate::answer::Command;
use crate::face::Face;
use crate::printed::Printed;
use crate::said::Said;
use crate::stops::{Stop, unreadable};
use crate::texts::Texts;
use crate::told::{analysis_told, next_told, play_told, run_told, table_told, trace_told};
use clap::Error;
use clap::error::ErrorKind;
use marlowe_cli::{Task, line};
use marlowe_play::{Memory, Watch};
use marlowe_run::Readable;
use std::alloc::{AllocError, Global};
use std::sync::Wait;
use std::thread::Threads;

/// What becomes of the words of a command line, the first word being the program's own name, where its paths lead to these texts. Who watches
/// is told how far a play is. Behind a refusal stand lines that explain it where the words ask for them, or where this call does, with `explain`.
/// With `--json` all is on standard output, and a refusal is an object. Words that ask for a stream of requests print nothing here.
#[tactic(auto, using(crate::proofs::ShownLemmas::line_shows, crate::proofs::ShownLemmas::line_alarms, crate::proofs::ShownLemmas::help_alarms, crate::proofs::TaskLemmas::asks_stream, crate::proofs::TaskLemmas::nests))]
pub fn command<T: Texts, R: AllocGlobal + Threads + Wait + Sync, W: Watch + Sync>(
    rt: &R,
    texts: &T,
    watch: &W,
    words: &[String],
    explain: bool,
) -> Result<Command, Memory>
    ensures told { IfOk result (IsAnswerTo explain (subcommand_of command_line (map (λ w. string_bytes w) words.now))) }
    ensures alarms { IfOk result (λ command. HasAlarms command
        → AsksForAlarms (subcommand_of command_line (map (λ w. string_bytes w) words.now))) }
    ensures depth { IfOk result (NestsAtMost 4000) }
{
    match line(rt.alloc(), words) {
        Ok(task) => match stream_of(&task) {
            Some(readable) => Ok(Command::Serve(readable)),
            None => Ok(Command::Printed(task_shown(rt, texts, watch, task, explain)?)),
        },
        Err(error) => Ok(Command::Printed(clap_told(rt.alloc(), &error)?)),
    }
}

// What is readable in the stream that a task asks for, if it asks for one.
fn stream_of(task: &Task<'_>) -> Option<Readable>
    ensures { result ≡ stream_of task.now }
{
    match task {
        Task::Serve(task) => Some(Readable {
            depth: task.depth,
            text_numbers: task.text_numbers,
        }),
        Task::Run(_)
        | Task::Trace(_)
        | Task::Next(_)
        | Task::Table(_)
        | Task::Analyse(_)
        | Task::Play(_) => None,
    }
}

/// What is shown is on these streams.
#[tactic(auto, using(crate::proofs::ShownLemmas::on_streams))]
pub fn shown_on_streams()
    ensures { ShowsOnStreams }
{}

// What is printed for a task, or that one of its files can't be read.
#[tactic(auto, using(crate::proofs::ShownLemmas::widened_from_none))]
fn task_shown<'a, T: Texts, R: AllocGlobal + Threads + Wait + Sync, W: Watch + Sync>(
    rt: &R,
    texts: &T,
    watch: &W,
    task: Task<'a>,
    explain: bool,
) -> Result<Printed, Memory>
    ensures { IfOk result (λ printed. Shows (face_of explain task.entry) (MayAlarm task.entry) (IsTrace task.entry) (streams_of printed)) }
{
    let face = face_of(&task, explain);
    match task_told(rt, texts, watch, task, face) {
        Ok(printed) => Ok(printed),
        Err(Stop::Unreadable(path)) => unreadable(rt.alloc(), path, face),
        Err(Stop::Memory) => Err(AllocError),
    }
}

fn face_of(task: &Task<'_>, explain: bool) -> Face
    ensures { result ≡ face_of explain task.now }
{
    match task {
        Task::Run(task) => Face::of(task.json, explain || task.explain),
        Task::Trace(task) => Face::of(task.json, explain || task.explain),
        Task::Next(task) => Face::of(task.json, explain || task.explain),
        Task::Table(task) => Face::of(task.json, explain || task.explain),
        Task::Analyse(task) => Face::of(task.json, explain || task.explain),
        Task::Play(task) => Face::of(task.json, explain || task.explain),
        Task::Serve(_) => Face::Plain,
    }
}

// What is printed for a task.
#[tactic(auto, using(crate::proofs::ShownLemmas::widened, crate::proofs::ShownLemmas::widened_from_none))]
fn task_told<'a, T: Texts, R: AllocGlobal + Threads + Wait + Sync, W: Watch + Sync>(
    rt: &R,
    texts: &T,
    watch: &W,
    task: Task<'a>,
    face: Face,
) -> Result<Printed, Stop<'a>>
    ensures { IfOk result (λ printed. Shows face (MayAlarm task.entry) (IsTrace task.entry) (streams_of printed)) }
{
    let alloc = rt.alloc();
    match task {
        Task::Run(task) => run_told(alloc, texts, task, face),
        Task::Trace(task) => trace_told(alloc, texts, task, face),
        Task::Next(task) => next_told(alloc, texts, task, face),
        Task::Table(task) => table_told(alloc, texts, task, face),
        Task::Analyse(task) => analysis_told(alloc, texts, task, face),
        Task::Play(task) => play_told(rt, texts, watch, task, face),
        Task::Serve(_) => Ok(nothing(alloc, face)?),
    }
}

// What is printed here for a stream of requests.
fn nothing(alloc: Global, face: Face) -> Result<Printed, Memory>
    ensures { IfOk result (λ printed. Shows face ⊥ ⊥ (streams_of printed)) }
{
    let said = Said::Text(Vec::new(alloc), 0);
    said.shown(alloc, face, &Vec::new(alloc))
}

// The text of `clap`: help and the version on standard output, else what is wrong with the command line.
fn clap_told(alloc: Global, error: &Error) -> Result<Printed, Memory>
    ensures { IfOk result (λ printed. IsHelp (streams_of printed)) }
{
    if error.kind() == ErrorKind::OutOfMemory {
        return Err(AllocError);
    }
    let text = format!(in alloc; "{error}")?.into_bytes();
    if error.use_stderr() {
        Ok(Printed {
            output: Vec::new(alloc),
            errors: text,
            status: 2,
            unread: false,
        })
    } else {
        Ok(Printed {
            output: text,
            errors: Vec::new(alloc),
            status: 0,
            unread: false,
        })
    }
}
