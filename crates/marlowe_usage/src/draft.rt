//! Commands that are being made.
ghost use Rattle.std.specs.Prelude.{◌≡◌, IfOk};
ghost use Rattle.clap.specs.Words.{App, Rule, new_app, with_rule, with_subcommand};
ghost use Rattle.marlowe_usage.specs.Lines.{IsArgument, IsCommand, IsDraft, AddsArgument};

use clap::{Arg, Command};
use std::alloc::{AllocError, Global};

// few ways out: a chain of calls has none, since a draft hands on what was refused memory.
/// A command that is being made, if no memory was refused so far.
pub struct Draft<'a> {
    pub command: Result<Command<'a>, AllocError>,
}

impl<'a> Draft<'a> {
    /// A command that has no arguments yet, with what help says of it.
    pub fn new(alloc: Global, name: &'a str, about: &'a str) -> Draft<'a>
        ensures { IsDraft (new_app name.entry.now) result }
    {
        Draft {
            command: Ok(Command::new(alloc, name).about(about)),
        }
    }

    /// What help says behind the arguments.
    pub fn after_help(self, text: &'a str) -> Draft<'a>
        ensures { (app : App) → IsDraft app self.entry → IsDraft app result }
    {
        let Draft { command } = self;
        let command = match command {
            Ok(command) => Ok(command.after_help(text)),
            Err(error) => Err(error),
        };
        Draft { command }
    }

    /// One more argument.
    pub fn with(self, argument: Arg<'a>) -> Draft<'a>
        ensures { AddsArgument self.entry argument.entry result }
    {
        let Draft { command } = self;
        Draft {
            command: with_argument(command, argument),
        }
    }

    /// One more command below this one.
    pub fn with_command(self, below: Draft<'a>) -> Draft<'a>
        ensures { (app sub : App) → IsDraft app self.entry → IsDraft sub below.entry → IsDraft (with_subcommand app sub.top) result }
    {
        let Draft { command } = self;
        let Draft { command: below } = below;
        Draft {
            command: with_subcommand(command, below),
        }
    }

    /// The command, once it is made.
    pub fn made(self) -> Result<Command<'a>, AllocError>
        ensures { result ≡ self.entry.command }
    {
        let Draft { command } = self;
        command
    }
}

fn with_argument<'a>(
    command: Result<Command<'a>, AllocError>,
    argument: Arg<'a>,
) -> Result<Command<'a>, AllocError>
    ensures { (app : App) (rule : Rule) → IfOk command.entry (IsCommand app) → IsArgument rule argument.entry
        → IfOk result (IsCommand (with_rule app rule)) }
{
    command?.arg(argument)
}

fn with_subcommand<'a>(
    command: Result<Command<'a>, AllocError>,
    below: Result<Command<'a>, AllocError>,
) -> Result<Command<'a>, AllocError>
    ensures { (app sub : App) → IfOk command.entry (IsCommand app) → IfOk below.entry (IsCommand sub)
        → IfOk result (IsCommand (with_subcommand app sub.top)) }
{
    let command = command?;
    let below = below?;
    command.subcommand(below)
}
