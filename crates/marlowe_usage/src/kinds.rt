//! The kinds of arguments that the commands have.
ghost use Rattle.marlowe_usage.specs.Lines.{IsArgument, given, several, optional, flag, option, time, number, options};

use clap::{Arg, ArgAction, value_parser};
use std::alloc::Global;

/// An argument that has to be given, by its place.
pub fn given<'a>(alloc: Global, name: &'a str, help: &'a str) -> Arg<'a>
    ensures { IsArgument (given name.entry.now) result }
{
    Arg::new(alloc, name).required(true).help(help)
}

/// One that has to be given once or more, by the last place.
pub fn several<'a>(alloc: Global, name: &'a str, help: &'a str) -> Arg<'a>
    ensures { IsArgument (several name.entry.now) result }
{
    given(alloc, name, help).num_args(1usize..)
}

/// One that may be left out, by its place.
pub fn optional<'a>(alloc: Global, name: &'a str, help: &'a str) -> Arg<'a>
    ensures { IsArgument (optional name.entry.now) result }
{
    Arg::new(alloc, name).help(help)
}

/// A flag `--name`, which may be left out.
pub fn flag<'a>(alloc: Global, name: &'a str, help: &'a str) -> Arg<'a>
    ensures { IsArgument (flag name.entry.now) result }
{
    Arg::new(alloc, name)
        .long(name)
        .action(ArgAction::SetTrue)
        .help(help)
}

/// An option `--name VALUE`, which may be left out; help calls its value so.
pub fn option<'a>(alloc: Global, name: &'a str, value: &'a str, help: &'a str) -> Arg<'a>
    ensures { IsArgument (option name.entry.now) result }
{
    Arg::new(alloc, name)
        .long(name)
        .value_name(value)
        .help(help)
}

/// An option whose value is a time.
pub fn time<'a>(alloc: Global, name: &'a str, help: &'a str) -> Arg<'a>
    ensures { IsArgument (time name.entry.now) result }
{
    option(alloc, name, "T", help).value_parser(value_parser!(i64))
}

/// An option whose value is a depth: a number from 127 to 4,000.
pub fn depth_option<'a>(alloc: Global, name: &'a str, help: &'a str) -> Arg<'a>
    ensures { IsArgument (number 127 4000 name.entry.now) result }
{
    option(alloc, name, "N", help).value_parser(value_parser!(i64).range(127..=4_000))
}

/// An option that may be given again and again, each time with one value.
pub fn options<'a>(alloc: Global, name: &'a str, value: &'a str, help: &'a str) -> Arg<'a>
    ensures { IsArgument (options name.entry.now) result }
{
    option(alloc, name, value, help).action(ArgAction::Append)
}
