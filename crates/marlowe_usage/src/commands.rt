//! The commands, with their arguments and help.
ghost use Rattle.std.specs.Prelude.{IfOk, codes};
ghost use Rattle.marlowe_usage.specs.Lines.{IsArgument, IsCommand, IsDraft, given, json, depth, text_numbers, big_as_text, explain, command, program};
ghost use Rattle.marlowe_usage.specs.Lines.{run_rules, trace_rules, next_rules, table_rules, analyse_rules, play_rules, serve_rules, command_line};

use crate::draft::Draft;
use crate::kinds::{depth_option, flag, given, option, optional, options, several, time};
use clap::{Arg, Command};
use std::alloc::{AllocError, Global};

/// The whole command line.
pub fn command_line<'a>(alloc: Global) -> Result<Command<'a>, AllocError>
    ensures { IfOk result (IsCommand command_line) }
{
    program(alloc)
        .with_command(run_command(alloc))
        .with_command(trace_command(alloc))
        .with_command(next_command(alloc))
        .with_command(table_command(alloc))
        .with_command(analyse_command(alloc))
        .with_command(play_command(alloc))
        .with_command(serve_command(alloc))
        .made()
}

// The program's own version, and behind it the toolchain's line, with the logic in which what it stands on is proved.
const VERSION: &str = "0.1.0 (rattle-kit-13f logic dac8208d650f15bf)";

// The program without its commands.
fn program<'a>(alloc: Global) -> Draft<'a>
    ensures { IsDraft program result }
{
    let program = Command::new(alloc, "marlowe")
        .version(VERSION)
        .about("Says what a Marlowe contract pays, and to whom, before money moves.")
        .subcommand_required(true)
        .arg_required_else_help(true);
    Draft {
        command: Ok(program),
    }
}

// The argument for a contract.
fn contract<'a>(alloc: Global) -> Arg<'a>
    ensures { IsArgument (given (codes "CONTRACT")) result }
{
    let help = "The contract, as a JSON file of Marlowe Core";
    given(alloc, "CONTRACT", help)
}

// The flag for JSON.
fn json<'a>(alloc: Global) -> Arg<'a>
    ensures { IsArgument json result }
{
    let help = "Prints JSON, for tools, a refusal too";
    flag(alloc, "json", help)
}

// The option for the depth to which lists and objects may nest.
fn depth<'a>(alloc: Global) -> Arg<'a>
    ensures { IsArgument depth result }
{
    let help = "How deep lists and objects may nest, from 127 to 4000; without it 127";
    depth_option(alloc, "depth", help)
}

// The flag for numbers of a state.
fn text_numbers<'a>(alloc: Global) -> Arg<'a>
    ensures { IsArgument text_numbers result }
{
    let help = "Takes numbers of the state also as texts of their digits";
    flag(alloc, "text-numbers", help)
}

// The flag for big numbers of outcomes.
fn big_as_text<'a>(alloc: Global) -> Arg<'a>
    ensures { IsArgument big_as_text result }
{
    let help = "Writes numbers of payments, warnings and the state outside -2^53 to 2^53 as texts";
    flag(alloc, "big-as-text", help)
}

// The flag for explanations.
fn explain<'a>(alloc: Global) -> Arg<'a>
    ensures { IsArgument explain result }
{
    let help = "Says where and why something is refused, in lines behind the refusal";
    flag(alloc, "explain", help)
}

fn run_command<'a>(alloc: Global) -> Draft<'a>
    ensures { IsDraft (command (codes "run") run_rules) result }
{
    let about = "Computes one transaction and prints its outcome as JSON.";
    let after_help =
        "Status 0: the outcome is printed. 1: a text or the transaction is refused; with --json 4 for a text. 2: a file\nor these words are at fault.\n\nExample:\n  marlowe run contract.json state.json transaction.json";
    let state = "The state: accounts, choices, boundValues and minTime";
    let transaction = "The transaction: tx_interval and tx_inputs";
    Draft::new(alloc, "run", about)
        .after_help(after_help)
        .with(contract(alloc))
        .with(given(alloc, "STATE", state))
        .with(given(alloc, "TX", transaction))
        .with(json(alloc))
        .with(depth(alloc))
        .with(text_numbers(alloc))
        .with(big_as_text(alloc))
        .with(explain(alloc))
}

fn trace_command<'a>(alloc: Global) -> Draft<'a>
    ensures { IsDraft (command (codes "trace") trace_rules) result }
{
    let about = "Computes transactions one after another and prints the outcome of each as JSON.";
    let after_help =
        "Each starts in the contract and the state in which the one before it ended. The first that is refused ends the\ntrace: its number and its fault are on standard error.\n\nStatus 0: all are accepted. 1: a text or a transaction is refused; with --json 4 for a text. 2: a file or these\nwords are at fault.\n\nExample:\n  marlowe trace contract.json first.json then.json --last";
    let transactions = "Transactions: one, a list of them, or one on each line";
    let state = "The state from which they start; without it no accounts and time 0";
    let last = "Prints the last outcome alone";
    Draft::new(alloc, "trace", about)
        .after_help(after_help)
        .with(contract(alloc))
        .with(several(alloc, "TX", transactions))
        .with(option(alloc, "state", "STATE", state))
        .with(flag(alloc, "last", last))
        .with(json(alloc))
        .with(depth(alloc))
        .with(text_numbers(alloc))
        .with(big_as_text(alloc))
        .with(explain(alloc))
}

fn next_command<'a>(alloc: Global) -> Draft<'a>
    ensures { IsDraft (command (codes "next") next_rules) result }
{
    let about = "Prints the inputs that a contract takes next, and until when it waits for one.";
    let after_help =
        "A time is a number of milliseconds since 1970 began. Without --from it is the state's minimum time, and without\n--to it is --from. What is printed is described in docs/formats.md.\n\nStatus 0: it is printed. 1: a text, a transaction or the interval is refused; with --json 4 for a text. 2: a file or\nthese words are at fault.\n\nExample:\n  marlowe next contract.json state.json --from 1735689600000";
    let state = "The state in which it is; without it no accounts and time 0";
    let from = "The first millisecond of the next transaction's interval";
    let to = "The last millisecond of that interval";
    let after = "Transactions that come before: one, a list of them, or one on each line";
    Draft::new(alloc, "next", about)
        .after_help(after_help)
        .with(contract(alloc))
        .with(optional(alloc, "STATE", state))
        .with(time(alloc, "from", from))
        .with(time(alloc, "to", to))
        .with(options(alloc, "after", "TX", after))
        .with(json(alloc))
        .with(depth(alloc))
        .with(text_numbers(alloc))
        .with(explain(alloc))
}

fn table_command<'a>(alloc: Global) -> Draft<'a>
    ensures { IsDraft (command (codes "table") table_rules) result }
{
    let about = "Compiles a contract and prints its table, a line for each node.";
    let after_help =
        "Status 0: the table is printed. 1: the contract is refused; with --json 4 where its text isn't read. 2: a file or\nthese words are at fault.\n\nExample:\n  marlowe table contract.json";
    Draft::new(alloc, "table", about)
        .after_help(after_help)
        .with(contract(alloc))
        .with(json(alloc))
        .with(depth(alloc))
        .with(explain(alloc))
}

fn analyse_command<'a>(alloc: Global) -> Draft<'a>
    ensures { IsDraft (command (codes "analyse") analyse_rules) result }
{
    let about =
        "Says which warnings a contract can give, in any run, and what each party can be paid.";
    let after_help =
        "An alarm has its kind, its place in the contract's text, and a run that ends in it, a transaction a line, or\n`not known`. What is promised, and what `not known` means, is described in docs/analysis.md.\n\nStatus 0: it never warns and stays within 128 bits. 3: there is an alarm. 1: a text is refused; with --json 4.\n2: a file or these words are at fault.\n\nExample:\n  marlowe analyse contract.json --no-runs";
    let state = "The state from which it starts; without it no accounts and time 0";
    let no_runs = "Looks for no runs, which takes most of the time where none is found";
    let all = "Tells each alarm in full, also those of one kind at equal parts";
    let notes = "Tells what is likely a slip, though no run warns of it";
    let party = "Tells what this party, as JSON, is paid at least and can lose while it keeps up";
    let strict = "Status 3 also where a part is told that no run reaches";
    Draft::new(alloc, "analyse", about)
        .after_help(after_help)
        .with(contract(alloc))
        .with(optional(alloc, "STATE", state))
        .with(json(alloc))
        .with(flag(alloc, "no-runs", no_runs))
        .with(flag(alloc, "all", all))
        .with(flag(alloc, "notes", notes))
        .with(option(alloc, "party", "P", party))
        .with(flag(alloc, "strict", strict))
        .with(depth(alloc))
        .with(text_numbers(alloc))
        .with(explain(alloc))
}

fn play_command<'a>(alloc: Global) -> Draft<'a>
    ensures { IsDraft (command (codes "play") play_rules) result }
{
    let about = "Plays a scenario and prints a line for each call that was answered.";
    let after_help =
        "A scenario says what a ledger begins with, which contracts are published and started on it,\nand what each party means to do there. Its form is described in docs/formats.md.\n\nStatus 0: it was played to its end. 3: with --strict, not all went well. 1: the scenario or its setup\nis refused; with --json 4 for its text. 2: a file or these words are at fault.\n\nExample:\n  marlowe play scenario.json --one";
    let scenario = "The scenario, as a JSON file";
    let one = "Plays the plans one after another, so that the text is always the same";
    let files =
        "Reads a contract that is {\"file\":PATH} from that file; PATH begins in the scenario's folder";
    let explain =
        "Says what each step did, what was refused or not built, how each intent ended, and who holds what";
    let strict = "Status 3 where an intent isn't done, or a thread isn't closed at the end";
    let big = "With --json, writes numbers outside -2^53 to 2^53 as texts";
    let open =
        "With --strict, a thread that may stay open, by its name; as often as there are such";
    Draft::new(alloc, "play", about)
        .after_help(after_help)
        .with(given(alloc, "SCENARIO", scenario))
        .with(flag(alloc, "one", one))
        .with(flag(alloc, "files", files))
        .with(flag(alloc, "strict", strict))
        .with(options(alloc, "expect-open", "NAME", open))
        .with(json(alloc))
        .with(depth(alloc))
        .with(flag(alloc, "big-as-text", big))
        .with(flag(alloc, "explain", explain))
}

fn serve_command<'a>(alloc: Global) -> Draft<'a>
    ensures { IsDraft (command (codes "serve") serve_rules) result }
{
    let about = "Answers requests, one on each line of standard input, by a line each.";
    let after_help =
        "A request is a JSON object on one line, as {\"id\":7,\"table\":{\"contract\":\"close\"}}, and its answer an object on a\nline of standard output. What may be asked is described in docs/formats.md.\n\nStatus 0: the requests have ended, and each has its answer. 1: memory was refused. 2: standard input can't be read,\nstandard output can't be written, or these words are at fault.\n\nExample:\n  marlowe serve < requests.jsonl";
    Draft::new(alloc, "serve", about)
        .after_help(after_help)
        .with(depth(alloc))
        .with(text_numbers(alloc))
}
