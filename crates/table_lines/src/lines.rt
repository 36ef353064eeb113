//! The line of a node, after its number.
ghost use Rattle.std.specs.Prelude.{◌≡◌, [], ◌∷◌, ◌++◌, ℕ, List, OnOk, string_bytes};
ghost use Rattle.serde_json.specs.Written.{compact_text};
ghost use Rattle.table_lines.specs.TableLines.{line_end, v, value_words, observation_words, case_words, cont_words};

use crate::lists::in_brackets;
use json_write_contracts::{Term, term_text};
use std::alloc::Global;
use std::fmt::Write;
use table::collections::Memory;
use table::{CaseNode, ContNode, ObservationNode, ValueNode};

// A node that is printed.
pub(crate) trait Line {
    // Its words.
    ghost words: { Self → List (List ℕ) };

    // Prints them behind what was printed, each after a space, and a line feed.
    fn print(&self, alloc: Global, out: &mut String) -> Result<(), Memory>
        ensures { OnOk result (string_bytes out.new ≡ string_bytes out.old ++ line_end (words self.now)) };
}

// A word and two values.
fn put_two_values(out: &mut String, word: &str, a: u32, b: u32) -> Result<(), Memory>
    ensures { OnOk result (string_bytes out.new ≡ string_bytes out.old ++ line_end (word.now ∷ v a ∷ v b ∷ [])) }
{
    write!(out, " {word} v{a} v{b}\n")
}

// A word and a term.
fn put_term<T: Term>(alloc: Global, out: &mut String, word: &str, term: &T) -> Result<(), Memory>
    ensures { OnOk result (string_bytes out.new
        ≡ string_bytes out.old ++ line_end (word.now ∷ compact_text (T.json term.now) ∷ [])) }
{
    let text = term_text(alloc, term)?;
    write!(out, " {word} {text}\n")
}

impl Line for ValueNode {
    ghost words = { value_words };

    fn print(&self, alloc: Global, out: &mut String) -> Result<(), Memory> {
        match self {
            ValueNode::AvailableMoney(party, token) => {
                let token = term_text(alloc, token)?;
                let party = term_text(alloc, party)?;
                write!(out, " amount_of_token {token} {party}\n")
            }
            ValueNode::Constant(n) => write!(out, " constant {n}\n"),
            ValueNode::NegValue(a) => write!(out, " negate v{a}\n"),
            ValueNode::AddValue(a, b) => put_two_values(out, "add", *a, *b),
            ValueNode::SubValue(a, b) => put_two_values(out, "minus", *a, *b),
            ValueNode::MulValue(a, b) => put_two_values(out, "multiply", *a, *b),
            ValueNode::DivValue(a, b) => put_two_values(out, "divide", *a, *b),
            ValueNode::ChoiceValue(id) => put_term(alloc, out, "value_of_choice", id),
            ValueNode::TimeIntervalStart => out.push_str(" time_interval_start\n"),
            ValueNode::TimeIntervalEnd => out.push_str(" time_interval_end\n"),
            ValueNode::UseValue(name) => put_term(alloc, out, "use_value", name),
            ValueNode::Cond(o, a, b) => write!(out, " if o{o} v{a} v{b}\n"),
        }
    }
}

impl Line for ObservationNode {
    ghost words = { observation_words };

    fn print(&self, alloc: Global, out: &mut String) -> Result<(), Memory> {
        match self {
            ObservationNode::AndObs(o, p) => write!(out, " both o{o} o{p}\n"),
            ObservationNode::OrObs(o, p) => write!(out, " either o{o} o{p}\n"),
            ObservationNode::NotObs(o) => write!(out, " not o{o}\n"),
            ObservationNode::ChoseSomething(id) => put_term(alloc, out, "chose_something_for", id),
            ObservationNode::ValueGE(a, b) => put_two_values(out, "ge_than", *a, *b),
            ObservationNode::ValueGT(a, b) => put_two_values(out, "gt", *a, *b),
            ObservationNode::ValueLT(a, b) => put_two_values(out, "lt", *a, *b),
            ObservationNode::ValueLE(a, b) => put_two_values(out, "le_than", *a, *b),
            ObservationNode::ValueEQ(a, b) => put_two_values(out, "equal_to", *a, *b),
            ObservationNode::TrueObs => out.push_str(" true\n"),
            ObservationNode::FalseObs => out.push_str(" false\n"),
        }
    }
}

impl Line for CaseNode {
    ghost words = { case_words };

    fn print(&self, alloc: Global, out: &mut String) -> Result<(), Memory> {
        match self {
            CaseNode::Deposit(account, party, token, value, then) => {
                let account = term_text(alloc, account)?;
                let party = term_text(alloc, party)?;
                let token = term_text(alloc, token)?;
                let then = then.0;
                write!(out, " deposit {account} {party} {token} v{value} k{then}\n")
            }
            CaseNode::Choice(id, bounds, then) => {
                let id = term_text(alloc, id)?;
                let bounds = in_brackets(alloc, bounds.as_slice())?;
                let then = then.0;
                write!(out, " choice {id} {bounds} k{then}\n")
            }
            CaseNode::Notify(o, then) => {
                let then = then.0;
                write!(out, " notify o{o} k{then}\n")
            }
        }
    }
}

impl Line for ContNode {
    ghost words = { cont_words };

    fn print(&self, alloc: Global, out: &mut String) -> Result<(), Memory> {
        match self {
            ContNode::Close => out.push_str(" close\n"),
            ContNode::Pay(from, to, token, value, then) => {
                let token = term_text(alloc, token)?;
                let from = term_text(alloc, from)?;
                let to = term_text(alloc, to)?;
                let then = then.0;
                write!(out, " pay v{value} {token} {from} {to} k{then}\n")
            }
            ContNode::If(o, then, otherwise) => {
                let then = then.0;
                let otherwise = otherwise.0;
                write!(out, " if o{o} k{then} k{otherwise}\n")
            }
            ContNode::When(cases, timeout, then) => {
                let cases = in_brackets(alloc, cases.as_slice())?;
                let then = then.0;
                write!(out, " when {cases} {timeout} k{then}\n")
            }
            ContNode::Let(name, value, then) => {
                let name = term_text(alloc, name)?;
                let then = then.0;
                write!(out, " let {name} v{value} k{then}\n")
            }
            ContNode::Assert(o, then) => {
                let then = then.0;
                write!(out, " assert o{o} k{then}\n")
            }
        }
    }
}
