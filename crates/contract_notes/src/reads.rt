//! What reads a name or a choice.
ghost use Rattle.std.specs.Prelude.{◌≡◌, map};
ghost use Rattle.contract.specs.Tree.{value_tree, observation_tree, action_tree, case_tree, case_trees, contract_tree};
ghost use Rattle.contract.specs.Names.Equal.{same_text, same_choice_id};
ghost use Rattle.contract_notes.specs.declared.note.Source.TheVariants.{Name as OfName, Choice as OfChoice};
ghost use Rattle.contract_notes.specs.Reads.{same_source, reads, looks_at, waits_on, is_read_in, is_read_by};

use crate::note::Source;
use contract::{Action, Case, ChoiceId, Contract, Items, Observation, Same, Text, Value};

/// Whether something in a contract reads the number. It is looked for from the front, up to the first that does.
#[cycle(contracts)]
pub(crate) fn is_read_in(source: &Source, contract: &Contract) -> bool
    ensures { result ≡ is_read_in source.now (contract_tree contract.now) }
{
    match contract {
        Contract::Close => false,
        Contract::Pay(_, _, _, amount, then) => {
            reads(source, amount) || is_read_in(source, then.get())
        }
        Contract::If(observation, then, otherwise) => {
            looks_at(source, observation)
                || (is_read_in(source, then.get()) || is_read_in(source, otherwise.get()))
        }
        Contract::When(cases, _, then) => {
            is_read_by(source, cases) || is_read_in(source, then.get())
        }
        Contract::Let(_, value, then) => reads(source, value) || is_read_in(source, then.get()),
        Contract::Assert(observation, then) => {
            looks_at(source, observation) || is_read_in(source, then.get())
        }
    }
}

// Whether a case of a When does, or what follows it.
#[cycle(contracts)]
fn is_read_by(source: &Source, cases: &Items<Case>) -> bool
    ensures { result ≡ is_read_by source.now (case_trees (map case_tree cases.now)) }
{
    for case in cases.as_slice() {
        if waits_on(source, &case.action) || is_read_in(source, &case.then) {
            return true;
        }
    }
    false
}

fn waits_on(source: &Source, action: &Action) -> bool
    ensures { result ≡ waits_on source.now (action_tree action.now) }
{
    match action {
        Action::Deposit(_, _, _, amount) => reads(source, amount),
        Action::Choice(_, _) => false,
        Action::Notify(observation) => looks_at(source, observation),
    }
}

#[cycle(values)]
fn reads(source: &Source, value: &Value) -> bool
    ensures { result ≡ reads source.now (value_tree value.now) }
{
    match value {
        Value::AvailableMoney(_, _)
        | Value::Constant(_)
        | Value::TimeIntervalStart
        | Value::TimeIntervalEnd => false,
        Value::NegValue(a) => reads(source, a.get()),
        Value::AddValue(a, b) => reads(source, a.get()) || reads(source, b.get()),
        Value::SubValue(a, b) => reads(source, a.get()) || reads(source, b.get()),
        Value::MulValue(a, b) => reads(source, a.get()) || reads(source, b.get()),
        Value::DivValue(a, b) => reads(source, a.get()) || reads(source, b.get()),
        Value::ChoiceValue(id) => is_choice(source, id),
        Value::UseValue(name) => is_name(source, name),
        Value::Cond(observation, a, b) => {
            looks_at(source, observation.get())
                || (reads(source, a.get()) || reads(source, b.get()))
        }
    }
}

#[cycle(values)]
fn looks_at(source: &Source, observation: &Observation) -> bool
    ensures { result ≡ looks_at source.now (observation_tree observation.now) }
{
    match observation {
        Observation::AndObs(a, b) => looks_at(source, a.get()) || looks_at(source, b.get()),
        Observation::OrObs(a, b) => looks_at(source, a.get()) || looks_at(source, b.get()),
        Observation::NotObs(a) => looks_at(source, a.get()),
        Observation::ChoseSomething(_) | Observation::TrueObs | Observation::FalseObs => false,
        Observation::ValueGE(a, b) => reads(source, a.get()) || reads(source, b.get()),
        Observation::ValueGT(a, b) => reads(source, a.get()) || reads(source, b.get()),
        Observation::ValueLT(a, b) => reads(source, a.get()) || reads(source, b.get()),
        Observation::ValueLE(a, b) => reads(source, a.get()) || reads(source, b.get()),
        Observation::ValueEQ(a, b) => reads(source, a.get()) || reads(source, b.get()),
    }
}

/// Whether it is this name.
pub(crate) fn is_name(source: &Source, name: &Text) -> bool
    ensures { result ≡ same_source source.now (OfName name.now) }
{
    match source {
        Source::Name(other) => is_text(other, name),
        Source::Choice(_) => false,
    }
}

/// Whether it is this choice.
pub(crate) fn is_choice(source: &Source, id: &ChoiceId) -> bool
    ensures { result ≡ same_source source.now (OfChoice id.now) }
{
    match source {
        Source::Name(_) => false,
        Source::Choice(other) => is_id(other, id),
    }
}

/// Whether two are the same.
pub(crate) fn is_same(source: &Source, other: &Source) -> bool
    ensures { result ≡ same_source source.now other.now }
{
    match other {
        Source::Name(name) => is_name(source, name),
        Source::Choice(id) => is_choice(source, id),
    }
}

fn is_text(text: &Text, other: &Text) -> bool
    ensures { result ≡ same_text text.now other.now }
{
    text.same(other)
}

fn is_id(id: &ChoiceId, other: &ChoiceId) -> bool
    ensures { result ≡ same_choice_id id.now other.now }
{
    id.same(other)
}
