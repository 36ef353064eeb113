//! Equality of contracts: what `==` answers is whether the two are the same.
ghost use Rattle.std.specs.Prelude.{◌≡◌, ◌↔◌, IsTrue};

use crate::input::Input;
use crate::payment::Payment;
use crate::tree::{Action, Case, Contract};
use crate::value::{Observation, Value};
use crate::warning::Warning;
use states::collections::{Boxed, Items, Same};

impl Same for Value {
    fn same(&self, other: &Value) -> bool {
        same_value(self, other)
    }
}

impl Same for Observation {
    fn same(&self, other: &Observation) -> bool {
        same_observation(self, other)
    }
}

impl Same for Action {
    fn same(&self, other: &Action) -> bool {
        same_action(self, other)
    }
}

impl Same for Input {
    fn same(&self, other: &Input) -> bool {
        match self {
            Input::Deposit(a0, b0, c0, d0) => match other {
                Input::Deposit(a1, b1, c1, d1) => {
                    a0.same(a1) && b0.same(b1) && c0.same(c1) && *d0 == *d1
                }
                _ => false,
            },
            Input::Choice(a0, b0) => match other {
                Input::Choice(a1, b1) => a0.same(a1) && *b0 == *b1,
                _ => false,
            },
            Input::Notify => matches!(other, Input::Notify),
        }
    }
}

impl Same for Warning {
    fn same(&self, other: &Warning) -> bool {
        match self {
            Warning::NonPositiveDeposit(a0, b0, c0, d0) => match other {
                Warning::NonPositiveDeposit(a1, b1, c1, d1) => {
                    a0.same(a1) && b0.same(b1) && c0.same(c1) && *d0 == *d1
                }
                _ => false,
            },
            Warning::NonPositivePay(a0, b0, c0, d0) => match other {
                Warning::NonPositivePay(a1, b1, c1, d1) => {
                    a0.same(a1) && b0.same(b1) && c0.same(c1) && *d0 == *d1
                }
                _ => false,
            },
            Warning::PartialPay(a0, b0, c0, d0, e0) => match other {
                Warning::PartialPay(a1, b1, c1, d1, e1) => {
                    a0.same(a1) && b0.same(b1) && c0.same(c1) && *d0 == *d1 && *e0 == *e1
                }
                _ => false,
            },
            Warning::Shadowing(a0, b0, c0) => match other {
                Warning::Shadowing(a1, b1, c1) => a0.same(a1) && *b0 == *b1 && *c0 == *c1,
                _ => false,
            },
            Warning::AssertionFailed => matches!(other, Warning::AssertionFailed),
        }
    }
}

impl Same for Payment {
    fn same(&self, other: &Payment) -> bool {
        self.from.same(&other.from)
            && self.to.same(&other.to)
            && self.token.same(&other.token)
            && self.amount == other.amount
    }
}

impl Same for Case {
    fn same(&self, other: &Case) -> bool {
        same_case(self, other)
    }
}

impl Same for Contract {
    fn same(&self, other: &Contract) -> bool {
        same_contract(self, other)
    }
}

#[cycle(same_value)]
fn same_boxed_value(a: &Boxed<Value>, b: &Boxed<Value>) -> bool
    ensures { IsTrue result ↔ (a.now ≡ b.now) }
{
    same_value(a.get(), b.get())
}

#[cycle(same_value)]
fn same_boxed_observation(a: &Boxed<Observation>, b: &Boxed<Observation>) -> bool
    ensures { IsTrue result ↔ (a.now ≡ b.now) }
{
    same_observation(a.get(), b.get())
}

// Whether two values are the same as two others, one by one.
#[cycle(same_value)]
fn same_values(a0: &Boxed<Value>, b0: &Boxed<Value>, a1: &Boxed<Value>, b1: &Boxed<Value>) -> bool
    ensures { IsTrue result ↔ ((a0.now ≡ a1.now) × (b0.now ≡ b1.now)) }
{
    same_boxed_value(a0, a1) && same_boxed_value(b0, b1)
}

#[cycle(same_value)]
fn same_observations(
    a0: &Boxed<Observation>,
    b0: &Boxed<Observation>,
    a1: &Boxed<Observation>,
    b1: &Boxed<Observation>,
) -> bool
    ensures { IsTrue result ↔ ((a0.now ≡ a1.now) × (b0.now ≡ b1.now)) }
{
    same_boxed_observation(a0, a1) && same_boxed_observation(b0, b1)
}

#[cycle(same_value)]
fn same_value(a: &Value, b: &Value) -> bool
    ensures { IsTrue result ↔ (a.now ≡ b.now) }
{
    match a {
        Value::AvailableMoney(a0, b0) => match b {
            Value::AvailableMoney(a1, b1) => *a0 == *a1 && *b0 == *b1,
            _ => false,
        },
        Value::Constant(a0) => match b {
            Value::Constant(a1) => *a0 == *a1,
            _ => false,
        },
        Value::NegValue(a0) => match b {
            Value::NegValue(a1) => same_boxed_value(a0, a1),
            _ => false,
        },
        Value::AddValue(a0, b0) => match b {
            Value::AddValue(a1, b1) => same_values(a0, b0, a1, b1),
            _ => false,
        },
        Value::SubValue(a0, b0) => match b {
            Value::SubValue(a1, b1) => same_values(a0, b0, a1, b1),
            _ => false,
        },
        Value::MulValue(a0, b0) => match b {
            Value::MulValue(a1, b1) => same_values(a0, b0, a1, b1),
            _ => false,
        },
        Value::DivValue(a0, b0) => match b {
            Value::DivValue(a1, b1) => same_values(a0, b0, a1, b1),
            _ => false,
        },
        Value::ChoiceValue(a0) => match b {
            Value::ChoiceValue(a1) => *a0 == *a1,
            _ => false,
        },
        Value::TimeIntervalStart => matches!(b, Value::TimeIntervalStart),
        Value::TimeIntervalEnd => matches!(b, Value::TimeIntervalEnd),
        Value::UseValue(a0) => match b {
            Value::UseValue(a1) => *a0 == *a1,
            _ => false,
        },
        Value::Cond(a0, b0, c0) => match b {
            Value::Cond(a1, b1, c1) => same_boxed_observation(a0, a1)
                && same_values(b0, c0, b1, c1),
            _ => false,
        },
    }
}

#[cycle(same_value)]
fn same_observation(a: &Observation, b: &Observation) -> bool
    ensures { IsTrue result ↔ (a.now ≡ b.now) }
{
    match a {
        Observation::AndObs(a0, b0) => match b {
            Observation::AndObs(a1, b1) => same_observations(a0, b0, a1, b1),
            _ => false,
        },
        Observation::OrObs(a0, b0) => match b {
            Observation::OrObs(a1, b1) => same_observations(a0, b0, a1, b1),
            _ => false,
        },
        Observation::NotObs(a0) => match b {
            Observation::NotObs(a1) => same_boxed_observation(a0, a1),
            _ => false,
        },
        Observation::ChoseSomething(a0) => match b {
            Observation::ChoseSomething(a1) => *a0 == *a1,
            _ => false,
        },
        Observation::ValueGE(a0, b0) => match b {
            Observation::ValueGE(a1, b1) => same_values(a0, b0, a1, b1),
            _ => false,
        },
        Observation::ValueGT(a0, b0) => match b {
            Observation::ValueGT(a1, b1) => same_values(a0, b0, a1, b1),
            _ => false,
        },
        Observation::ValueLT(a0, b0) => match b {
            Observation::ValueLT(a1, b1) => same_values(a0, b0, a1, b1),
            _ => false,
        },
        Observation::ValueLE(a0, b0) => match b {
            Observation::ValueLE(a1, b1) => same_values(a0, b0, a1, b1),
            _ => false,
        },
        Observation::ValueEQ(a0, b0) => match b {
            Observation::ValueEQ(a1, b1) => same_values(a0, b0, a1, b1),
            _ => false,
        },
        Observation::TrueObs => matches!(b, Observation::TrueObs),
        Observation::FalseObs => matches!(b, Observation::FalseObs),
    }
}

fn same_action(a: &Action, b: &Action) -> bool
    ensures { IsTrue result ↔ (a.now ≡ b.now) }
{
    match a {
        Action::Deposit(a0, b0, c0, d0) => match b {
            Action::Deposit(a1, b1, c1, d1) => a0.same(a1)
                && b0.same(b1)
                && c0.same(c1)
                && same_value(d0, d1),
            _ => false,
        },
        Action::Choice(a0, b0) => match b {
            Action::Choice(a1, b1) => a0.same(a1) && b0.same(b1),
            _ => false,
        },
        Action::Notify(a0) => match b {
            Action::Notify(a1) => same_observation(a0, a1),
            _ => false,
        },
    }
}

#[cycle(same_contract)]
fn same_boxed(a: &Boxed<Contract>, b: &Boxed<Contract>) -> bool
    ensures { IsTrue result ↔ (a.now ≡ b.now) }
{
    same_contract(a.get(), b.get())
}

#[cycle(same_contract)]
fn same_case(a: &Case, b: &Case) -> bool
    ensures { IsTrue result ↔ (a.now ≡ b.now) }
{
    same_action(&a.action, &b.action) && same_contract(&a.then, &b.then)
}

#[cycle(same_contract)]
fn same_cases(a: &Items<Case>, b: &Items<Case>) -> bool
    ensures { IsTrue result ↔ (a.now ≡ b.now) }
{
    let xs = a.as_slice();
    let ys = b.as_slice();
    if xs.len() != ys.len() {
        return false;
    }
    for i in 0..xs.len() {
        if !same_case(&xs[i], &ys[i]) {
            return false;
        }
    }
    true
}

#[cycle(same_contract)]
fn same_contract(a: &Contract, b: &Contract) -> bool
    ensures { IsTrue result ↔ (a.now ≡ b.now) }
{
    match a {
        Contract::Close => matches!(b, Contract::Close),
        Contract::Pay(a0, b0, c0, d0, e0) => match b {
            Contract::Pay(a1, b1, c1, d1, e1) => a0.same(a1)
                && b0.same(b1)
                && c0.same(c1)
                && same_value(d0, d1)
                && same_boxed(e0, e1),
            _ => false,
        },
        Contract::If(a0, b0, c0) => match b {
            Contract::If(a1, b1, c1) => same_observation(a0, a1)
                && same_boxed(b0, b1)
                && same_boxed(c0, c1),
            _ => false,
        },
        Contract::When(a0, b0, c0) => match b {
            Contract::When(a1, b1, c1) => *b0 == *b1 && same_cases(a0, a1) && same_boxed(c0, c1),
            _ => false,
        },
        Contract::Let(a0, b0, c0) => match b {
            Contract::Let(a1, b1, c1) => *a0 == *a1 && same_value(b0, b1) && same_boxed(c0, c1),
            _ => false,
        },
        Contract::Assert(a0, b0) => match b {
            Contract::Assert(a1, b1) => same_observation(a0, a1) && same_boxed(b0, b1),
            _ => false,
        },
    }
}

impl PartialEq for Input {
    ghost use Rattle.states.specs.Collections.Same.{same_by};
    ghost use Rattle.states.proofs.FromCollections.SameLaws.{same_by-partial};
    ghost use Rattle.contract.specs.contracts.input.Input as it;

    ghost eq = { same_by it.the_row.coded };

    ghost laws = { same_by-partial it.the_row.coded };

    fn eq(&self, other: &Input) -> bool {
        self.same(other)
    }
}

impl Eq for Input {
    ghost use Rattle.states.proofs.FromCollections.SameLaws.{same_by-equiv};
    ghost use Rattle.contract.specs.contracts.input.Input as it;

    ghost laws = { same_by-equiv it.the_row.coded };
}

impl PartialEq for Warning {
    ghost use Rattle.states.specs.Collections.Same.{same_by};
    ghost use Rattle.states.proofs.FromCollections.SameLaws.{same_by-partial};
    ghost use Rattle.contract.specs.contracts.warning.Warning as it;

    ghost eq = { same_by it.the_row.coded };

    ghost laws = { same_by-partial it.the_row.coded };

    fn eq(&self, other: &Warning) -> bool {
        self.same(other)
    }
}

impl Eq for Warning {
    ghost use Rattle.states.proofs.FromCollections.SameLaws.{same_by-equiv};
    ghost use Rattle.contract.specs.contracts.warning.Warning as it;

    ghost laws = { same_by-equiv it.the_row.coded };
}

impl PartialEq for Payment {
    ghost use Rattle.states.specs.Collections.Same.{same_by};
    ghost use Rattle.states.proofs.FromCollections.SameLaws.{same_by-partial};
    ghost use Rattle.contract.specs.contracts.payment.Payment as it;

    ghost eq = { same_by it.the_row.coded };

    ghost laws = { same_by-partial it.the_row.coded };

    fn eq(&self, other: &Payment) -> bool {
        self.same(other)
    }
}

impl Eq for Payment {
    ghost use Rattle.states.proofs.FromCollections.SameLaws.{same_by-equiv};
    ghost use Rattle.contract.specs.contracts.payment.Payment as it;

    ghost laws = { same_by-equiv it.the_row.coded };
}

impl PartialEq for Value {
    ghost use Rattle.states.specs.Collections.Same.{same_by};
    ghost use Rattle.states.proofs.FromCollections.SameLaws.{same_by-partial};
    ghost use Rattle.contract.specs.contracts.value.Value as it;

    ghost eq = { same_by it.the_row.coded };

    ghost laws = { same_by-partial it.the_row.coded };

    fn eq(&self, other: &Value) -> bool {
        same_value(self, other)
    }
}

impl Eq for Value {
    ghost use Rattle.states.proofs.FromCollections.SameLaws.{same_by-equiv};
    ghost use Rattle.contract.specs.contracts.value.Value as it;

    ghost laws = { same_by-equiv it.the_row.coded };
}

impl PartialEq for Observation {
    ghost use Rattle.states.specs.Collections.Same.{same_by};
    ghost use Rattle.states.proofs.FromCollections.SameLaws.{same_by-partial};
    ghost use Rattle.contract.specs.contracts.value.Observation as it;

    ghost eq = { same_by it.the_row.coded };

    ghost laws = { same_by-partial it.the_row.coded };

    fn eq(&self, other: &Observation) -> bool {
        same_observation(self, other)
    }
}

impl Eq for Observation {
    ghost use Rattle.states.proofs.FromCollections.SameLaws.{same_by-equiv};
    ghost use Rattle.contract.specs.contracts.value.Observation as it;

    ghost laws = { same_by-equiv it.the_row.coded };
}

impl PartialEq for Action {
    ghost use Rattle.states.specs.Collections.Same.{same_by};
    ghost use Rattle.states.proofs.FromCollections.SameLaws.{same_by-partial};
    ghost use Rattle.contract.specs.contracts.tree.Action as it;

    ghost eq = { same_by it.the_row.coded };

    ghost laws = { same_by-partial it.the_row.coded };

    fn eq(&self, other: &Action) -> bool {
        same_action(self, other)
    }
}

impl Eq for Action {
    ghost use Rattle.states.proofs.FromCollections.SameLaws.{same_by-equiv};
    ghost use Rattle.contract.specs.contracts.tree.Action as it;

    ghost laws = { same_by-equiv it.the_row.coded };
}

impl PartialEq for Case {
    ghost use Rattle.states.specs.Collections.Same.{same_by};
    ghost use Rattle.states.proofs.FromCollections.SameLaws.{same_by-partial};
    ghost use Rattle.contract.specs.contracts.tree.Case as it;

    ghost eq = { same_by it.the_row.coded };

    ghost laws = { same_by-partial it.the_row.coded };

    fn eq(&self, other: &Case) -> bool {
        same_case(self, other)
    }
}

impl Eq for Case {
    ghost use Rattle.states.proofs.FromCollections.SameLaws.{same_by-equiv};
    ghost use Rattle.contract.specs.contracts.tree.Case as it;

    ghost laws = { same_by-equiv it.the_row.coded };
}

impl PartialEq for Contract {
    ghost use Rattle.states.specs.Collections.Same.{same_by};
    ghost use Rattle.states.proofs.FromCollections.SameLaws.{same_by-partial};
    ghost use Rattle.contract.specs.contracts.tree.Contract as it;

    ghost eq = { same_by it.the_row.coded };

    ghost laws = { same_by-partial it.the_row.coded };

    fn eq(&self, other: &Contract) -> bool {
        same_contract(self, other)
    }
}

impl Eq for Contract {
    ghost use Rattle.states.proofs.FromCollections.SameLaws.{same_by-equiv};
    ghost use Rattle.contract.specs.contracts.tree.Contract as it;

    ghost laws = { same_by-equiv it.the_row.coded };
}
