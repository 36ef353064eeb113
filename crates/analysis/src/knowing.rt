//! What the walk is told of each step.
ghost use Rattle.analysis_values.specs.Known.{IsDescribed};

use crate::closes::spans;
use analysis_steps as steps;
use analysis_values::Known;
use analysis_walk::{Branches, Conclusion, Knowledge, Span};
use contract::{
    Account, Bound, Case, ChoiceId, Entries, Items, Memory, Observation, Party, Payee, State, Text,
    Token, Value,
};
use std::alloc::Global;

/// Runs are known by linear expressions: for accounts, choices, bound values, times and what was paid.
pub(crate) struct Expressions {}

impl Knowledge for Expressions {
    type Known = Known;

    ghost describes = { IsDescribed };

    fn start(alloc: Global, state: &State) -> Result<Known, Memory> {
        steps::start(alloc, state)
    }

    fn pay(
        alloc: Global,
        known: Known,
        from: &Party,
        to: &Payee,
        token: &Token,
        amount: &Value,
    ) -> Result<Conclusion<Known>, Memory> {
        steps::pay(alloc, known, from, to, token, amount)
    }

    fn bind(
        alloc: Global,
        known: Known,
        name: &Text,
        value: &Value,
    ) -> Result<Conclusion<Known>, Memory> {
        steps::bind(alloc, known, name, value)
    }

    fn assert(
        alloc: Global,
        known: Known,
        observation: &Observation,
    ) -> Result<Conclusion<Known>, Memory> {
        steps::assert(alloc, known, observation)
    }

    fn observe(
        alloc: Global,
        known: &Known,
        observation: &Observation,
    ) -> Result<Branches<Known>, Memory> {
        steps::branch(alloc, known, observation)
    }

    fn deposit(
        alloc: Global,
        known: Known,
        earlier: &[Case],
        account: &Party,
        payer: &Party,
        token: &Token,
        amount: &Value,
    ) -> Result<Conclusion<Known>, Memory> {
        steps::deposit(alloc, known, earlier, account, payer, token, amount)
    }

    fn choose(
        alloc: Global,
        known: Known,
        earlier: &[Case],
        id: &ChoiceId,
        bounds: &Items<Bound>,
    ) -> Result<Conclusion<Known>, Memory> {
        steps::choose(alloc, known, earlier, id, bounds)
    }

    fn notify(
        alloc: Global,
        known: Known,
        earlier: &[Case],
        observation: &Observation,
    ) -> Result<Conclusion<Known>, Memory> {
        steps::notify(alloc, known, earlier, observation)
    }

    fn later(known: Known) -> Result<Known, Memory> {
        steps::later(known)
    }

    fn wait(alloc: Global, known: Known, timeout: i64) -> Result<Option<Known>, Memory> {
        steps::wait(alloc, known, timeout)
    }

    fn time_out(alloc: Global, known: Known, timeout: i64) -> Result<Option<Known>, Memory> {
        steps::time_out(alloc, known, timeout)
    }

    fn close(alloc: Global, known: &Known) -> Result<Entries<Account, Span>, Memory> {
        spans(alloc, known)
    }
}
