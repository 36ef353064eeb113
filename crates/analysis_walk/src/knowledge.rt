//! What is known of runs at a place of a contract.
ghost use Rattle.std.specs.Prelude.{List, IfOk};
ghost use Rattle.contract.specs.declared.interval.Interval.{Interval};
ghost use Rattle.contract.specs.declared.payment.Payment.{Payment};
ghost use Rattle.contract.specs.Tree.{value_tree, observation_tree};
ghost use Rattle.contract.specs.States.States.{StateMaps};
ghost use Rattle.analysis_walk.specs.Limits.{Scope};
ghost use Rattle.analysis_walk.specs.Conclusions.{PaysSo, BindsSo, AssertsSo, ObservesSo, DepositsSo, ChoosesSo, NotifiesSo, IsLater, WaitsSo, TimesOutSo, DescribesStart};
ghost use Rattle.analysis_walk.specs.Knowledge.{actions_before, ClosesBy};

use crate::conclusion::{Branches, Conclusion};
use crate::span::Span;
use contract::{
    Account, Bound, Case, ChoiceId, Entries, Items, Memory, Observation, Party, Payee, State, Text,
    Token, TryClone, Value,
};
use std::alloc::Global;

/// A way to know runs, and what is concluded of each step of a contract from what is known. What a call returns is
/// true of every run that satisfies what is known; each is refused only for memory.
pub trait Knowledge {
    /// What is known at a place of a contract, for every run that comes there.
    type Known: TryClone + Drop;

    /// It is true in the interval of a transaction, of the state, and of all payments before.
    ghost describes: { Scope → Self.Known → Interval → StateMaps → List Payment → Type 0 };

    /// What is known before the first transaction from a state.
    fn start(alloc: Global, state: &State) -> Result<Self::Known, Memory>
        ensures { IfOk result (λ known. (scope : Scope) → DescribesStart describes scope known state.now) };

    /// A Pay of an amount of a token, from the account of a party.
    fn pay(
        alloc: Global,
        known: Self::Known,
        from: &Party,
        to: &Payee,
        token: &Token,
        amount: &Value,
    ) -> Result<Conclusion<Self::Known>, Memory>
        ensures { IfOk result (PaysSo describes known from.now to.now token.now (value_tree amount.now)) };

    /// A Let.
    fn bind(
        alloc: Global,
        known: Self::Known,
        name: &Text,
        value: &Value,
    ) -> Result<Conclusion<Self::Known>, Memory>
        ensures { IfOk result (BindsSo describes known name.now (value_tree value.now)) };

    /// An Assert.
    fn assert(
        alloc: Global,
        known: Self::Known,
        observation: &Observation,
    ) -> Result<Conclusion<Self::Known>, Memory>
        ensures { IfOk result (AssertsSo describes known (observation_tree observation.now)) };

    /// An observation, which is true or false.
    fn observe(
        alloc: Global,
        known: &Self::Known,
        observation: &Observation,
    ) -> Result<Branches<Self::Known>, Memory>
        ensures { IfOk result (ObservesSo describes known.now (observation_tree observation.now)) };

    /// A deposit into the account of one party by another, which no earlier case of its When takes. It may go wrong also
    /// where the case is only tried.
    fn deposit(
        alloc: Global,
        known: Self::Known,
        earlier: &[Case],
        account: &Party,
        payer: &Party,
        token: &Token,
        amount: &Value,
    ) -> Result<Conclusion<Self::Known>, Memory>
        ensures { IfOk result (DepositsSo describes known (actions_before earlier.now) account.now payer.now token.now (value_tree amount.now)) };

    /// A choice within bounds, which no earlier case of its When takes.
    fn choose(
        alloc: Global,
        known: Self::Known,
        earlier: &[Case],
        id: &ChoiceId,
        bounds: &Items<Bound>,
    ) -> Result<Conclusion<Self::Known>, Memory>
        ensures { IfOk result (ChoosesSo describes known (actions_before earlier.now) id.now bounds.now) };

    /// A notification while an observation is true, which no earlier case of its When takes. It may go wrong also where the
    /// case is only tried.
    fn notify(
        alloc: Global,
        known: Self::Known,
        earlier: &[Case],
        observation: &Observation,
    ) -> Result<Conclusion<Self::Known>, Memory>
        ensures { IfOk result (NotifiesSo describes known (actions_before earlier.now) (observation_tree observation.now)) };

    /// This transaction, or whichever later one.
    fn later(known: Self::Known) -> Result<Self::Known, Memory>
        ensures { IfOk result (IsLater describes known) };

    /// A When that still waits for its timeout, in POSIX milliseconds: nothing where that can't be.
    fn wait(alloc: Global, known: Self::Known, timeout: i64) -> Result<Option<Self::Known>, Memory>
        ensures { IfOk result (WaitsSo describes known timeout) };

    /// A When that has timed out: nothing where that can't be.
    fn time_out(
        alloc: Global,
        known: Self::Known,
        timeout: i64,
    ) -> Result<Option<Self::Known>, Memory>
        ensures { IfOk result (TimesOutSo describes known timeout) };

    /// What parties are paid in all, where the contract is closed here. Who isn't named is paid nothing.
    fn close(alloc: Global, known: &Self::Known) -> Result<Entries<Account, Span>, Memory>
        ensures { IfOk result (ClosesBy describes known.now) };
}
