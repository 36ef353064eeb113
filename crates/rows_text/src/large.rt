//! Contracts that no text of the greatest length has.
use crate::carried::{both, times};
use contract::{Action, Boxed, Case, Contract, Items, Memory, Observation};
use std::alloc::Global;

/// An assertion of so many `not`s round `true`, then close.
pub fn nested(alloc: Global, count: u32) -> Result<Contract, Memory> {
    let nots = wrapped(alloc, count, Observation::TrueObs);
    let (observation, close) = both(nots, Boxed::new(alloc, Contract::Close))?;
    Ok(Contract::Assert(observation, close))
}

// What can stand in one of its own kind.
trait Wraps: Sized + Drop {
    fn wrap(inner: Boxed<Self>) -> Self;
}

impl Wraps for Observation {
    fn wrap(inner: Boxed<Observation>) -> Observation {
        Observation::NotObs(inner)
    }
}

// A thing that is wrapped so many times. It is generic in it, so that no proof walks through its drop.
fn wrapped<T: Wraps>(alloc: Global, count: u32, thing: T) -> Result<T, Memory> {
    let mut thing = thing;
    for _ in 0..count {
        thing = T::wrap(Boxed::new(alloc, thing)?);
    }
    Ok(thing)
}

/// A contract that waits for so many notifies of what is true, each followed by close, as the timeout is.
pub fn wide(alloc: Global, count: u32) -> Result<Contract, Memory> {
    waiting(alloc, times(alloc, count, Ok(notify_and(Contract::Close))))
}

/// A notify of what is true, followed by a contract.
pub fn notify_and(then: Contract) -> Case {
    Case {
        action: Action::Notify(Observation::TrueObs),
        then,
    }
}

/// A contract that waits for cases, and is closed at 100.
pub fn waiting(alloc: Global, cases: Result<Items<Case>, Memory>) -> Result<Contract, Memory> {
    let (cases, close) = both(cases, Boxed::new(alloc, Contract::Close))?;
    Ok(Contract::When(cases, 100, close))
}
