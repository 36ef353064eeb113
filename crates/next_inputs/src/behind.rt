//! What follows a case that an input takes.
ghost use Rattle.std.specs.Prelude.{◌≡◌, ◌≢◌, ◌<◌, ◌+ℤ◌, int_lt, pos, true, [], ◌∷◌, if◌then◌else◌, Some, length, IfOk};
ghost use Rattle.std.specs.Result.{result_err};
ghost use Rattle.contract.specs.Collections.Answers.{Aside};
ghost use Rattle.semantics.specs.Evaluation.Numbers.{all_fit, within};
ghost use Rattle.semantics.specs.Evaluation.Path.{waits_for};
ghost use Rattle.semantics.specs.Applying.{taken, taken_numbers};
ghost use Rattle.semantics.specs.Walk.{answer_of};
ghost use Rattle.next_inputs.specs.Opening.{opening};
ghost use Rattle.next_inputs.specs.Behind.{IsRefusedBehind};
ghost use Rattle.next_inputs.specs.OpeningSupport.{SettlesAnyhow, refused_unless};

use crate::reduction::opening;
use contract::{Input, Interval, Memory, SemFault, State, TryClone};
use semantics::evaluation::{Form, Parts, sum};
use semantics::{Log, take};
use std::alloc::{AllocError, Global};

/// Why what follows the case that an input takes is refused, if it is: `Ambiguous` where a timeout there lies inside the
/// interval, or `Leaves128` where a number leaves 128 bits, such as the sum that a deposit makes in its account. The case is
/// given by its index, in the When at a place where the contract has settled, with that state and the interval as it is
/// fixed. That the input takes this case is not tested here: `next_inputs` tells which case takes it. Looks at no other case.
/// Where what follows is Close, or a When that still waits, it takes no memory, and time as the logarithm of the accounts.
pub fn refused_behind<S: Parts>(
    alloc: Global,
    parts: &S,
    place: S::Place,
    index: usize,
    state: &State,
    interval: Interval,
    input: &Input,
) -> Result<Option<SemFault>, Memory>
    requires stands { S.contains parts.now place }
    requires within { index < length (waits_for (S.tree parts.now place)) }
    ensures { IfOk result (IsRefusedBehind interval state.now (S.tree parts.now place) index input.now) }
{
    let case = parts.case(place, index);
    if rests(parts, case.then, interval) {
        return Ok(sum_refused(state, input));
    }
    match taken(alloc, state, input) {
        Ok(after) => refused_from(alloc, parts, case.then, &after, interval),
        Err(fault) => told(fault),
    }
}

// Whether a contract has settled in an interval, whatever the state is.
#[tactic(auto, using(crate::proofs::BehindLemmas::close_settles, crate::proofs::BehindLemmas::waiting_settles))]
fn rests<S: Parts>(parts: &S, place: S::Place, interval: Interval) -> bool
    requires { S.contains parts.now place }
    ensures { result ≡ true → SettlesAnyhow interval (S.tree parts.now place) }
{
    match parts.form(place) {
        Form::Close => true,
        Form::When(timeout, _) => interval.to < timeout,
        _ => false,
    }
}

// Why an input is refused for the sum that it makes in an account, if it is.
fn sum_refused(state: &State, input: &Input) -> Option<SemFault>
    ensures { result ≡ refused_unless (all_fit (taken_numbers state.now input.now)) }
{
    match input {
        Input::Deposit(account, _, token, amount) => {
            sum_fault(state.money(account, token), *amount)
        }
        _ => None,
    }
}

// .. where an account holds so much, and so much is deposited.

fn sum_fault(held: i128, amount: i128) -> Option<SemFault>
    ensures { result ≡ refused_unless (all_fit (if int_lt (pos 0) amount then (held +ℤ amount) ∷ [] else [])) }
{
    if amount > 0 {
        refusal_of(sum(held, amount))
    } else {
        None
    }
}

fn refusal_of(sum: Result<i128, SemFault>) -> Option<SemFault>
    ensures { result ≡ result_err sum }
{
    match sum {
        Ok(_) => None,
        Err(fault) => Some(fault),
    }
}

// The state once the input is taken.
fn taken(alloc: Global, state: &State, input: &Input) -> Result<State, SemFault>
    ensures { Aside SemFault.Memory result (within (taken_numbers state.now input.now) (taken state.now input.now)) }
{
    let mut state = state.try_clone()?;
    let mut log = Log::new(alloc);
    take(input, &mut state, &mut log)?;
    Ok(state)
}

// Why the contract doesn't settle, if it doesn't.
fn refused_from<S: Parts>(
    alloc: Global,
    parts: &S,
    place: S::Place,
    state: &State,
    interval: Interval,
) -> Result<Option<SemFault>, Memory>
    requires { S.contains parts.now place }
    ensures { IfOk result (λ refused. refused ≡ result_err (answer_of (opening interval state.now (S.tree parts.now place)))) }
{
    match opening(alloc, parts, place, state, interval) {
        Ok(_) => Ok(None),
        Err(fault) => told(fault),
    }
}

// A fault that isn't want of memory.
fn told(fault: SemFault) -> Result<Option<SemFault>, Memory>
    ensures { IfOk result (λ refused. (refused ≡ Some fault) × (fault ≢ SemFault.Memory)) }
{
    match fault {
        SemFault::Memory => Err(AllocError),
        other => Ok(Some(other)),
    }
}
