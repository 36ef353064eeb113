//! Times.
ghost use Rattle.std.specs.Prelude.{◌≡◌, pos, ◌-ℤ◌, IfOk};
ghost use Rattle.linear.specs.Linear.{number};
ghost use Rattle.analysis_walk.specs.Conclusions.{IsLater, WaitsSo, TimesOutSo};
ghost use Rattle.analysis_values.specs.Known.{IsDescribed};
ghost use Rattle.analysis_steps.specs.Times.{FindsTime, AssumesMost};

use crate::amounts::learn_if;
use analysis_values::Known;
use contract::{Memory, TryClone};
use linear::Linear;
use std::alloc::Global;

// A new time that isn't before another.
fn time_from(known: &mut Known, before: &Linear) -> Result<Linear, Memory>
    ensures { IfOk result (FindsTime known.old known.new before.now) }
{
    let time = known.new_time()?;
    learn_if(known, true, before, &time)?;
    Ok(time)
}

/// What is known in this transaction and in any later one: its interval starts where this one starts or after it, and
/// doesn't end before it starts.
pub fn later(known: Known) -> Result<Known, Memory>
    ensures { IfOk result (IsLater IsDescribed known) }
{
    let mut known = known;
    let before = known.start().try_clone()?;
    let start = time_from(&mut known, &before)?;
    let end = time_from(&mut known, &start)?;
    known.set_interval(start, end);
    Ok(known)
}

// More is known where one expression is at most another; false where that can't be.
fn assume_most(known: &mut Known, l: &Linear, m: &Linear) -> Result<bool, Memory>
    ensures symbols { IfOk result (AssumesMost known.old.symbols known.new.symbols l.now m.now) }
    ensures view { known.new.view ≡ known.old.view }
{
    let difference = m.minus(l)?;
    match difference {
        Some(d) => known.assume(&d),
        None => Ok(true),
    }
}

// The last time before a timeout.
fn last_before(alloc: Global, timeout: i64) -> Linear
    ensures { result ≡ number (timeout -ℤ pos 1) }
{
    Linear::number(alloc, i128::from(timeout) - 1)
}

// The first time at which a When has timed out.
fn first_at(alloc: Global, timeout: i64) -> Linear
    ensures { result ≡ number timeout }
{
    Linear::number(alloc, i128::from(timeout))
}

/// What is known where a When waits: the interval ends before its timeout, in POSIX milliseconds. None where that can't
/// be.
pub fn wait(alloc: Global, known: Known, timeout: i64) -> Result<Option<Known>, Memory>
    ensures { IfOk result (WaitsSo IsDescribed known timeout) }
{
    let mut known = known;
    let last = last_before(alloc, timeout);
    let end = known.end().try_clone()?;
    let ends = assume_most(&mut known, &end, &last)?;
    if !ends {
        return Ok(None);
    }
    let start = known.start().try_clone()?;
    let starts = assume_most(&mut known, &start, &last)?;
    if !starts {
        return Ok(None);
    }
    Ok(Some(known))
}

/// What is known where a When has timed out: the interval starts at its timeout, in POSIX milliseconds, or after it.
/// None where that can't be.
pub fn time_out(alloc: Global, known: Known, timeout: i64) -> Result<Option<Known>, Memory>
    ensures { IfOk result (TimesOutSo IsDescribed known timeout) }
{
    let mut known = known;
    let first = first_at(alloc, timeout);
    let start = known.start().try_clone()?;
    let starts = assume_most(&mut known, &first, &start)?;
    if !starts {
        return Ok(None);
    }
    let end = known.end().try_clone()?;
    let ends = assume_most(&mut known, &first, &end)?;
    if !ends {
        return Ok(None);
    }
    Ok(Some(known))
}
