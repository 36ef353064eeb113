//! Constants that stand in values and observations.
use contract::{Memory, Observation, Value};
use std::alloc::Global;

// The most constants that are gathered.
const MOST_CONSTANTS: usize = 8;

/// Adds the constants of a value, from the left, to those that were gathered; each once, and no more than the first
/// eight.
#[cycle(gather)]
pub(crate) fn gather_value(value: &Value, found: &mut Vec<i128>) -> Result<(), Memory> {
    if found.len() >= MOST_CONSTANTS {
        return Ok(());
    }
    match value {
        Value::Constant(number) => add_once(found, *number),
        Value::NegValue(a) => gather_value(a.get(), found),
        Value::AddValue(a, b) => gather_values(a.get(), b.get(), found),
        Value::SubValue(a, b) => gather_values(a.get(), b.get(), found),
        Value::MulValue(a, b) => gather_values(a.get(), b.get(), found),
        Value::DivValue(a, b) => gather_values(a.get(), b.get(), found),
        Value::Cond(observation, a, b) => {
            gather_cond(observation.get(), a.get(), b.get(), found)
        }
        _ => Ok(()),
    }
}

// Adds those of two values.
#[cycle(gather)]
fn gather_values(a: &Value, b: &Value, found: &mut Vec<i128>) -> Result<(), Memory> {
    gather_value(a, found)?;
    gather_value(b, found)
}

// Adds those of an observation and two values.
#[cycle(gather)]
fn gather_cond(
    observation: &Observation,
    a: &Value,
    b: &Value,
    found: &mut Vec<i128>,
) -> Result<(), Memory> {
    gather_observation(observation, found)?;
    gather_values(a, b, found)
}

/// Adds those of an observation.
#[cycle(gather)]
pub(crate) fn gather_observation(
    observation: &Observation,
    found: &mut Vec<i128>,
) -> Result<(), Memory> {
    if found.len() >= MOST_CONSTANTS {
        return Ok(());
    }
    match observation {
        Observation::AndObs(a, b) => gather_observations(a.get(), b.get(), found),
        Observation::OrObs(a, b) => gather_observations(a.get(), b.get(), found),
        Observation::NotObs(a) => gather_observation(a.get(), found),
        Observation::ValueGE(a, b) => gather_values(a.get(), b.get(), found),
        Observation::ValueGT(a, b) => gather_values(a.get(), b.get(), found),
        Observation::ValueLT(a, b) => gather_values(a.get(), b.get(), found),
        Observation::ValueLE(a, b) => gather_values(a.get(), b.get(), found),
        Observation::ValueEQ(a, b) => gather_values(a.get(), b.get(), found),
        _ => Ok(()),
    }
}

// Adds those of two observations.
#[cycle(gather)]
fn gather_observations(
    a: &Observation,
    b: &Observation,
    found: &mut Vec<i128>,
) -> Result<(), Memory> {
    gather_observation(a, found)?;
    gather_observation(b, found)
}

/// Adds a number to others, unless it is among them.
pub(crate) fn add_once(numbers: &mut Vec<i128>, number: i128) -> Result<(), Memory> {
    if !numbers.as_slice().contains(&number) {
        numbers.push(number)?;
    }
    Ok(())
}

/// These numbers, and behind them the sums and differences of any two, each once.
pub(crate) fn with_sums(alloc: Global, constants: &[i128]) -> Result<Vec<i128>, Memory> {
    let mut numbers = Vec::new(alloc);
    for a in constants {
        add_once(&mut numbers, *a)?;
    }
    for a in constants {
        add_sums(&mut numbers, *a, constants)?;
    }
    Ok(numbers)
}

// Adds the sums and differences of a number and others.
fn add_sums(numbers: &mut Vec<i128>, a: i128, others: &[i128]) -> Result<(), Memory> {
    for b in others {
        add_some(numbers, a.checked_add(*b))?;
        add_some(numbers, a.checked_sub(*b))?;
    }
    Ok(())
}

fn add_some(numbers: &mut Vec<i128>, number: Option<i128>) -> Result<(), Memory> {
    match number {
        Some(number) => add_once(numbers, number),
        None => Ok(()),
    }
}

/// These numbers, each with one less and one more, each once.
pub(crate) fn with_neighbours(alloc: Global, numbers: &[i128]) -> Result<Vec<i128>, Memory> {
    let mut found = Vec::new(alloc);
    for number in numbers {
        add_about(&mut found, *number)?;
    }
    Ok(found)
}

// Adds a number, one less and one more.
fn add_about(found: &mut Vec<i128>, number: i128) -> Result<(), Memory> {
    add_once(found, number)?;
    add_once(found, number.saturating_sub(1))?;
    add_once(found, number.saturating_add(1))
}
