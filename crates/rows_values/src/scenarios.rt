//! Scenarios as they are printed once they are read.
use crate::intents::put_plan;
use contract::Memory;
use marlowe_run::{JsonFault, WriteFault, fitting_to_json, json_fault_name, to_json};
use plans::{Funds, NamedContract, NamedThread, Scenario};
use rows_text::{RowFault, put_amounts};
use serde_json::Value as Json;
use std::alloc::Global;

/// What was read. Dropped once: who owns it is generic in it, so that no proof walks through its drop.
pub trait Told: Drop {
    /// Puts a line for each of its parts at the end.
    fn put(&self, alloc: Global, lines: &mut String) -> Result<(), RowFault>;
}

/// What is printed for a text that was read: a line for each part of it, or the name of the fault.
pub fn reading<T: Told>(alloc: Global, read: Result<T, JsonFault>) -> Result<Vec<u8>, RowFault> {
    let mut lines = String::new(alloc);
    match read {
        Ok(thing) => thing.put(alloc, &mut lines)?,
        Err(JsonFault::Memory) => return Err(RowFault::Memory),
        Err(fault) => lines.push_str(json_fault_name(fault))?,
    }
    Ok(lines.into_bytes())
}

impl Told for Scenario {
    fn put(&self, alloc: Global, lines: &mut String) -> Result<(), RowFault> {
        let head = format!(in alloc; "tick {}", self.tick)?;
        lines.push_str(head.as_str())?;
        for funds in self.genesis.as_slice() {
            put_funds(alloc, lines, funds)?;
        }
        put_contracts(alloc, lines, self.contracts.as_slice())?;
        put_threads(alloc, lines, self.threads.as_slice())?;
        for plan in self.plans.as_slice() {
            put_plan(alloc, lines, plan)?;
        }
        Ok(())
    }
}

fn put_funds(alloc: Global, lines: &mut String, funds: &Funds) -> Result<(), Memory> {
    lines.push_str("\ngenesis ")?;
    lines.push_str(funds.address.as_str())?;
    put_amounts(alloc, lines, &funds.amount)
}

fn put_contracts(
    alloc: Global,
    lines: &mut String,
    contracts: &[NamedContract],
) -> Result<(), RowFault> {
    for named in contracts {
        let currency = hex::encode(alloc, named.currency.as_slice())?;
        let head = format!(in alloc; "\ncontract {} {currency} ", named.name.as_str())?;
        lines.push_str(head.as_str())?;
        put_json(alloc, lines, to_json(alloc, &named.contract))?;
    }
    Ok(())
}

fn put_threads(alloc: Global, lines: &mut String, threads: &[NamedThread]) -> Result<(), RowFault> {
    for thread in threads {
        let (name, contract, by) = (thread.name.as_str(), thread.contract, thread.by.as_str());
        let head = format!(in alloc; "\nthread {name} of {contract} by {by} ")?;
        lines.push_str(head.as_str())?;
        let state = fitting_to_json(alloc, &thread.state)?.to_string(alloc)?;
        lines.push_str(state.as_str())?;
    }
    Ok(())
}

/// Puts JSON at the end, as it is written.
pub fn put_json(
    alloc: Global,
    lines: &mut String,
    json: Result<Json, WriteFault>,
) -> Result<(), RowFault> {
    match json {
        Ok(json) => {
            let text = json.to_string(alloc)?;
            lines.push_str(text.as_str())?;
            Ok(())
        }
        Err(WriteFault::Memory) => Err(RowFault::Memory),
        Err(WriteFault::OutOfRange) => Err(RowFault::NoSuchRow),
    }
}
