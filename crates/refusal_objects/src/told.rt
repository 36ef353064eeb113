//! What is told of a fault.
ghost use Rattle.std.specs.Prelude.{◌≡◌, IfOk};
ghost use Rattle.refusal_objects.specs.Objects.{fault_members, fault_status, numbered, run_members, run_status, table_members, table_status, trace_members, trace_status};

use crate::objects::named_members;
use contract::Memory;
use marlowe_refusals::{
    Fault, RunFault, TableFault, TraceFault, compile_fault_name, json_fault_name, sem_fault_name,
    write_fault_name,
};
use std::alloc::Global;

/// The members for a fault: `of` and `name`, and of one of many transactions its `number`, from 1.
pub fn members(alloc: Global, fault: &Fault) -> Result<Vec<u8>, Memory>
    ensures { IfOk result (λ members. members.items ≡ fault_members fault.now) }
{
    match fault {
        Fault::Run(fault) => run_members(alloc, fault),
        Fault::Table(fault) => table_members(alloc, fault),
        Fault::Trace(fault) => trace_members(alloc, fault),
    }
}

fn run_members(alloc: Global, fault: &RunFault) -> Result<Vec<u8>, Memory>
    ensures { IfOk result (λ members. members.items ≡ run_members fault.now) }
{
    match fault {
        RunFault::Contract(fault) => named_members(alloc, "contract", json_fault_name(*fault)),
        RunFault::State(fault) => named_members(alloc, "state", json_fault_name(*fault)),
        RunFault::Transaction(fault) => {
            named_members(alloc, "transaction", json_fault_name(*fault))
        }
        RunFault::Semantics(fault) => named_members(alloc, "transaction", sem_fault_name(*fault)),
        RunFault::Write(fault) => named_members(alloc, "outcome", write_fault_name(*fault)),
        RunFault::Memory => named_members(alloc, "memory", "Memory"),
    }
}

fn table_members(alloc: Global, fault: &TableFault) -> Result<Vec<u8>, Memory>
    ensures { IfOk result (λ members. members.items ≡ table_members fault.now) }
{
    match fault {
        TableFault::Contract(fault) => named_members(alloc, "contract", json_fault_name(*fault)),
        TableFault::Compile(fault) => named_members(alloc, "table", compile_fault_name(*fault)),
        TableFault::Memory => named_members(alloc, "memory", "Memory"),
    }
}

fn trace_members(alloc: Global, fault: &TraceFault) -> Result<Vec<u8>, Memory>
    ensures { IfOk result (λ members. members.items ≡ trace_members fault.now) }
{
    match fault {
        TraceFault::Run(fault) => run_members(alloc, fault),
        TraceFault::Text(number, fault) => numbered(alloc, *number, json_fault_name(*fault)),
        TraceFault::TooMany => numbered(alloc, 10_001, "TooMany"),
        TraceFault::Refused(number, fault) => numbered(alloc, *number, sem_fault_name(*fault)),
    }
}

fn numbered(alloc: Global, number: u64, name: &str) -> Result<Vec<u8>, Memory>
    ensures { IfOk result (λ members. members.items ≡ numbered number name.now) }
{
    let members = format!(in alloc;
        "\"of\":\"transaction\",\"name\":\"{name}\",\"number\":{number}"
    )?;
    Ok(members.into_bytes())
}

/// The status for a fault, for tools: 4 where a text isn't read, and else 1.
pub fn status(fault: &Fault) -> u8
    ensures { result ≡ fault_status fault.now }
{
    match fault {
        Fault::Run(fault) => run_status(fault),
        Fault::Table(fault) => table_status(fault),
        Fault::Trace(fault) => trace_status(fault),
    }
}

fn run_status(fault: &RunFault) -> u8
    ensures { result ≡ run_status fault.now }
{
    match fault {
        RunFault::Contract(_) | RunFault::State(_) | RunFault::Transaction(_) => 4,
        RunFault::Semantics(_) | RunFault::Write(_) | RunFault::Memory => 1,
    }
}

fn table_status(fault: &TableFault) -> u8
    ensures { result ≡ table_status fault.now }
{
    match fault {
        TableFault::Contract(_) => 4,
        TableFault::Compile(_) | TableFault::Memory => 1,
    }
}

fn trace_status(fault: &TraceFault) -> u8
    ensures { result ≡ trace_status fault.now }
{
    match fault {
        TraceFault::Run(fault) => run_status(fault),
        TraceFault::Text(_, _) | TraceFault::TooMany => 4,
        TraceFault::Refused(_, _) => 1,
    }
}
