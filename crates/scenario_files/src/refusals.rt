//! What is told of a fault.
ghost use Rattle.std.specs.Prelude.{◌≡◌, ◌++◌, codes, IfOk, string_bytes};
ghost use Rattle.marlowe_refusals.specs.Refusals.{json_fault_name};
ghost use Rattle.scenario_files.specs.ScenarioFiles.{files_members, files_refusal, files_status};
ghost use Rattle.scenario_files.specs.declared.fault.FilesFault.TheVariants as faults;

use crate::fault::FilesFault;
use contract::{Memory, Text};
use json_read_names::JsonFault;
use json_write_contracts::term_text;
use marlowe_refusals::json_fault_name;
use std::alloc::Global;

/// The line for a fault, without its line feed: `refused contract NAME FAULT`, where NAME is the contract's name in the scenario, as it is.
pub fn files_refusal(alloc: Global, fault: &FilesFault) -> Result<Vec<u8>, Memory>
    ensures { IfOk result (λ line. line.items ≡ files_refusal fault.now) }
{
    let line = refusal_text(alloc, fault)?;
    Ok(line.into_bytes())
}

fn refusal_text(alloc: Global, fault: &FilesFault) -> Result<String, Memory>
    ensures { IfOk result (λ line. string_bytes line ≡ files_refusal fault.now) }
{
    match fault {
        FilesFault::Contract(name, fault) => contract_line(alloc, name, *fault),
        FilesFault::NotJoined => String::from_str(alloc, "refused scenario NotJoined"),
        FilesFault::Memory => String::from_str(alloc, "refused Memory"),
    }
}

fn contract_line(alloc: Global, name: &Text, fault: JsonFault) -> Result<String, Memory>
    ensures { IfOk result (λ line. string_bytes line ≡ files_refusal (faults.Contract name.now fault)) }
{
    let name = name.as_str();
    let fault = json_fault_name(fault);
    format!(in alloc; "refused contract {name} {fault}")
}

/// The members for a fault, for tools: `of`, `name`, and of a file that is no contract the contract's name in the scenario, `contract`.
pub fn files_members(alloc: Global, fault: &FilesFault) -> Result<Vec<u8>, Memory>
    ensures { IfOk result (λ members. members.items ≡ files_members fault.now) }
{
    let members = members_text(alloc, fault)?;
    Ok(members.into_bytes())
}

fn members_text(alloc: Global, fault: &FilesFault) -> Result<String, Memory>
    ensures { IfOk result (λ members. string_bytes members ≡ files_members fault.now) }
{
    match fault {
        FilesFault::Contract(name, fault) => contract_members(alloc, name, *fault),
        FilesFault::NotJoined => {
            String::from_str(alloc, "\"of\":\"scenario\",\"name\":\"NotJoined\"")
        }
        FilesFault::Memory => String::from_str(alloc, "\"of\":\"memory\",\"name\":\"Memory\""),
    }
}

fn contract_members(alloc: Global, name: &Text, fault: JsonFault) -> Result<String, Memory>
    ensures { IfOk result (λ members. string_bytes members ≡ files_members (faults.Contract name.now fault)) }
{
    let name = term_text(alloc, name)?;
    let fault = json_fault_name(fault);
    format!(in alloc; "\"of\":\"contract\",\"name\":\"{fault}\",\"contract\":{name}")
}

/// The status for a fault, for tools: 4 where a text isn't read, and else 1.
pub fn files_status(fault: &FilesFault) -> u8
    ensures { result ≡ files_status fault.now }
{
    match fault {
        FilesFault::Contract(_, _) | FilesFault::NotJoined => 4,
        FilesFault::Memory => 1,
    }
}
