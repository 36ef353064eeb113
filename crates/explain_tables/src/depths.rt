//! Where a contract is too deep.
ghost use Rattle.std.specs.Prelude.{◌≡◌, ◌+◌, ◌<◌, ◌≤◌, IfOk, MatchOption, map};
ghost use Rattle.contract.specs.Tree.{case_tree, case_trees, contract_tree};
ghost use Rattle.compiler.specs.Table.Heights.{contract_height};
ghost use Rattle.explain_tables.specs.Depths.{levels, NoneIsHigh, IsTooDeepAt};
ghost use Rattle.explain_tables.specs.DepthsSupport.{IsHighCase, LeadsHigh, NoCaseIsHigh};

use crate::branches::{Branch, levels};
use crate::strides::{Way, leap};
use analysis_spec::PathStep;
use compiler::lowering::is_low_contract;
use contract::{Case, Contract, Items, Memory};
use std::alloc::Global;

/// The place of a contract that is higher than 999 at which it is too deep: the way goes down to a part that is too high for the room
/// that is left, until the room is used up, or no part behind it is: then it is a value or an observation of the part there. The way goes
/// by strides of 512 levels, then of 256 and so on. So each part is looked at some ten times, however deep it stands.
pub fn too_deep_at(alloc: Global, contract: &Contract) -> Result<Items<PathStep>, Memory>
    requires { 999 < contract_height (contract_tree contract.now) }
    ensures { IfOk result (IsTooDeepAt (contract_tree contract.now)) }
{
    let mut way = Way {
        path: Items::new(alloc),
        part: contract,
        room: 999,
    };
    let mut stride: u16 = 512;
    'far: while stride > 0 {
        way = leap(alloc, way, stride)?;
        stride /= 2;
    }
    let Way {
        mut path,
        part: mut at,
        mut room,
    } = way;
    'way: while let Some(high) = high_part(at, room) {
        path.push(high.step)?;
        let down = levels(high.step);
        if down > room {
            return Ok(path);
        }
        room -= down;
        at = high.part;
    }
    Ok(path)
}

// The first part behind a contract that is higher than the room, if there is one.
fn high_part(contract: &Contract, room: u16) -> Option<Branch<'_>>
    ensures { MatchOption result (NoneIsHigh room (contract_tree contract.now)) (LeadsHigh room (contract_tree contract.now)) }
{
    match contract {
        Contract::Close => None,
        Contract::Pay(_, _, _, _, then) | Contract::Let(_, _, then) | Contract::Assert(_, then) => {
            if_high(PathStep::Then, then.get(), room)
        }
        Contract::If(_, then, otherwise) => match if_high(PathStep::Then, then.get(), room) {
            Some(high) => Some(high),
            None => if_high(PathStep::Else, otherwise.get(), room),
        },
        Contract::When(cases, _, then) => match high_case(cases.as_slice(), room) {
            Some(high) => Some(high),
            None => if_high(PathStep::TimeoutContinuation, then.get(), room),
        },
    }
}

// A part, if it is higher than the room below its contract.
fn if_high(step: PathStep, part: &Contract, room: u16) -> Option<Branch<'_>>
    ensures { MatchOption result (levels step + contract_height (contract_tree part.now) ≤ room)
        (λ high. (high ≡ record { step = step; part = part.entry }) × (room < levels step + contract_height (contract_tree part.now))) }
{
    let down = levels(step);
    if down <= room && is_low_contract(part, room - down) {
        None
    } else {
        Some(Branch { step, part })
    }
}

// What follows the first case that is higher than the room, if there is one.
fn high_case(cases: &[Case], room: u16) -> Option<Branch<'_>>
    ensures { MatchOption result (NoCaseIsHigh room (case_trees (map case_tree cases.now)))
        (IsHighCase room (case_trees (map case_tree cases.now))) }
{
    for index in 0..cases.len() {
        if let Some(high) = if_high(PathStep::Case(index), &cases[index].then, room) {
            return Some(high);
        }
    }
    None
}
