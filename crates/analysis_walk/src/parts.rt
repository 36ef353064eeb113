//! Parts of a contract.
ghost use Rattle.std.specs.Prelude.{◌≡◌, if◌then◌else◌, map, option_map};
ghost use Rattle.contract.specs.Tree.{case_tree, case_trees, contract_tree};
ghost use Rattle.analysis_spec.specs.Places.{behind_case, part_behind};

use analysis_spec::PathStep;
use contract::{Case, Contract};

/// The part of a contract that a step leads to: none where the contract has no such part. An action has none.
pub fn part_behind(contract: &Contract, step: PathStep) -> Option<&Contract>
    ensures { option_map (λ c. contract_tree c.now) result ≡ part_behind (contract_tree contract.now) step }
{
    match contract {
        Contract::Close => None,
        Contract::Pay(_, _, _, _, then) | Contract::Let(_, _, then) | Contract::Assert(_, then) =>
            part_if(step == PathStep::Then, then.get()),
        Contract::If(_, then, otherwise) => match step {
            PathStep::Then => Some(then.get()),
            PathStep::Else => Some(otherwise.get()),
            _ => None,
        },
        Contract::When(cases, _, then) => match step {
            PathStep::TimeoutContinuation => Some(then.get()),
            PathStep::Case(index) => behind_case(cases.as_slice(), index),
            _ => None,
        },
    }
}

fn part_if(leads: bool, part: &Contract) -> Option<&Contract>
    ensures { result ≡ (if leads then Some part.entry else None) }
{
    if leads { Some(part) } else { None }
}

fn behind_case(cases: &[Case], index: usize) -> Option<&Contract>
    ensures { option_map (λ c. contract_tree c.now) result ≡ behind_case (case_trees (map case_tree cases.now)) index }
{
    match cases.get(index) {
        Some(case) => Some(&case.then),
        None => None,
    }
}
