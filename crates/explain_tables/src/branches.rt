//! The parts that a contract goes on with.
ghost use Rattle.std.specs.Prelude.{◌≡◌, ◌≤◌, Some, IfSome, map};
ghost use Rattle.contract.specs.Tree.{case_tree, case_trees, contract_tree};
ghost use Rattle.analysis_spec.specs.Places.{part_behind};
ghost use Rattle.explain_tables.specs.Depths.{levels};
ghost use Rattle.explain_tables.specs.DepthsSupport.{IsCase};

use analysis_spec::PathStep;
use contract::{Case, Contract};

/// A part of a contract, and the step that leads there.
#[derive(Clone, Copy)]
pub(crate) struct Branch<'c> {
    pub(crate) step: PathStep,
    pub(crate) part: &'c Contract,
}

/// How many levels a step goes down.
pub(crate) fn levels(step: PathStep) -> u16
    ensures levels { result ≡ levels step }
    ensures few { (1 ≤ result) × (result ≤ 2) }
{
    match step {
        PathStep::Then | PathStep::Else | PathStep::TimeoutContinuation => 1,
        PathStep::Case(_) | PathStep::Action(_) => 2,
    }
}

/// How many parts a contract goes on with.
pub(crate) fn branch_count(contract: &Contract) -> usize {
    match contract {
        Contract::Close => 0,
        Contract::Pay(_, _, _, _, _) | Contract::Let(_, _, _) | Contract::Assert(_, _) => 1,
        Contract::If(_, _, _) => 2,
        Contract::When(cases, _, _) => cases.len().saturating_add(1),
    }
}

/// The one at an index, in their order.
pub(crate) fn branch_at(contract: &Contract, index: usize) -> Option<Branch<'_>>
    ensures { IfSome result (λ branch. part_behind (contract_tree contract.now) branch.step ≡ Some (contract_tree branch.part.now)) }
{
    match contract {
        Contract::Close => None,
        Contract::Pay(_, _, _, _, then) | Contract::Let(_, _, then) | Contract::Assert(_, then) => {
            Some(Branch {
                step: PathStep::Then,
                part: then.get(),
            })
        }
        Contract::If(_, then, otherwise) => {
            if index == 0 {
                Some(Branch {
                    step: PathStep::Then,
                    part: then.get(),
                })
            } else {
                Some(Branch {
                    step: PathStep::Else,
                    part: otherwise.get(),
                })
            }
        }
        Contract::When(cases, _, then) => match case_at(cases.as_slice(), index) {
            Some(branch) => Some(branch),
            None => Some(Branch {
                step: PathStep::TimeoutContinuation,
                part: then.get(),
            }),
        },
    }
}

// What follows the case at an index.
fn case_at(cases: &[Case], index: usize) -> Option<Branch<'_>>
    ensures { IfSome result (IsCase (case_trees (map case_tree cases.now))) }
{
    if index < cases.len() {
        Some(Branch {
            step: PathStep::Case(index),
            part: &cases[index].then,
        })
    } else {
        None
    }
}
