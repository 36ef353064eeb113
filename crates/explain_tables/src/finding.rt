//! A second look at a contract that has no table.
ghost use Rattle.std.specs.Prelude.{◌≤◌, IfOk, MatchOption};
ghost use Rattle.contract.specs.Tree.{contract_tree};
ghost use Rattle.compiler.specs.Table.Heights.{contract_height};
ghost use Rattle.explain_tables.specs.Explained.{Explains, IsUntold};

use crate::counts::{continuations, other_nodes};
use crate::depths::too_deep_at;
use crate::explanation::Explanation;
use compiler::lowering::is_low_contract;
use contract::{Contract, Memory};
use std::alloc::Global;

// The limits of a table.
const MOST_CONTINUATIONS: u32 = 65535;

const MOST_OTHERS: u32 = 1000000;

/// Why a contract has no table: it is too deep, or has too many nodes. None where it has one, or where its nodes are 2^32 or more. Goes
/// at most 1,000 deep into the contract, and takes memory for a place alone.
pub fn explain(alloc: Global, contract: &Contract) -> Result<Option<Explanation>, Memory>
    ensures { IfOk result (λ found. MatchOption found (IsUntold (contract_tree contract.now)) (Explains (contract_tree contract.now))) }
{
    if is_low_contract(contract, 999) {
        Ok(too_many(contract))
    } else {
        let place = too_deep_at(alloc, contract)?;
        Ok(Some(Explanation::Deep(place)))
    }
}

// How many nodes a contract has that isn't too deep, if these are too many.
fn too_many(contract: &Contract) -> Option<Explanation>
    requires { contract_height (contract_tree contract.now) ≤ 999 }
    ensures { MatchOption result (IsUntold (contract_tree contract.now)) (Explains (contract_tree contract.now)) }
{
    let count = continuations(contract)?;
    if count > MOST_CONTINUATIONS {
        return Some(Explanation::Continuations(count));
    }
    let count = other_nodes(contract)?;
    if count > MOST_OTHERS {
        Some(Explanation::Others(count))
    } else {
        None
    }
}
