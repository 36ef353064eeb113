//! How many nodes a contract has.
ghost use Rattle.std.specs.Prelude.{◌≡◌, ◌≤◌, ◌^◌, MatchOption};
ghost use Rattle.contract.specs.Tree.{contract_tree};
ghost use Rattle.compiler.specs.Lowering.Sizes.{conts, others};

use compiler::lowering::{conts_left, others_left};
use contract::Contract;

/// How many continuations a contract has: none where they are 2^32 or more. A table has at most 65,535.
pub fn continuations(contract: &Contract) -> Option<u32>
    ensures { MatchOption result (2 ^ 32 ≤ conts (contract_tree contract.now)) (λ count. count ≡ conts (contract_tree contract.now)) }
{
    let left = conts_left(contract, u32::MAX)?;
    Some(u32::MAX - left)
}

/// How many values, observations and cases a contract has: none where they are 2^32 or more. A table has at most 1,000,000.
pub fn other_nodes(contract: &Contract) -> Option<u32>
    ensures { MatchOption result (2 ^ 32 ≤ others (contract_tree contract.now)) (λ count. count ≡ others (contract_tree contract.now)) }
{
    let left = others_left(contract, u32::MAX)?;
    Some(u32::MAX - left)
}
