//! The limits of a contract that is compiled. No memory is taken, and no walk goes deeper than the limit.
ghost use Rattle.std.specs.Prelude.{◌≡◌};
ghost use Rattle.contract.specs.Tree.{contract_tree};
ghost use Rattle.compiler.specs.Limits.{compile_fault};

use crate::fault::CompileFault;
use contract::Contract;
use lowering::{conts_left, is_low_contract, others_left};

/// The fault of a contract that is too deep or has too many nodes.
#[tactic(auto, unfolding(crate::specs::Limits::compile_fault))]
pub(crate) fn limit_fault(contract: &Contract) -> Option<CompileFault>
    ensures { result ≡ compile_fault (contract_tree contract.now) }
{
    if !is_low_contract(contract, 999) {
        return Some(CompileFault::TooDeep);
    }
    if conts_left(contract, 65535).is_some() && others_left(contract, 1000000).is_some() {
        None
    } else {
        Some(CompileFault::TooManyNodes)
    }
}
