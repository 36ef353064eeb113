//! Compiling.
ghost use Rattle.std.specs.Prelude.{◌≡◌, IfOk};
ghost use Rattle.contract.specs.Tree.{contract_tree};
ghost use Rattle.table.specs.Flat.{Has, a_cont, cont_tree};
ghost use Rattle.lowering.specs.Code.{code};
ghost use Rattle.compiler.specs.Limits.{compile_fault, IsRefusedBy};

use crate::fault::CompileFault;
use crate::limits::limit_fault;
use contract::Contract;
use lowering::{codes_stand, lower};
use std::alloc::Global;
use table::{Cont, Table};

/// The table of a contract, and the number of its root, which stands for the contract. Refused is a tree that is higher
/// than 999 (`TooDeep`), else one of more than 65,535 continuations or more than 1,000,000 values, observations and
/// cases (`TooManyNodes`): that is judged first, takes no memory, and goes at most 1,000 deep into any tree. Else only
/// a growth that was refused gives `Memory`. Equal contracts give equal tables.
#[tactic(auto, unfolding(crate::specs::Limits::compile_fault))]
pub fn compile(alloc: Global, contract: &Contract) -> Result<(Table, Cont), CompileFault>
    ensures fault { IsRefusedBy (compile_fault (contract_tree contract.now)) result }
    ensures code { IfOk result (λ made. made ≡ code (contract_tree contract.now)) }
    ensures stands { IfOk result (λ made. Has made.0 (a_cont made.1.0)) }
    ensures tree { IfOk result (λ made. cont_tree made.0 made.1.0 ≡ contract_tree contract.now) }
{
    if let Some(fault) = limit_fault(contract) {
        return Err(fault);
    }
    let (table, root) = lower(alloc, contract)?;
    // touch: what is made stands for the contract
    codes_stand();
    Ok((table, root))
}
