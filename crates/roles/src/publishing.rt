//! Publishing.
ghost use Rattle.std.specs.Prelude.{◌≡◌, IfOk};
ghost use Rattle.contract.specs.Tree.{contract_tree};
ghost use Rattle.compiler.specs.Limits.{compile_fault, IsRefusedBy};
ghost use Rattle.roles.specs.Publications.{script_id, published_of, IsTableOf};

use crate::laws::published_are_tables;
use crate::published::Published;
use compiler::{CompileFault, compile};
use contract::{Bytes, Contract, Memory};
use eutxo::{encode_contract, put_bytes};
use sha2::{Digest, Sha256};
use std::alloc::Global;

/// The id of a contract's script under a currency: the SHA-256 of the contract's spelling and then the
/// currency's, which begins with its length in 8 bytes.
#[tactic(auto, unfolding(crate::specs::Publications::script_id))]
fn script_id(alloc: Global, contract: &Contract, currency: &Bytes) -> Result<[u8; 32], Memory>
    ensures { IfOk result (λ id. id ≡ script_id (contract_tree contract.now) currency.now) }
{
    let mut bytes = encode_contract(alloc, contract)?;
    put_bytes(&mut bytes, currency)?;
    Ok(Sha256::digest(bytes.as_slice()))
}

/// Publishes a contract with the currency symbol of its roles' tokens (Marlowe specification version 3,
/// "Participants, roles and public keys"; The Extended UTXO Model, "Extended UTXO model: EUTXO", on
/// scripts and their addresses). Refused is a contract that isn't compiled: one that is higher than 999
/// (`TooDeep`), else one of more than 65,535 continuations or more than 1,000,000 values, observations
/// and cases (`TooManyNodes`). Else only a growth that was refused gives `Memory`. The root stands for the contract, and
/// what is published is a table: who calls this need not know how a contract is compiled.
pub fn publish(
    alloc: Global,
    contract: &Contract,
    currency: Bytes,
) -> Result<Published, CompileFault>
    ensures fault { IsRefusedBy (compile_fault (contract_tree contract.now)) result }
    ensures published { IfOk result (λ published. published ≡ published_of (contract_tree contract.now) currency) }
    ensures table { IfOk result (IsTableOf (contract_tree contract.now)) }
{
    // touch: what is published is a table
    published_are_tables();
    let (table, root) = compile(alloc, contract)?;
    let id = script_id(alloc, contract, &currency)?;
    Ok(Published {
        id,
        table,
        root,
        currency,
    })
}
