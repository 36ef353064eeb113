//! The encode calls. Each answers `Memory` only where a growth of its answer is refused. What was spelled fits, so two
//! values with equal bytes are the same.
ghost use Rattle.std.specs.Prelude.{◌≡◌, IfOk};
ghost use Rattle.contract.specs.Tree.{contract_tree};
ghost use Rattle.contract_bytes.specs.Names.{party_bytes, token_bytes, PartyFits, TokenFits};
ghost use Rattle.contract_bytes.specs.Trees.{contract_bytes, ContractFits};
ghost use Rattle.contract_bytes.specs.Inputs.{input_bytes, InputFits};
ghost use Rattle.contract_bytes.specs.States.{state_bytes, StateFits};

use crate::input::put_input;
use crate::names_of::{put_party, put_token};
use crate::state::put_state;
use crate::tree::put_contract;
use contract::{Contract, Input, Memory, Party, State, Token};
use std::alloc::Global;

/// The spelling of a contract (Marlowe specification version 3, "Contracts", has the forms).
pub fn encode_contract(alloc: Global, contract: &Contract) -> Result<Vec<u8>, Memory>
    ensures spelling { IfOk result (λ bytes. bytes.items ≡ contract_bytes (contract_tree contract.now)) }
    ensures fits { IfOk result (λ bytes. ContractFits (contract_tree contract.now)) }
{
    let mut out = Vec::new(alloc);
    put_contract(&mut out, contract)?;
    Ok(out)
}

/// The spelling of a party (Marlowe specification version 3, "Participants, roles and public keys").
pub fn encode_party(alloc: Global, party: &Party) -> Result<Vec<u8>, Memory>
    ensures spelling { IfOk result (λ bytes. bytes.items ≡ party_bytes party.now) }
    ensures fits { IfOk result (λ bytes. PartyFits party.now) }
{
    let mut out = Vec::new(alloc);
    put_party(&mut out, party)?;
    Ok(out)
}

/// The spelling of a token (Marlowe specification version 3, "Multi-asset token").
pub fn encode_token(alloc: Global, token: &Token) -> Result<Vec<u8>, Memory>
    ensures spelling { IfOk result (λ bytes. bytes.items ≡ token_bytes token.now) }
    ensures fits { IfOk result (λ bytes. TokenFits token.now) }
{
    let mut out = Vec::new(alloc);
    put_token(&mut out, token)?;
    Ok(out)
}

/// The spelling of an input (Marlowe specification version 3, "Actions and inputs").
pub fn encode_input(alloc: Global, input: &Input) -> Result<Vec<u8>, Memory>
    ensures spelling { IfOk result (λ bytes. bytes.items ≡ input_bytes input.now) }
    ensures fits { IfOk result (λ bytes. InputFits input.now) }
{
    let mut out = Vec::new(alloc);
    put_input(&mut out, input)?;
    Ok(out)
}

/// The spelling of a state (Marlowe specification version 3, "State and environment").
pub fn encode_state(alloc: Global, state: &State) -> Result<Vec<u8>, Memory>
    ensures spelling { IfOk result (λ bytes. bytes.items ≡ state_bytes state.now) }
    ensures fits { IfOk result (λ bytes. StateFits state.now) }
{
    let mut out = Vec::new(alloc);
    put_state(&mut out, state)?;
    Ok(out)
}
