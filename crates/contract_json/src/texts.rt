//! From a text to its reading, and from a value to its text.
ghost use Rattle.std.specs.Prelude.{◌≡◌, ◌≤◌, length, IfOk, Ok};
ghost use Rattle.contract.specs.Collections.Answers.{Aside, AsideBy};
ghost use Rattle.serde_json.specs.Data.{depth};
ghost use Rattle.serde_json.specs.Read.{max_depth};
ghost use Rattle.serde_json.specs.Written.{compact_text};
ghost use Rattle.contract.specs.Tree.{contract_tree};
ghost use Rattle.json_read_names.specs.ReadsText.{of_text, of_text_within};
ghost use Rattle.json_read_contracts.specs.ReadsContract as contract_reads;
ghost use Rattle.json_read_inputs.specs.ReadsInput as input_reads;
ghost use Rattle.json_read_inputs.specs.ReadsState as state_reads;
ghost use Rattle.json_write_contracts.specs.WrittenContract.{contract_fits};
ghost use Rattle.json_write_contracts.specs.Written.{in_range};
ghost use Rattle.json_write_outcomes.specs.WrittenOutcome.{outcome_json};
ghost use Rattle.contract_json.specs.ReadsOutcome.{state_of_outcome};
ghost use Rattle.contract_json.specs.WrittenText.{contract_text, IsReadBack};

use crate::put_json::text_of;
use crate::read_back::state_is_read_back;
use contract::{Contract, Input, Outcome, State, Transaction};
use json::Scratch;
use json_read_contracts::contract_from_json;
use json_read_inputs::{
    input_from_json, state_from_json, state_with_texts_from_json, transaction_from_json,
};
use json_read_names::{JsonFault, json_of, json_within};
use json_write_contracts::WriteFault;
use std::alloc::Global;

/// Reads the text of a contract.
pub fn read_contract(alloc: Global, text: &[u8]) -> Result<Contract, JsonFault>
    ensures reading { Aside JsonFault.Memory result (of_text contract_reads.contract text.now) }
{
    let mut scratch = Scratch::new(alloc);
    let json = json_of(alloc, text, &mut scratch)?;
    contract_from_json(alloc, &json)
}

/// Reads the text of a contract whose lists and objects nest no deeper than `depth`: `read_contract` has 127. Each level takes stack, as
/// the text is read and as the contract is dropped.
pub fn read_contract_within(alloc: Global, text: &[u8], depth: usize) -> Result<Contract, JsonFault>
    ensures reading { Aside JsonFault.Memory result (of_text_within depth contract_reads.contract text.now) }
{
    let mut scratch = Scratch::new(alloc);
    let json = json_within(alloc, text, &mut scratch, depth)?;
    contract_from_json(alloc, &json)
}

/// Reads the text of an input.
pub fn read_input(alloc: Global, text: &[u8]) -> Result<Input, JsonFault>
    ensures reading { Aside JsonFault.Memory result (of_text input_reads.input text.now) }
{
    let mut scratch = Scratch::new(alloc);
    let json = json_of(alloc, text, &mut scratch)?;
    input_from_json(alloc, &json)
}

/// Reads the text of a transaction.
pub fn read_transaction(alloc: Global, text: &[u8]) -> Result<Transaction, JsonFault>
    ensures reading { Aside JsonFault.Memory result (of_text input_reads.transaction text.now) }
{
    let mut scratch = Scratch::new(alloc);
    let json = json_of(alloc, text, &mut scratch)?;
    transaction_from_json(alloc, &json)
}

/// Reads the text of a state.
pub fn read_state(alloc: Global, text: &[u8]) -> Result<State, JsonFault>
    ensures reading { Aside JsonFault.Memory result (of_text state_reads.state text.now) }
{
    let mut scratch = Scratch::new(alloc);
    let json = json_of(alloc, text, &mut scratch)?;
    state_from_json(alloc, &json)
}

/// Reads the text of a state, in which a number of an account, a choice or a bound value may also be the text of a number from
/// -2^127 to 2^127 - 1: its decimal digits as they are written, with `-` before one below 0. Another text is `NoForm`.
pub fn read_state_with_texts(alloc: Global, text: &[u8]) -> Result<State, JsonFault>
    ensures reading { Aside JsonFault.Memory result (of_text state_reads.state_with_texts text.now) }
{
    let mut scratch = Scratch::new(alloc);
    let json = json_of(alloc, text, &mut scratch)?;
    state_with_texts_from_json(alloc, &json)
}

/// The text of a contract: compact, with each object's keys in the order of their bytes.
pub fn write_contract(alloc: Global, contract: &Contract) -> Result<Vec<u8>, WriteFault>
    ensures written { AsideBy WriteFault.Memory (λ text. text.items) result (contract_text (contract_tree contract.now)) }
    ensures reads_back { IfOk result (λ text. IsReadBack contract.now text.items) }
{
    let text = text_of(alloc, contract)?;
    Ok(text)
}

/// The text of an outcome: compact, with each object's keys in the order of their bytes. A number of
/// the payments, the warnings and the state that JSON doesn't have is a text of its decimal digits. The state is read as it
/// was, where texts may be numbers.
pub fn write_outcome(alloc: Global, outcome: &Outcome<&Contract>) -> Result<Vec<u8>, WriteFault>
    ensures written { AsideBy WriteFault.Memory (λ text. text.items) result (in_range (contract_fits (contract_tree outcome.now.place.now))
        (compact_text (outcome_json outcome.now.warnings outcome.now.payments outcome.now.state (contract_tree outcome.now.place.now)))) }
    ensures reads_back { IfOk result (λ text. length text.items ≤ 1048576
        → depth (outcome_json outcome.now.warnings outcome.now.payments outcome.now.state (contract_tree outcome.now.place.now)) ≤ max_depth
        → of_text state_of_outcome text.items ≡ Ok outcome.now.state) }
{
    // touch: the state that is written is read
    state_is_read_back(&outcome.state);
    let text = text_of(alloc, outcome)?;
    Ok(text)
}
