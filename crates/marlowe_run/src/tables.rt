//! The table of a contract, from text to text.
ghost use Rattle.contract.specs.Collections.Answers.{AsideBy};
ghost use Rattle.contract.specs.Tree.{contract_tree};
ghost use Rattle.marlowe_run.specs.TableText.{printed_table, table_text, table_text_within};

use crate::dropped::beside_dropped;
use compiler::compile;
use contract::Contract;
use contract_json::read_contract_within;
use marlowe_refusals::TableFault;
use std::alloc::Global;
use table_lines::table_lines;

/// Compiles a contract, as a JSON text of at most 1,048,576 bytes, and gives the text of its table: a line for each node,
/// and one for the root. Refused is a text that is no contract, and a contract that `compile` refuses.
pub fn table_text(alloc: Global, contract: &[u8]) -> Result<Vec<u8>, TableFault>
    ensures { AsideBy TableFault.Memory (λ text. text.items) result (table_text contract.now) }
{
    table_text_within(alloc, contract, 127)
}

/// The same of a contract whose lists and objects nest no deeper than `depth`: `table_text` has 127. What `compile` takes is fixed.
#[tactic(auto, unfolding(crate::specs::TableText::table_text_within))]
pub fn table_text_within(
    alloc: Global,
    contract: &[u8],
    depth: usize,
) -> Result<Vec<u8>, TableFault>
    ensures { AsideBy TableFault.Memory (λ text. text.items) result (table_text_within depth contract.now) }
{
    match read_contract_within(alloc, contract, depth) {
        Ok(contract) => {
            let text = printed_table(alloc, &contract);
            beside_dropped(contract, text)
        }
        Err(fault) => Err(TableFault::of_contract(fault)),
    }
}

/// The text of a contract's table, or why `compile` refuses it.
pub fn printed_table(alloc: Global, contract: &Contract) -> Result<Vec<u8>, TableFault>
    ensures { AsideBy TableFault.Memory (λ text. text.items) result (printed_table (contract_tree contract.now)) }
{
    let (table, root) = compile(alloc, contract)?;
    let text = table_lines(alloc, &table, root)?;
    Ok(text)
}
