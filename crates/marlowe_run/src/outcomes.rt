//! The line of an outcome.
ghost use Rattle.std.specs.Prelude.{◌≡◌, [], ◌∷◌, ◌++◌, true, IfOk};
ghost use Rattle.contract.specs.Tree.{contract_tree};
ghost use Rattle.json_write_contracts.specs.WrittenContract.{contract_fits};
ghost use Rattle.marlowe_run.specs.Run.{outcome_line};

use contract::{Contract, Memory, Outcome};
use contract_json::{WriteFault, write_outcome};
use std::alloc::{AllocError, Global};

/// The JSON text of an outcome and a line feed (Marlowe specification version 3, "Compute transaction").
pub fn outcome_line(alloc: Global, outcome: &Outcome<&Contract>) -> Result<Vec<u8>, Memory>
    requires { contract_fits (contract_tree outcome.now.place.now) ≡ true }
    ensures line { IfOk result (λ line. line.items
        ≡ outcome_line outcome.now.warnings outcome.now.payments outcome.now.state (contract_tree outcome.now.place.now)) }
{
    match write_outcome(alloc, outcome) {
        Ok(text) => ended(text),
        Err(WriteFault::Memory) => Err(AllocError),
        Err(WriteFault::OutOfRange) => unreachable!(),
    }
}

// A text and a line feed.
fn ended(text: Vec<u8>) -> Result<Vec<u8>, Memory>
    ensures { IfOk result (λ line. line.items ≡ text.items ++ 10 ∷ []) }
{
    let mut line = text;
    line.push(b'\n')?;
    Ok(line)
}
