//! One reading behind the transactions so far.
ghost use Rattle.std.specs.Prelude.{◌≡◌, [], ◌∷◌};
ghost use Rattle.contract.specs.Collections.Answers.{Aside};
ghost use Rattle.contract.specs.declared.transaction.Transaction.{Transaction};
ghost use Rattle.json_read_names.specs.Parts.{Reading};
ghost use Rattle.json_read_names.specs.declared.fault.JsonFault.TheVariants as json;
ghost use Rattle.json_read_transactions.specs.TakingSupport.{Takes};

use crate::fault::ReadFault;
use contract::{Items, Transaction};
use json_read_names::JsonFault;

/// How many transactions are read at most.
pub const MOST: usize = 10_000;

// Puts what was read behind the transactions, or tells its fault by its number; or that it is one too many.
pub(crate) fn put_reading(
    transactions: &mut Items<Transaction>,
    reading: Result<Transaction, JsonFault>,
) -> Result<(), ReadFault>
    ensures { (answer : Reading Transaction) → Aside json.Memory reading answer
        → Takes (answer ∷ []) transactions.old transactions.new result }
{
    match reading {
        Err(JsonFault::Memory) => Err(ReadFault::Memory),
        _ if transactions.len() >= MOST => Err(ReadFault::TooMany),
        Ok(transaction) => {
            transactions.push(transaction)?;
            Ok(())
        }
        Err(fault) => Err(ReadFault::Text(transactions.len() as u64 + 1, fault)),
    }
}
