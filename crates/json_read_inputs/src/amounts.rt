//! What accounts hold and amounts of tokens as JSON values: all above 0.
ghost use Rattle.std.specs.Prelude.{IfOk};
ghost use Rattle.std.specs.FinMap.{from_sorted};
ghost use Rattle.contract.specs.Collections.Answers.{AsideBy};
ghost use Rattle.contract.specs.Collections.Positive.{AllPositive};
ghost use Rattle.contract.specs.Names.Orders.{account_cmp, token_cmp};
ghost use Rattle.json_read_inputs.specs.ReadsState as reads;
ghost use Rattle.json_read_inputs.specs.Rows.{accounts_by};

use crate::numbers::Numbers;
use crate::rows::entries_from_json;
use contract::{Account, Entries, Token};
use json_read_names::JsonFault;
use json_tree::JsonValue;
use std::alloc::Global;

// What accounts hold, by the reading of a number.
pub(crate) fn accounts_by<J: JsonValue>(
    alloc: Global,
    json: &J,
    numbers: Numbers,
) -> Result<Entries<Account, i128>, JsonFault>
    ensures reading { AsideBy JsonFault.Memory from_sorted result (accounts_by numbers (J.json json.now)) }
    ensures positive { IfOk result AllPositive }
{
    let accounts = entries_from_json::<J, Account>(alloc, json, numbers)?;
    Ok(accounts)
}

/// What accounts hold, above 0 and in the token's smallest unit, by the list that a JSON value is: of each account its
/// party, its token and the number. A number of 0 or less, or an account that is given twice, is `BadState`.
pub fn accounts_from_json<J: JsonValue>(
    alloc: Global,
    json: &J,
) -> Result<Entries<Account, i128>, JsonFault>
    ensures reading { AsideBy JsonFault.Memory from_sorted result (reads.rows account_cmp reads.account_row (J.json json.now)) }
    ensures positive { IfOk result AllPositive }
{
    accounts_by(alloc, json, Numbers::Whole)
}

/// The amounts of tokens, above 0 and in the token's smallest unit, by the list that a JSON value is: of each token
/// itself and the number. A number of 0 or less, or a token that is given twice, is `BadState`.
pub fn amounts_from_json<J: JsonValue>(
    alloc: Global,
    json: &J,
) -> Result<Entries<Token, i128>, JsonFault>
    ensures reading { AsideBy JsonFault.Memory from_sorted result (reads.rows token_cmp reads.amount_row (J.json json.now)) }
    ensures positive { IfOk result AllPositive }
{
    let amounts = entries_from_json::<J, Token>(alloc, json, Numbers::Whole)?;
    Ok(amounts)
}
