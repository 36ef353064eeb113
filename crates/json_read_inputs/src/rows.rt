//! Maps as lists of rows, each a list of a key and a number.
ghost use Rattle.std.specs.Prelude.{◌≡◌, ℤ, map, IfOk, IfErr};
ghost use Rattle.std.proofs.Math.Dec.{T};
ghost use Rattle.std.specs.FinMap.{IsAntisymmetric, from_sorted, is_sorted};
ghost use Rattle.contract.specs.Collections.Answers.{Aside, AsideBy};
ghost use Rattle.contract.proofs.FromNames.Exact.{bytes_exact, token_exact, account_exact, choice_id_exact};
ghost use Rattle.serde_json.specs.Data.{Data};
ghost use Rattle.json_read_names.specs.Parts.{Reading};
ghost use Rattle.json_read_names.specs.declared.fault.JsonFault.TheVariants as faults;
ghost use Rattle.json_read_inputs.specs.ReadsState as reads;
ghost use Rattle.json_read_inputs.specs.Rows.{number_by, rows_until_fault};

use crate::numbers::{Numbers, read_number};
use contract::{Account, ChoiceId, Entries, Text, Token};
use json_read_names::{
    JsonFault, choice_id_from_json, pair, party_from_json, read_text, token_from_json,
};
use json_tree::JsonValue;
use std::alloc::Global;

// A key of a map, by how a row of the map is read.
pub(crate) trait RowKey: Ord {
    // What a row stands for, by the reading of its number.
    ghost reading: { (Data → Reading ℤ) → Data → Reading (Self × ℤ) };

    fn row_from_json<J: JsonValue>(
        alloc: Global,
        json: &J,
        numbers: Numbers,
    ) -> Result<(Self, i128), JsonFault>
        ensures { Aside JsonFault.Memory result (reading (number_by numbers) (J.json json.now)) };

    // Only equal keys tie.
    ghost exact: { IsAntisymmetric Self.cmp };
}

fn account_from_json<J: JsonValue>(alloc: Global, json: &J) -> Result<Account, JsonFault>
    ensures { Aside JsonFault.Memory result (reads.account (J.json json.now)) }
{
    let (owner, token) = pair(json)?;
    let owner = party_from_json(alloc, owner)?;
    let token = token_from_json(alloc, token)?;
    Ok(Account { owner, token })
}

impl RowKey for Account {
    ghost reading = { reads.account_row_by };

    #[tactic(auto, unfolding(crate::specs::ReadsState::account_row_by))]
    fn row_from_json<J: JsonValue>(
        alloc: Global,
        json: &J,
        numbers: Numbers,
    ) -> Result<(Account, i128), JsonFault> {
        let (key, number) = pair(json)?;
        let account = account_from_json(alloc, key)?;
        let amount = read_number(alloc, number, numbers)?;
        if amount > 0 {
            Ok((account, amount))
        } else {
            Err(JsonFault::BadState)
        }
    }

    ghost exact = { account_exact };
}

impl RowKey for Token {
    ghost reading = { reads.amount_row_by };

    #[tactic(auto, unfolding(crate::specs::ReadsState::amount_row_by))]
    fn row_from_json<J: JsonValue>(
        alloc: Global,
        json: &J,
        numbers: Numbers,
    ) -> Result<(Token, i128), JsonFault> {
        let (key, number) = pair(json)?;
        let token = token_from_json(alloc, key)?;
        let amount = read_number(alloc, number, numbers)?;
        if amount > 0 {
            Ok((token, amount))
        } else {
            Err(JsonFault::BadState)
        }
    }

    ghost exact = { token_exact };
}

impl RowKey for ChoiceId {
    ghost reading = { reads.choice_row_by };

    #[tactic(auto, unfolding(crate::specs::ReadsState::choice_row_by))]
    fn row_from_json<J: JsonValue>(
        alloc: Global,
        json: &J,
        numbers: Numbers,
    ) -> Result<(ChoiceId, i128), JsonFault> {
        let (key, number) = pair(json)?;
        let id = choice_id_from_json(alloc, key)?;
        let number = read_number(alloc, number, numbers)?;
        Ok((id, number))
    }

    ghost exact = { choice_id_exact };
}

impl RowKey for Text {
    ghost reading = { reads.bound_row_by };

    #[tactic(auto, unfolding(crate::specs::ReadsState::bound_row_by))]
    fn row_from_json<J: JsonValue>(
        alloc: Global,
        json: &J,
        numbers: Numbers,
    ) -> Result<(Text, i128), JsonFault> {
        let (key, number) = pair(json)?;
        let name = read_text(alloc, key)?;
        let value = read_number(alloc, number, numbers)?;
        Ok((name, value))
    }

    ghost exact = { bytes_exact };
}

// The rows up to the first that stands for nothing, and its fault.
fn rows_until_fault<J: JsonValue, K: RowKey + Drop>(
    alloc: Global,
    items: &[J],
    numbers: Numbers,
) -> Result<(Vec<(K, i128)>, Option<JsonFault>), JsonFault>
    ensures ok { IfOk result (λ read. (read.0.items, read.1) ≡ rows_until_fault (K.reading (number_by numbers)) (map J.json items.now)) }
    ensures err { IfErr result (λ fault. fault ≡ faults.Memory) }
{
    let mut rows = Vec::with_capacity(alloc, items.len())?;
    for item in items {
        match K::row_from_json(alloc, item, numbers) {
            Ok(row) => rows.push(row)?,
            Err(JsonFault::Memory) => return Err(JsonFault::Memory),
            Err(fault) => return Ok((rows, Some(fault))),
        }
    }
    Ok((rows, None))
}

// The map of a list of rows. All rows are read before their keys are compared, in n log n steps.
pub(crate) fn entries_from_json<J: JsonValue, K: RowKey + Drop>(
    alloc: Global,
    json: &J,
    numbers: Numbers,
) -> Result<Entries<K, i128>, JsonFault>
    ensures reading { AsideBy JsonFault.Memory from_sorted result (reads.rows K.cmp (K.reading (number_by numbers)) (J.json json.now)) }
    ensures sorted { IfOk result (λ entries. T (is_sorted K.cmp entries)) }
{
    let items = json.items().ok_or(JsonFault::NoForm)?;
    let (rows, fault) = rows_until_fault::<J, K>(alloc, items, numbers)?;
    match Entries::from_vec(rows) {
        None => Err(JsonFault::BadState),
        Some(entries) => match fault {
            None => Ok(entries),
            Some(fault) => Err(fault),
        },
    }
}
