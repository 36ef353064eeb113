//! What the members at keys stand for. A member and its reading have one way out.
ghost use Rattle.std.specs.Prelude.{IfOk};
ghost use Rattle.std.proofs.Math.Dec.{T};
ghost use Rattle.std.specs.FinMap.{from_sorted, is_sorted};
ghost use Rattle.contract.specs.Collections.Answers.{Aside, AsideBy};
ghost use Rattle.contract.specs.Collections.Positive.{AllPositive};
ghost use Rattle.json_read_names.specs.Parts.{reading_at, time, whole_number};
ghost use Rattle.json_read_names.specs.ReadsNames.{choice_id, party, token};
ghost use Rattle.json_read_inputs.specs.ReadsState as reads;
ghost use Rattle.json_read_inputs.specs.Rows.{accounts_by, number_by};

use crate::amounts::accounts_by;
use crate::numbers::Numbers;
use crate::rows::{RowKey, entries_from_json};
use contract::{Account, ChoiceId, Entries, Party, Token};
use json_read_names::{
    JsonFault, choice_id_from_json, member, party_from_json, read_time, read_whole, token_from_json,
};
use json_tree::JsonValue;
use std::alloc::Global;

pub(crate) fn party_at<J: JsonValue>(alloc: Global, json: &J, key: &str) -> Result<Party, JsonFault>
    ensures { Aside JsonFault.Memory result (reading_at party (J.json json.now) key.now) }
{
    party_from_json(alloc, member(json, key)?)
}

pub(crate) fn token_at<J: JsonValue>(alloc: Global, json: &J, key: &str) -> Result<Token, JsonFault>
    ensures { Aside JsonFault.Memory result (reading_at token (J.json json.now) key.now) }
{
    token_from_json(alloc, member(json, key)?)
}

pub(crate) fn choice_id_at<J: JsonValue>(
    alloc: Global,
    json: &J,
    key: &str,
) -> Result<ChoiceId, JsonFault>
    ensures { Aside JsonFault.Memory result (reading_at choice_id (J.json json.now) key.now) }
{
    choice_id_from_json(alloc, member(json, key)?)
}

pub(crate) fn whole_at<J: JsonValue>(json: &J, key: &str) -> Result<i128, JsonFault>
    ensures { Aside JsonFault.Memory result (reading_at whole_number (J.json json.now) key.now) }
{
    read_whole(member(json, key)?)
}

pub(crate) fn time_at<J: JsonValue>(json: &J, key: &str) -> Result<i64, JsonFault>
    ensures { Aside JsonFault.Memory result (reading_at time (J.json json.now) key.now) }
{
    read_time(member(json, key)?)
}

pub(crate) fn accounts_at<J: JsonValue>(
    alloc: Global,
    json: &J,
    key: &str,
    numbers: Numbers,
) -> Result<Entries<Account, i128>, JsonFault>
    ensures reading { AsideBy JsonFault.Memory from_sorted result (reading_at (accounts_by numbers) (J.json json.now) key.now) }
    ensures positive { IfOk result AllPositive }
{
    accounts_by(alloc, member(json, key)?, numbers)
}

pub(crate) fn entries_at<J: JsonValue, K: RowKey + Drop>(
    alloc: Global,
    json: &J,
    key: &str,
    numbers: Numbers,
) -> Result<Entries<K, i128>, JsonFault>
    ensures reading { AsideBy JsonFault.Memory from_sorted result
        (reading_at (reads.rows K.cmp (K.reading (number_by numbers))) (J.json json.now) key.now) }
    ensures sorted { IfOk result (λ entries. T (is_sorted K.cmp entries)) }
{
    entries_from_json::<J, K>(alloc, member(json, key)?, numbers)
}
