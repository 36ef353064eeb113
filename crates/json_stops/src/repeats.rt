//! Entries of a list whose key an earlier one has.
ghost use Rattle.std.specs.Prelude.{◌≡◌, IfOk, map};
ghost use Rattle.contract.specs.Collections.Answers.{Aside};
ghost use Rattle.serde_json.specs.Data.{Data};
ghost use Rattle.serde_json.specs.View.{items_of};
ghost use Rattle.json_read_names.specs.Parts.{Reading, text};
ghost use Rattle.json_read_names.specs.ReadsNames.{choice_id, token};
ghost use Rattle.json_read_inputs.specs.ReadsState.{account};
ghost use Rattle.json_stops.specs.Repeats as spec;

use contract::{Account, ChoiceId, Memory, Text, Token};
use json_forms::Sort;
use json_read_names::{
    JsonFault, choice_id_from_json, pair, party_from_json, read_text, token_from_json,
};
use json_tree::JsonValue;
use std::alloc::{AllocError, Global};
use std::collections::BTreeMap;

/// The first entry of a list of a sort whose key an earlier one has: its index, and that of the first with the key. In n log n steps.
pub(crate) fn repeat_in<J: JsonValue>(
    alloc: Global,
    sort: Sort,
    items: &[J],
) -> Result<Option<(usize, usize)>, Memory>
    ensures { IfOk result (λ found. found ≡ spec.repeat_in sort (items_of (map J.json items.now))) }
{
    match sort {
        Sort::Accounts(_) => first_repeat::<J, Account>(alloc, items),
        Sort::Choices(_) => first_repeat::<J, ChoiceId>(alloc, items),
        Sort::BoundValues(_) => first_repeat::<J, Text>(alloc, items),
        Sort::Amounts => first_repeat::<J, Token>(alloc, items),
        _ => Ok(None),
    }
}

/// The index of the first with the key, if the entry at an index is the one that has it again.
pub(crate) fn earlier(repeat: Option<(usize, usize)>, index: usize) -> Option<usize>
    ensures { result ≡ spec.earlier repeat index }
{
    match repeat {
        Some((again, first)) => { if again == index { Some(first) } else { None } }
        None => None,
    }
}

// The key of an entry, by how it is read.
trait EntryKey: Ord + Drop {
    ghost reading: { Data → Reading Self };

    fn key_from_json<J: JsonValue>(alloc: Global, json: &J) -> Result<Self, JsonFault>
        ensures { Aside JsonFault.Memory result (reading (J.json json.now)) };
}

impl EntryKey for Account {
    ghost reading = { account };

    fn key_from_json<J: JsonValue>(alloc: Global, json: &J) -> Result<Account, JsonFault> {
        let (owner, token) = pair(json)?;
        let owner = party_from_json(alloc, owner)?;
        let token = token_from_json(alloc, token)?;
        Ok(Account { owner, token })
    }
}

impl EntryKey for ChoiceId {
    ghost reading = { choice_id };

    fn key_from_json<J: JsonValue>(alloc: Global, json: &J) -> Result<ChoiceId, JsonFault> {
        choice_id_from_json(alloc, json)
    }
}

impl EntryKey for Token {
    ghost reading = { token };

    fn key_from_json<J: JsonValue>(alloc: Global, json: &J) -> Result<Token, JsonFault> {
        token_from_json(alloc, json)
    }
}

impl EntryKey for Text {
    ghost reading = { text };

    fn key_from_json<J: JsonValue>(alloc: Global, json: &J) -> Result<Text, JsonFault> {
        read_text(alloc, json)
    }
}

fn first_repeat<J: JsonValue, K: EntryKey>(
    alloc: Global,
    items: &[J],
) -> Result<Option<(usize, usize)>, Memory>
    ensures { IfOk result (λ found. found
        ≡ spec.repeat_from K.cmp (spec.entry_key K.reading) spec.no_places 0 (items_of (map J.json items.now))) }
{
    let mut places = BTreeMap::new(alloc);
    for (index, item) in items.iter().enumerate() {
        match key_of_entry::<J, K>(alloc, item) {
            Ok(key) => {
                if let Some(first) = places.get(&key) {
                    return Ok(Some((index, *first)));
                }
                places.insert(key, index)?;
            }
            Err(JsonFault::Memory) => return Err(AllocError),
            Err(_) => return Ok(None),
        }
    }
    Ok(None)
}

fn key_of_entry<J: JsonValue, K: EntryKey>(alloc: Global, json: &J) -> Result<K, JsonFault>
    ensures { Aside JsonFault.Memory result (spec.entry_key K.reading (J.json json.now)) }
{
    let (key, _) = pair(json)?;
    K::key_from_json(alloc, key)
}
