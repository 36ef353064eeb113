//! Items by their names.
ghost use Rattle.std.specs.Prelude.{◌≡◌, ℕ, List, [], ◌∷◌, ◌++◌, length, None, IfOk};
ghost use Rattle.contract.specs.Collections.Answers.{Aside};
ghost use Rattle.serde_json.specs.Data.{Data};
ghost use Rattle.json_read_names.specs.Parts.{Reading, reading_at};
ghost use Rattle.json_read_scenarios.specs.Names.{place_of, known, new_name, list_in_turn};

use contract::{Items, Memory, Text};
use json_read_names::{JsonFault, member, read_text};
use json_tree::JsonValue;
use std::alloc::Global;
use std::collections::BTreeMap;
use std::marker::Model;

// What has a name.
pub(crate) trait Named {
    // Its name.
    ghost name: { Self → List ℕ };

    fn name(&self) -> &Text
        ensures { result.now ≡ name self.now };
}

// Items in order, with a map from their names to their places: a name is found in the logarithm of their number.
// Clauses see the items.
#[derive(Drop)]
pub(crate) struct NameList<X: Named> {
    items: Items<X>,
    places: BTreeMap<String, usize>,
}

impl<X: Named> Model for NameList<X> {
    ghost use Rattle.std.specs.Prelude.{◌≡◌, ℕ, List};
    ghost use Rattle.std.specs.Coded.{coded_list};
    ghost use Rattle.std.specs.BTreeMap.{get_by_text};
    ghost use Rattle.json_read_scenarios.specs.Names.{place_of};

    ghost Value = { List X };

    ghost coded = { coded_list X.code };

    ghost view = { λ list. list.items };

    ghost invariant = { λ list. (name : List ℕ) → get_by_text list.places name ≡ place_of X.name name list.items };
}

impl<X: Named> NameList<X> {
    // No items yet, in a list that will take memory from `alloc`.
    pub(crate) fn new(alloc: Global) -> NameList<X>
        ensures { result ≡ [] }
    {
        NameList {
            items: Items::new(alloc),
            places: BTreeMap::new(alloc),
        }
    }

    // How many items there are.
    pub(crate) fn len(&self) -> usize
        ensures { result ≡ length self.now }
    {
        self.items.len()
    }

    // The place of the item of that name.
    pub(crate) fn place(&self, name: &str) -> Option<usize>
        ensures { result ≡ place_of X.name name.now self.now }
    {
        self.places.get(name).copied()
    }

    // The list with one item more, whose name is new to it; or memory was refused, and all of it is dropped.
    pub(crate) fn with(self, alloc: Global, item: X) -> Result<NameList<X>, Memory>
    where
        X: Drop,
        requires { place_of X.name (X.name item) self ≡ None }
        ensures { IfOk result (λ list. list ≡ self ++ item ∷ []) }
    {
        let NameList {
            mut items,
            mut places,
        } = self;
        let name = String::from_str(alloc, item.name().as_str())?;
        let _ = places.insert(name, items.len())?;
        items.push(item)?;
        Ok(NameList { items, places })
    }

    // The items in order. Takes no memory.
    pub(crate) fn into_items(self) -> Items<X>
        ensures { result ≡ self }
    {
        let NameList { items, places: _ } = self;
        items
    }
}

// The place of the item whose name a JSON value is.
pub(crate) fn place_from_json<J: JsonValue, X: Named>(
    list: &NameList<X>,
    json: &J,
) -> Result<usize, JsonFault>
    ensures { result ≡ known X.name list.now (J.json json.now) }
{
    let name = json.text().ok_or(JsonFault::NoForm)?;
    list.place(name).ok_or(JsonFault::NoForm)
}

// The name that a JSON value is, which no item has.
pub(crate) fn new_name_from_json<J: JsonValue, X: Named>(
    alloc: Global,
    list: &NameList<X>,
    json: &J,
) -> Result<Text, JsonFault>
    ensures reading { Aside JsonFault.Memory result (new_name X.name list.now (J.json json.now)) }
    ensures new { IfOk result (λ name. place_of X.name name list.now ≡ None) }
{
    let name = read_text(alloc, json)?;
    if list.place(name.as_str()).is_some() {
        return Err(JsonFault::NoForm);
    }
    Ok(name)
}

// The place of the item whose name the member at a key is.
pub(crate) fn place_at<J: JsonValue, X: Named>(
    list: &NameList<X>,
    json: &J,
    key: &str,
) -> Result<usize, JsonFault>
    ensures { Aside JsonFault.Memory result (reading_at (known X.name list.now) (J.json json.now) key.now) }
{
    place_from_json(list, member(json, key)?)
}

// The name that the member at a key is, which no item has.
pub(crate) fn new_name_at<J: JsonValue, X: Named>(
    alloc: Global,
    list: &NameList<X>,
    json: &J,
    key: &str,
) -> Result<Text, JsonFault>
    ensures reading { Aside JsonFault.Memory result (reading_at (new_name X.name list.now) (J.json json.now) key.now) }
    ensures new { IfOk result (λ name. place_of X.name name list.now ≡ None) }
{
    new_name_from_json(alloc, list, member(json, key)?)
}

// What reads an item of a list, beside those before it.
pub(crate) trait NamedReader<X: Named> {
    // What an item stands for.
    ghost reading: { Self → List X → Data → Reading X };

    fn named_from_json<J: JsonValue>(
        &self,
        alloc: Global,
        before: &NameList<X>,
        json: &J,
    ) -> Result<X, JsonFault>
        ensures reading { Aside JsonFault.Memory result (reading self.now before.now (J.json json.now)) }
        ensures new { IfOk result (λ item. place_of X.name (X.name item) before.now ≡ None) };
}

// The items that the list at a key stands for, in order, each read beside those before it.
pub(crate) fn named_at<J: JsonValue, X: Named + Drop, R: NamedReader<X>>(
    alloc: Global,
    reader: &R,
    json: &J,
    key: &str,
) -> Result<NameList<X>, JsonFault>
    ensures { Aside JsonFault.Memory result (reading_at (list_in_turn (R.reading reader.now)) (J.json json.now) key.now) }
{
    let values = member(json, key)?.items().ok_or(JsonFault::NoForm)?;
    let mut list = NameList::new(alloc);
    for value in values {
        let item = reader.named_from_json(alloc, &list, value)?;
        list = list.with(alloc, item)?;
    }
    Ok(list)
}
