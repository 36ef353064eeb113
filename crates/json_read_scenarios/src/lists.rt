//! Lists, item by item.
ghost use Rattle.contract.specs.Collections.Answers.{Aside};
ghost use Rattle.serde_json.specs.Data.{Data};
ghost use Rattle.json_read_names.specs.Parts.{Reading, list, reading_at};

use contract::Items;
use json_read_names::{JsonFault, member};
use json_tree::JsonValue;
use std::alloc::Global;

// What reads an item of a list.
pub(crate) trait ItemReader<X> {
    // What an item stands for.
    ghost reading: { Self → Data → Reading X };

    fn item_from_json<J: JsonValue>(&self, alloc: Global, json: &J) -> Result<X, JsonFault>
        ensures { Aside JsonFault.Memory result (reading self.now (J.json json.now)) };
}

// The items that the list at a key stands for, in order.
pub(crate) fn list_at<J: JsonValue, X: Drop, R: ItemReader<X>>(
    alloc: Global,
    reader: &R,
    json: &J,
    key: &str,
) -> Result<Items<X>, JsonFault>
    ensures { Aside JsonFault.Memory result (reading_at (list (R.reading reader.now)) (J.json json.now) key.now) }
{
    let values = member(json, key)?.items().ok_or(JsonFault::NoForm)?;
    let mut items = Items::new(alloc);
    for value in values {
        items.push(reader.item_from_json(alloc, value)?)?;
    }
    Ok(items)
}
