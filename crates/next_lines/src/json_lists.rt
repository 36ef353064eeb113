//! Lists in the JSON.
ghost use Rattle.std.specs.Prelude.{List, map, OnOk};
ghost use Rattle.serde_json.specs.Data.{Data, array};
ghost use Rattle.serde_json.specs.View.{items_of};
ghost use Rattle.json_write_contracts.specs.Tokens.{Puts};
ghost use Rattle.json_write_outcomes.specs.WrittenOutcome.{payment_json};
ghost use Rattle.next_lines.specs.Json.{range_json, warning_json};
ghost use Rattle.next_lines.specs.Seen.{seen_warning};

use crate::told::ToldWarning;
use contract::{Bound, Memory, Payment};
use json::Writer;
use json_write_contracts::{end_with_one, put_member};
use json_write_outcomes::put_payment;
use places::put_place_json;
use std::alloc::Global;

/// An item of a list.
pub(crate) trait Listed {
    /// The value that stands for it.
    ghost json: { Self → Data };

    /// Writes it behind what was written.
    fn put(&self, alloc: Global, out: &mut Writer) -> Result<(), Memory>
        ensures { OnOk result (Puts out.old out.new (json self.now)) };
}

// one loop for all lists
/// Writes a list of such items.
pub(crate) fn put_list<T: Listed>(
    alloc: Global,
    out: &mut Writer,
    items: &[T],
) -> Result<(), Memory>
    ensures { OnOk result (Puts out.old out.new (array (items_of (map T.json items.now)))) }
{
    out.begin_array()?;
    for item in items {
        item.put(alloc, out)?;
    }
    out.end_array()?;
    Ok(())
}

impl Listed for Bound {
    ghost json = { range_json };

    fn put(&self, alloc: Global, out: &mut Writer) -> Result<(), Memory> {
        out.begin_object()?;
        put_member(alloc, out, "from", &self.from)?;
        end_with_one(alloc, out, "to", &self.to)
    }
}

impl Listed for Payment {
    ghost json = { payment_json };

    fn put(&self, alloc: Global, out: &mut Writer) -> Result<(), Memory> {
        put_payment(alloc, out, self)
    }
}

impl Listed for ToldWarning {
    ghost json = { λ warning. warning_json (seen_warning warning) };

    fn put(&self, alloc: Global, out: &mut Writer) -> Result<(), Memory> {
        out.begin_object()?;
        out.key("at")?;
        put_place_json(out, &self.place)?;
        end_with_one(alloc, out, "kind", &self.name)
    }
}
