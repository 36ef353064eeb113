//! Lists, item by item.
//! Where a call fails, what was written before it stays, and behind it stand some tokens or none.
ghost use Rattle.std.specs.Prelude.{◌≡◌, map, OnOk, OnErr};
ghost use Rattle.serde_json.specs.Data.{Data, array};
ghost use Rattle.serde_json.specs.View.{items_of};
ghost use Rattle.json_write_contracts.specs.Members.{member_tokens};
ghost use Rattle.json_write_contracts.specs.Tokens.{Adds, Keeps, Puts};
ghost use Rattle.json_write_outcomes.specs.Each.{Each};

use contract::Memory;
use json::Writer;
use std::alloc::Global;

// An item of a list that is written.
pub(crate) trait PutItem {
    // The JSON value that stands for it.
    ghost json: { Self → Data };

    // What its type sees to, and is known once it was written.
    ghost known: { Self → Type 0 };

    fn put(&self, alloc: Global, out: &mut Writer) -> Result<(), Memory>
        ensures put { OnOk result (Puts out.old out.new (json self.now)) }
        ensures err { OnErr result (Keeps out.old out.new) }
        ensures known { OnOk result (known self.now) };
}

// A list of such items, in order.
pub(crate) fn put_list<T: PutItem>(
    alloc: Global,
    out: &mut Writer,
    items: &[T],
) -> Result<(), Memory>
    ensures put { OnOk result (Puts out.old out.new (array (items_of (map T.json items.now)))) }
    ensures err { OnErr result (Keeps out.old out.new) }
    ensures known { OnOk result (Each T.known items.now) }
{
    out.begin_array()?;
    for item in items {
        item.put(alloc, out)?;
    }
    out.end_array()?;
    Ok(())
}

// A member that is such a list.
pub(crate) fn list_member<T: PutItem>(
    alloc: Global,
    out: &mut Writer,
    key: &str,
    items: &[T],
) -> Result<(), Memory>
    ensures put { OnOk result (Adds out.old out.new (member_tokens key.now (array (items_of (map T.json items.now))))) }
    ensures err { OnErr result (Keeps out.old out.new) }
    ensures known { OnOk result (Each T.known items.now) }
{
    out.key(key)?;
    put_list(alloc, out, items)
}
