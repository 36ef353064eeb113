//! Lists of what was learned, of which the newest are kept.
ghost use Rattle.std.specs.Prelude.{◌≡◌, ◌≤◌, drop, length, IfOk, OnOk};
ghost use Rattle.symbols.specs.Held.{IsNewest};

use evaluation::collections::{Items, Memory, TryClone};
use std::alloc::Global;

/// The most operations and branches that are looked at, the newest: 48. Of expressions that aren't 0 as many are kept, and at most
/// 8 more.
pub const MOST_LISTED: usize = 48;

// So many more come before the newest are copied.
const MOST_MORE: usize = 8;

/// Makes room for one more of a list of which so many are looked at: of many only these stay, the newest. So a copy of what is
/// known costs no more for all that was known before.
pub(crate) fn make_room<T: TryClone + Drop>(
    alloc: Global,
    list: &mut Items<T>,
    looked: usize,
) -> Result<(), Memory>
    ensures { OnOk result (IsNewest list.old list.new) }
{
    if list.len() < looked.saturating_add(MOST_MORE) {
        return Ok(());
    }
    let from = list.len().saturating_sub(looked);
    let newest = copies_from(alloc, list.as_slice(), from)?;
    *list = newest;
    Ok(())
}

// Copies of the items from a place on.
fn copies_from<T: TryClone + Drop>(
    alloc: Global,
    items: &[T],
    from: usize,
) -> Result<Items<T>, Memory>
    requires { from ≤ length items.now }
    ensures { IfOk result (λ out. out ≡ drop from items.now) }
{
    let part = &items[from..];
    let mut out = Items::new(alloc);
    for item in part {
        out.push(item.try_clone()?)?;
    }
    Ok(out)
}

/// Where those of a list start that came after so many, where there were so many in all.
pub(crate) fn first_since(length: usize, all: usize, before: usize) -> usize {
    length.saturating_sub(all.saturating_sub(before))
}

// Where the newest operations or branches begin that are looked at.
pub(crate) fn first_looked(count: usize) -> usize {
    count.saturating_sub(MOST_LISTED)
}
