//! Parts that are made one after the other. What was made is dropped where the next is refused for memory, in one place for all
//! types.
ghost use Rattle.std.specs.Prelude.{◌≡◌, ◌∷◌, [], IfOk, Ok};

use contract::{Items, Memory};
use std::alloc::Global;

/// The first value and the second, or the second's refusal.
pub(crate) fn beside<A: Drop, B>(first: A, second: Result<B, Memory>) -> Result<(A, B), Memory>
    ensures { IfOk result (λ pair. (pair.0 ≡ first) × (second ≡ Ok pair.1)) }
{
    let second = second?;
    Ok((first, second))
}

/// A list of one item.
pub(crate) fn alone<T: Drop>(alloc: Global, item: T) -> Result<Items<T>, Memory>
    ensures { IfOk result (λ items. items ≡ item ∷ []) }
{
    let mut items = Items::new(alloc);
    items.push(item)?;
    Ok(items)
}
