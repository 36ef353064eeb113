//! Items in brackets, with commas between them.
ghost use Rattle.std.specs.Prelude.{◌≡◌, ℕ, List, map, IfOk, string_bytes};
ghost use Rattle.table_lines.specs.TableLines.{bound, c, in_brackets};

use std::alloc::Global;
use table::collections::Memory;
use table::names::Bound;

// An item of a list.
pub(crate) trait Item {
    // The word for it.
    ghost word: { Self → List ℕ };

    fn text(&self, alloc: Global) -> Result<String, Memory>
        ensures { IfOk result (λ text. string_bytes text ≡ word self.now) };
}

// A bound, whose numbers may have any size.
impl Item for Bound {
    ghost word = { bound };

    fn text(&self, alloc: Global) -> Result<String, Memory> {
        let from = self.from;
        let to = self.to;
        format!(in alloc; "{{\"from\":{from},\"to\":{to}}}")
    }
}

// The number of a case.
impl Item for u32 {
    ghost word = { c };

    fn text(&self, alloc: Global) -> Result<String, Memory> {
        let number = *self;
        format!(in alloc; "c{number}")
    }
}

// The items in brackets.
pub(crate) fn in_brackets<T: Item>(alloc: Global, items: &[T]) -> Result<String, Memory>
    ensures { IfOk result (λ text. string_bytes text ≡ in_brackets (map T.word items.now)) }
{
    let Some((first, rest)) = items.split_first() else {
        return String::from_str(alloc, "[]");
    };
    let mut text = String::from_str(alloc, "[")?;
    text.push_str(first.text(alloc)?.as_str())?;
    for item in rest {
        text.push_str(",")?;
        text.push_str(item.text(alloc)?.as_str())?;
    }
    text.push_str("]")?;
    Ok(text)
}
