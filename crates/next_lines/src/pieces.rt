//! Pieces of a text, one behind the other.
ghost use Rattle.std.specs.Prelude.{◌≡◌, ℕ, ◌++◌, List, flat_map, IfOk, OnOk, codes, string_bytes};
ghost use Rattle.std.specs.List.{join_by};

use contract::Memory;
use std::alloc::Global;

/// What has a text of its own.
pub(crate) trait Piece {
    ghost text: { Self → List ℕ };

    /// Its text.
    fn text(&self, alloc: Global) -> Result<String, Memory>
        ensures { IfOk result (λ written. string_bytes written ≡ text self.now) };
}

/// Puts bytes behind a text.
pub(crate) fn put_bytes(out: &mut Vec<u8>, bytes: &[u8]) -> Result<(), Memory>
    ensures { OnOk result (out.new.items ≡ out.old.items ++ bytes.now) }
{
    out.extend_from_slice(bytes)?;
    Ok(())
}

/// Puts pieces behind a text, with a comma between each two.
pub(crate) fn put_joined<T: Piece>(
    alloc: Global,
    out: &mut Vec<u8>,
    pieces: &[T],
) -> Result<(), Memory>
    ensures { OnOk result (out.new.items ≡ out.old.items ++ join_by T.text (codes ", ") pieces.now) }
{
    match pieces {
        [] => Ok(()),
        [first, rest @ ..] => {
            put_piece(alloc, out, first)?;
            put_rest(alloc, out, rest)
        }
    }
}

// Puts each piece behind a comma.
fn put_rest<T: Piece>(alloc: Global, out: &mut Vec<u8>, pieces: &[T]) -> Result<(), Memory>
    ensures { OnOk result (out.new.items ≡ out.old.items ++ flat_map (λ piece. codes ", " ++ T.text piece) pieces.now) }
{
    for piece in pieces {
        put_bytes(out, b", ")?;
        put_piece(alloc, out, piece)?;
    }
    Ok(())
}

fn put_piece<T: Piece>(alloc: Global, out: &mut Vec<u8>, piece: &T) -> Result<(), Memory>
    ensures { OnOk result (out.new.items ≡ out.old.items ++ T.text piece.now) }
{
    let text = piece.text(alloc)?;
    put_bytes(out, text.as_bytes())
}
