//! Copies that are made one after the other. What was copied is dropped where the next copy is refused for memory, in one place for all
//! types.
ghost use Rattle.std.specs.Prelude.{◌≡◌, IfOk};

use contract::{Memory, TryClone};

// dropped once
pub(crate) fn three_copies<A: TryClone + Drop, B: TryClone + Drop, C: TryClone>(
    a: &A,
    b: &B,
    c: &C,
) -> Result<(A, B, C), Memory>
    ensures { IfOk result (λ copies. copies ≡ (a.now, b.now, c.now)) }
{
    let a = a.try_clone()?;
    let b = b.try_clone()?;
    let c = c.try_clone()?;
    Ok((a, b, c))
}
