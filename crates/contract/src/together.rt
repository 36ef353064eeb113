//! Copies that are made one after the other. What was copied is dropped where the next copy is refused for memory, in one
//! place for all types.
ghost use Rattle.std.specs.Prelude.{◌≡◌, IfOk, Ok};

use states::collections::{Memory, TryClone};

// The first value and the second, or the second's refusal.
pub(crate) fn both<A: Drop, B>(a: A, b: Result<B, Memory>) -> Result<(A, B), Memory>
    ensures { IfOk result (λ pair. (pair.0 ≡ a) × (b ≡ Ok pair.1)) }
{
    let b = b?;
    Ok((a, b))
}

pub(crate) fn two_copies<A: TryClone + Drop, B: TryClone>(a: &A, b: &B) -> Result<(A, B), Memory>
    ensures { IfOk result (λ copies. (copies.0 ≡ a.now) × (copies.1 ≡ b.now)) }
{
    let a = a.try_clone()?;
    let b = b.try_clone()?;
    Ok((a, b))
}

pub(crate) fn three_copies<A: TryClone + Drop, B: TryClone + Drop, C: TryClone>(
    a: &A,
    b: &B,
    c: &C,
) -> Result<(A, B, C), Memory>
    ensures { IfOk result (λ copies. copies ≡ (a.now, b.now, c.now)) }
{
    let a = a.try_clone()?;
    let b = b.try_clone()?;
    let c = c.try_clone()?;
    Ok((a, b, c))
}
