//! The front of what is offered.
ghost use Rattle.std.specs.Prelude.{◌≡◌, ◌<◌, length, IfOk};
ghost use Rattle.builder_spec.specs.Holding.{amount_in, AreBundles};
ghost use Rattle.builder_spec.specs.Fronts.{shortest, suffices, some_suffice, front};
ghost use Rattle.builder_spec.specs.FrontsSupport.{IsShortest};

use crate::amounts::Amount;
use crate::requirements::{meet_output, missing_of};
use crate::role_tokens::RoleToken;
use builder_spec::Unspent;
use contract::Memory;
use std::alloc::Global;

// How many offered outputs the shortest front has that suffices: what they hold is counted until nothing is needed.
fn front_length(
    alloc: Global,
    roles: &[RoleToken<'_>],
    amounts: &[Amount<'_>],
    offered: &[Unspent],
) -> Result<usize, Memory>
    requires { AreBundles amount_in offered.now }
    ensures { IfOk result (λ length. IsShortest (suffices roles.now amounts.now) offered.now length) }
{
    let mut missing = missing_of(alloc, roles, amounts)?;
    for i in 0..offered.len() {
        if missing.is_met() {
            return Ok(i);
        }
        meet_output(&mut missing, &offered[i]);
    }
    Ok(offered.len())
}

/// The shortest front that holds each of these tokens of roles, and as much of each token as is wanted. It takes
/// n log n, and is refused only for memory.
pub fn front_of<'a>(
    alloc: Global,
    roles: &[RoleToken<'_>],
    amounts: &[Amount<'_>],
    offered: &'a [Unspent],
) -> Result<&'a [Unspent], Memory>
    requires { AreBundles amount_in offered.now }
    ensures front { IfOk result (λ taken. taken.now ≡ front roles.now amounts.now offered.now) }
    ensures bundles { IfOk result (λ taken. AreBundles amount_in taken.now) }
{
    let length = front_length(alloc, roles, amounts, offered)?;
    Ok(&offered[..length])
}

/// The shortest front that holds as much of each token as is wanted and has one output at least. It takes n log n, and
/// is refused only for memory.
pub fn start_front<'a>(
    alloc: Global,
    amounts: &[Amount<'_>],
    offered: &'a [Unspent],
) -> Result<&'a [Unspent], Memory>
    requires bundles { AreBundles amount_in offered.now }
    requires some { 0 < length offered.now }
    ensures front { IfOk result (λ taken. taken.now ≡ shortest (some_suffice amounts.now) offered.now) }
    ensures bundles { IfOk result (λ taken. AreBundles amount_in taken.now) }
{
    let none: &[RoleToken<'_>] = &[];
    let length = front_length(alloc, none, amounts, offered)?;
    let some = if length == 0 { 1 } else { length };
    Ok(&offered[..some])
}
