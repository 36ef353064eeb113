//! Whether what is wanted is there.
ghost use Rattle.std.specs.Prelude.{◌≡◌, IfOk};
ghost use Rattle.builder_spec.specs.Holding.{amount_in, least_lacking, AreBundles};

use crate::amounts::Amount;
use crate::requirements::missing_after;
use crate::role_tokens::RoleToken;
use builder_spec::Unspent;
use contract::{Memory, Token, TryClone};
use std::alloc::Global;

/// The least of the wanted tokens of which outputs hold less.
pub(crate) fn least_lacking(
    alloc: Global,
    amounts: &[Amount<'_>],
    outputs: &[Unspent],
) -> Result<Option<Token>, Memory>
    requires { AreBundles amount_in outputs.now }
    ensures { IfOk result (λ least. least ≡ least_lacking amounts.now outputs.now) }
{
    let none: &[RoleToken<'_>] = &[];
    let missing = missing_after(alloc, none, amounts, outputs)?;
    match missing.least() {
        None => Ok(None),
        Some(token) => Ok(Some(token.try_clone()?)),
    }
}
