//! What the accounts of a state hold together.
ghost use Rattle.std.specs.Prelude.{◌≡◌, map, IfOk};
ghost use Rattle.contract.specs.States.States.{AllPositive};
ghost use Rattle.builder_spec.specs.Roles.Steps.{only};
ghost use Rattle.builder_spec.specs.Roles.Sums.{sums_of};
ghost use Rattle.coin_selection.specs.Answers.{RefusesMuch};

use crate::sums::{see_all, sum};
use builder_spec::{Bundle, BundleFault, only};
use contract::{Account, Memory, State};
use std::alloc::Global;

// What each account holds.
fn bundles_of(alloc: Global, accounts: &[(Account, i128)]) -> Result<Vec<Bundle>, Memory>
    requires { AllPositive accounts.now }
    ensures { IfOk result (λ bundles. bundles.items ≡ map (λ e. only e.0.token e.1) accounts.now) }
{
    let mut bundles = Vec::new(alloc);
    for account in accounts {
        bundles.push(only(alloc, &account.0.token, account.1)?)?;
    }
    Ok(bundles)
}

/// What the accounts hold together: refused with `TooLarge` only where the sum of a token is above 2^127 - 1, and
/// otherwise only for memory.
pub fn sums_of(alloc: Global, state: &State) -> Result<Bundle, BundleFault>
    ensures ok { IfOk result (λ bundle. bundle ≡ sums_of state.now) }
    ensures err { RefusesMuch result (sums_of state.now) }
{
    match bundles_of(alloc, state.accounts()) {
        Ok(bundles) => {
            // touch: amounts are above 0
            see_all(&bundles);
            sum(alloc, &bundles)
        }
        Err(_) => Err(BundleFault::Memory),
    }
}
