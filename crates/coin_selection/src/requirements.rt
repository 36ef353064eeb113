//! What is needed of each token, and what outputs leave of it.
ghost use Rattle.std.specs.Prelude.{◌≡◌, None, IfOk, OnOk};
ghost use Rattle.std.specs.FinMap.{get};
ghost use Rattle.contract.specs.Names.declared.token.Token.{Token as AToken};
ghost use Rattle.builder_spec.specs.Bundle.Bundles.{amount_of};
ghost use Rattle.coin_selection.specs.MissingSupport.{left};
ghost use Rattle.builder_spec.specs.Holding.{amount_in, wanted, AreBundles};
ghost use Rattle.coin_selection.specs.RequiredSupport.{required_amount, lacking_amount};
ghost use Rattle.coin_selection.specs.RequiredSupport.{IsMissing, AddsRoles, TakesHeld};

use crate::amounts::Amount;
use crate::missing::Missing;
use crate::role_tokens::RoleToken;
use builder_spec::Unspent;
use contract::Memory;
use std::alloc::Global;

// As much of each token is needed as these amounts come to.
fn add_amounts(missing: &mut Missing, amounts: &[Amount<'_>]) -> Result<(), Memory>
    requires { (t : AToken) → get missing.old t ≡ None }
    ensures { OnOk result (IsMissing (wanted amounts.now) missing.new) }
{
    for i in (0..amounts.len()).rev() {
        amounts[i].add_to(missing)?;
    }
    Ok(())
}

// And one at least of each of these tokens.
fn add_roles(missing: &mut Missing, roles: &[RoleToken<'_>]) -> Result<(), Memory>
    ensures { OnOk result (AddsRoles roles.now missing.old missing.new) }
{
    for i in (0..roles.len()).rev() {
        missing.add_one(roles[i].to_token()?)?;
    }
    Ok(())
}

/// What is needed where one at least of each of these tokens of roles is, and as much of each token as is wanted. It
/// takes n log n.
pub(crate) fn missing_of(
    alloc: Global,
    roles: &[RoleToken<'_>],
    amounts: &[Amount<'_>],
) -> Result<Missing, Memory>
    ensures { IfOk result (λ missing. IsMissing (required_amount roles.now amounts.now) missing) }
{
    let mut missing = Missing::new(alloc);
    add_amounts(&mut missing, amounts)?;
    add_roles(&mut missing, roles)?;
    Ok(missing)
}

/// Counts what an output holds against what is needed.
pub(crate) fn meet_output(missing: &mut Missing, output: &Unspent)
    ensures { (t : AToken) → get missing.new t ≡ left (get missing.old t) (amount_of (amount_in output.now) t) }
{
    missing.meet(&output.output.amount);
}

// Counts what all outputs hold.
fn meet_all(missing: &mut Missing, outputs: &[Unspent])
    requires { AreBundles amount_in outputs.now }
    ensures { TakesHeld outputs.now missing.old missing.new }
{
    for output in outputs {
        meet_output(missing, output);
    }
}

/// What outputs leave of what is needed: of each token as much as is needed and they don't hold. It takes n log n.
pub(crate) fn missing_after(
    alloc: Global,
    roles: &[RoleToken<'_>],
    amounts: &[Amount<'_>],
    outputs: &[Unspent],
) -> Result<Missing, Memory>
    requires { AreBundles amount_in outputs.now }
    ensures { IfOk result (λ missing. IsMissing (lacking_amount roles.now amounts.now outputs.now) missing) }
{
    let mut missing = missing_of(alloc, roles, amounts)?;
    meet_all(&mut missing, outputs);
    Ok(missing)
}
