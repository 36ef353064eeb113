//! Who may act.
ghost use Rattle.std.specs.Prelude.{◌≡◌, ◌∷◌, [], option_copied, is_some, IfOk};
ghost use Rattle.std.specs.FinMap.{get};
ghost use Rattle.std.specs.Option.{option_map};
ghost use Rattle.builder_spec.specs.Holding.{amount_in, first_unheld, AreBundles};
ghost use Rattle.builder_spec.specs.Steps.{may_act, first_barred};
ghost use Rattle.coin_selection.specs.RequiredSupport.{may_act_but};

use crate::amounts::Amount;
use crate::missing::Missing;
use crate::requirements::missing_after;
use crate::role_tokens::{RoleToken, roles_of};
use builder_spec::{Unspent, actor, has_signed};
use contract::{Bytes, Input, Memory, Party, Text};
use std::alloc::Global;

// Whether a role's token is among those that are needed.
fn is_unheld(unheld: &Missing, role: &RoleToken<'_>) -> Result<bool, Memory>
    ensures { IfOk result (λ answer. answer ≡ is_some (get unheld.now role.now)) }
{
    let token = role.to_token()?;
    Ok(unheld.lacks(&token))
}

// An address acts by its signature, and a role unless its token is needed.
fn may_act(
    currency: &Bytes,
    signers: &[Text],
    unheld: &Missing,
    party: &Party,
) -> Result<bool, Memory>
    ensures { IfOk result (λ answer. answer ≡ may_act_but currency.now signers.now unheld.now party.now) }
{
    match party {
        Party::Address(address) => Ok(has_signed(signers, address)),
        Party::Role(role) => {
            let is_unheld = is_unheld(unheld, &RoleToken::new(currency, role))?;
            Ok(!is_unheld)
        }
    }
}

// The party that an input needs, where it may not act.
fn barred<'a>(
    currency: &Bytes,
    signers: &[Text],
    unheld: &Missing,
    input: &'a Input,
) -> Result<Option<&'a Party>, Memory>
    ensures { let may = may_act_but currency.now signers.now unheld.now in
        IfOk result (λ party. option_copied party ≡ first_barred may (input.now ∷ [])) }
{
    match actor(input) {
        None => Ok(None),
        Some(party) => {
            if may_act(currency, signers, unheld, party)? {
                Ok(None)
            } else {
                Ok(Some(party))
            }
        }
    }
}

/// Of the parties that the inputs need, in order, the first that may not act.
pub(crate) fn unauthorised<'a>(
    alloc: Global,
    currency: &Bytes,
    signers: &[Text],
    offered: &[Unspent],
    inputs: &'a [Input],
) -> Result<Option<&'a Party>, Memory>
    requires { AreBundles amount_in offered.now }
    ensures { let may = may_act currency.now signers.now offered.now in
        IfOk result (λ party. option_copied party ≡ first_barred may inputs.now) }
{
    let roles = roles_of(alloc, currency, inputs)?;
    let none: &[Amount<'_>] = &[];
    let unheld = missing_after(alloc, &roles, none, offered)?;
    for input in inputs {
        if let Some(party) = barred(currency, signers, &unheld, input)? {
            return Ok(Some(party));
        }
    }
    Ok(None)
}

/// The role of the first of these tokens that no output holds.
pub fn first_unheld<'a>(
    alloc: Global,
    tokens: &[RoleToken<'a>],
    outputs: &[Unspent],
) -> Result<Option<&'a Text>, Memory>
    requires { AreBundles amount_in outputs.now }
    ensures { let token = first_unheld outputs.now tokens.now in
        IfOk result (λ role. option_copied role ≡ option_map (λ t. t.name) token) }
{
    let none: &[Amount<'_>] = &[];
    let unheld = missing_after(alloc, tokens, none, outputs)?;
    for token in tokens {
        if is_unheld(&unheld, token)? {
            return Ok(Some(token.role()));
        }
    }
    Ok(None)
}
