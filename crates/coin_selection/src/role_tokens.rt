//! Tokens of roles.
ghost use Rattle.std.specs.Prelude.{◌≡◌, [], ◌∷◌, ◌++◌, IfOk, OnOk, OnErr};
ghost use Rattle.std.specs.Option.{option_to_list};
ghost use Rattle.builder_spec.specs.Roles.Steps.{role_token};
ghost use Rattle.builder_spec.specs.Steps.{token_of, roles_of};
ghost use Rattle.builder_spec.specs.ContractBytes.Writing.{AppendsFront};

use builder_spec::actor;
use contract::{Bytes, Input, Memory, Party, Text, Token, TryClone};
use std::alloc::Global;
use std::marker::Model;

/// The token of a role, lent. Clauses see the token.
#[derive(Drop)]
pub struct RoleToken<'a> {
    currency: &'a Bytes,
    role: &'a Text,
}

impl<'a> Model for RoleToken<'a> {
    ghost use Rattle.contract.specs.Names.declared.token.Token.{Token};

    ghost Value = { Token };

    ghost view = { λ a. record { symbol = a.currency.now; name = a.role.now } };
}

impl<'a> RoleToken<'a> {
    /// The token of a currency's role.
    pub fn new(currency: &'a Bytes, role: &'a Text) -> RoleToken<'a>
        ensures { result ≡ role_token currency.now role.now }
    {
        RoleToken { currency, role }
    }

    /// The role.
    pub(crate) fn role(&self) -> &'a Text
        ensures { result.now ≡ self.now.name }
    {
        self.role
    }

    /// A token of its own.
    pub(crate) fn to_token(&self) -> Result<Token, Memory>
        ensures { IfOk result (λ token. token ≡ self.now) }
    {
        Ok(Token {
            symbol: self.currency.try_clone()?,
            name: self.role.try_clone()?,
        })
    }
}

// The token of a party that is a role.
fn token_of<'a>(currency: &'a Bytes, party: &'a Party) -> Option<RoleToken<'a>>
    ensures { result ≡ token_of currency.now party.now }
{
    match party {
        Party::Address(_) => None,
        Party::Role(role) => Some(RoleToken::new(currency, role)),
    }
}

// The token of the role that an input needs.
fn role_of<'a>(currency: &'a Bytes, input: &'a Input) -> Option<RoleToken<'a>>
    ensures { option_to_list result ≡ roles_of currency.now (input.now ∷ []) }
{
    match actor(input) {
        Some(party) => token_of(currency, party),
        None => None,
    }
}

/// Puts the tokens of the roles that inputs need, in order, behind others. On a refusal the first of them may stand
/// there.
pub fn put_roles<'a>(
    roles: &mut Vec<RoleToken<'a>>,
    currency: &'a Bytes,
    inputs: &'a [Input],
) -> Result<(), Memory>
    ensures roles { OnOk result (roles.new.items ≡ roles.old.items ++ roles_of currency.now inputs.now) }
    ensures err { OnErr result (AppendsFront (roles_of currency.now inputs.now) roles.old.items roles.new.items) }
{
    for input in inputs {
        if let Some(role) = role_of(currency, input) {
            roles.push(role)?;
        }
    }
    Ok(())
}

/// The tokens of the roles that inputs need, in order.
pub fn roles_of<'a>(
    alloc: Global,
    currency: &'a Bytes,
    inputs: &'a [Input],
) -> Result<Vec<RoleToken<'a>>, Memory>
    ensures { IfOk result (λ roles. roles.items ≡ roles_of currency.now inputs.now) }
{
    let mut roles = Vec::new(alloc);
    put_roles(&mut roles, currency, inputs)?;
    Ok(roles)
}
