//! Who may act.
ghost use Rattle.std.specs.Prelude.{◌≡◌, option_copied, int_lt, pos};
ghost use Rattle.eutxo.specs.Bundle.Bundles.{amount_of};
ghost use Rattle.roles.specs.Steps.{role_token, shows, holds_role, actor, authorised, unauthorised};

use contract::{Bytes, Input, Party, Text};
use eutxo::{Spent, has_signed};

// Whether an input's output is under a key and holds a token.
fn shows(spent: &Spent<'_>, currency: &Bytes, role: &Text) -> bool
    ensures { result ≡ shows currency.now role.now spent.now }
{
    let output = spent.output();
    output.lock.is_key() && output.amount.amount_by(currency, role) > 0
}

/// Whether a key input's output holds the role's token.
pub fn holds_role(spent: &[Spent<'_>], currency: &Bytes, role: &Text) -> bool
    ensures { result ≡ holds_role spent.now currency.now role.now }
{
    spent.iter().any(|x| shows(x, currency, role))
}

/// The party that an input needs: the depositor, or the owner of the choice. A notify needs nobody.
pub fn actor(input: &Input) -> Option<&Party>
    ensures { option_copied result ≡ actor input.now }
{
    match input {
        Input::Deposit(_, party, _, _) => Some(party),
        Input::Choice(id, _) => Some(&id.owner),
        Input::Notify => None,
    }
}

fn is_authorised(currency: &Bytes, signers: &[Text], spent: &[Spent<'_>], party: &Party) -> bool
    ensures { result ≡ authorised currency.now signers.now spent.now party.now }
{
    match party {
        Party::Address(address) => has_signed(signers, address),
        Party::Role(role) => holds_role(spent, currency, role),
    }
}

/// Of the parties that the inputs need, in order, the first that isn't authorised.
pub fn unauthorised<'a>(
    currency: &Bytes,
    signers: &[Text],
    spent: &[Spent<'_>],
    inputs: &'a [Input],
) -> Option<&'a Party>
    ensures { option_copied result ≡ unauthorised currency.now signers.now spent.now inputs.now }
{
    for x in inputs {
        if let Some(party) = actor(x)
            && !is_authorised(currency, signers, spent, party)
        {
            return Some(party);
        }
    }
    None
}
