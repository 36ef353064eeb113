//! Whether a When waits for a party.
ghost use Rattle.std.specs.Prelude.{◌≡◌, int_le, map};
ghost use Rattle.std.specs.List.{list_any};
ghost use Rattle.contract.specs.Tree.{action_tree, case_tree, case_trees};
ghost use Rattle.keeping_up.specs.KeepsUp.{is_own, asks_for};

use crate::asked::is_party;
use contract::{Action, Bound, Case, Party};

/// Whether one of these cases has an action that the party can take by itself.
pub(crate) fn asks_for(party: &Party, cases: &[Case]) -> bool
    ensures { result ≡ asks_for party.now (case_trees (map case_tree cases.now)) }
{
    for case in cases {
        if is_own(party, &case.action) {
            return true;
        }
    }
    false
}

fn is_own(party: &Party, action: &Action) -> bool
    ensures { result ≡ is_own party.now (action_tree action.now) }
{
    match action {
        Action::Deposit(_, payer, _, _) => is_party(party, payer),
        Action::Choice(id, bounds) => is_party(party, &id.owner) && has_number(bounds.as_slice()),
        Action::Notify(_) => false,
    }
}

// Whether there is a number within one of these bounds.
fn has_number(bounds: &[Bound]) -> bool
    ensures { result ≡ list_any (λ bound. int_le bound.from bound.to) bounds.now }
{
    bounds.iter().any(|bound| bound.from <= bound.to)
}
