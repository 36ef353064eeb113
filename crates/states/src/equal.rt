//! Equality and hashes of states: what `==` answers is whether the two are the same.
ghost use Rattle.std.specs.Prelude.{◌≡◌, ◌↔◌, IsTrue};

use crate::state::State;
use names::collections::{Same, same_entries};
use std::hash::{Hash, Hasher};

impl Same for State {
    #[tactic(auto, using(crate::proofs::SameStates::same_states))]
    fn same(&self, other: &State) -> bool {
        same_accounts(self, other)
            && same_choices(self, other)
            && same_bound_values(self, other)
            && same_time(self, other)
    }
}

fn same_accounts(a: &State, b: &State) -> bool
    ensures { IsTrue result ↔ (a.now.accounts ≡ b.now.accounts) }
{
    same_entries(a.accounts(), b.accounts())
}

fn same_choices(a: &State, b: &State) -> bool
    ensures { IsTrue result ↔ (a.now.choices ≡ b.now.choices) }
{
    same_entries(a.choices(), b.choices())
}

fn same_bound_values(a: &State, b: &State) -> bool
    ensures { IsTrue result ↔ (a.now.bound_values ≡ b.now.bound_values) }
{
    same_entries(a.bound_values(), b.bound_values())
}

fn same_time(a: &State, b: &State) -> bool
    ensures { IsTrue result ↔ (a.now.min_time ≡ b.now.min_time) }
{
    a.min_time() == b.min_time()
}

impl PartialEq for State {
    ghost use Rattle.names.specs.Collections.Same.{same_by};
    ghost use Rattle.names.proofs.FromCollections.SameLaws.{same_by-partial};
    ghost use Rattle.states.specs.contracts.state.State as it;

    ghost eq = { same_by it.the_row.coded };

    ghost laws = { same_by-partial it.the_row.coded };

    fn eq(&self, other: &State) -> bool {
        self.same(other)
    }
}

impl Eq for State {
    ghost use Rattle.names.proofs.FromCollections.SameLaws.{same_by-equiv};
    ghost use Rattle.states.specs.contracts.state.State as it;

    ghost laws = { same_by-equiv it.the_row.coded };
}

impl Hash for State {
    ghost use Rattle.std.proofs.Common.{ap};
    ghost use Rattle.names.proofs.FromCollections.SameLaws.{same_by_decides};
    ghost use Rattle.states.specs.Hashing.{state_fed};
    ghost use Rattle.states.specs.contracts.state.State as it;

    ghost hash_input = { state_fed };

    ghost respects_eq = { λ x y h. ap state_fed ((same_by_decides it.the_row.coded x y).0 h) };

    fn hash<H: Hasher>(&self, state: &mut H) {
        self.accounts().hash(state);
        self.choices().hash(state);
        self.bound_values().hash(state);
        self.min_time().hash(state);
    }
}
