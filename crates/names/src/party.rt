//! Parties.
ghost use Rattle.std.specs.Prelude.{refl};
ghost use Rattle.std.specs.Cmp.{partial_order_from_agreeing_total};
ghost use Rattle.std.specs.Cmp.Lexicographic.{texts_ties};
ghost use Rattle.std.specs.Ordering.{as_partial_cmp};
ghost use Rattle.names.specs.declared.party.Party.TheVariants.{Address, Role};
ghost use Rattle.names.specs.Orders.{party_cmp};
ghost use Rattle.names.specs.Totals.{party_total};

use collections::{Memory, Text, TryClone};
use std::cmp::Ordering;

/// A party of a contract (Marlowe specification version 3, "Participants, roles and public keys"): an address, which is kept and
/// compared as its text, or a role, by the name of its token. Addresses stand before roles, each by
/// the bytes of its text; that order is this project's own.
#[derive(Debug, PartialEq, Eq, Hash, Drop)]
pub enum Party {
    Address(Text),
    Role(Text),
}

impl Ord for Party {
    ghost cmp = { party_cmp };

    ghost total = { party_total };

    ghost matches_partial_cmp = { λ a b. refl };

    ghost matches_eq = { elim [
      | Address a ↦ elim [ Address b ↦ texts_ties a b | Role b ↦ refl ]
      | Role a ↦ elim [ Address b ↦ refl | Role b ↦ texts_ties a b ]
    ] };

    fn cmp(&self, other: &Party) -> Ordering {
        match (self, other) {
            (Party::Address(a), Party::Address(b)) => a.cmp(b),
            (Party::Address(_), Party::Role(_)) => Ordering::Less,
            (Party::Role(_), Party::Address(_)) => Ordering::Greater,
            (Party::Role(a), Party::Role(b)) => a.cmp(b),
        }
    }
}

impl PartialOrd for Party {
    ghost partial_cmp = { as_partial_cmp party_cmp };

    ghost laws = { partial_order_from_agreeing_total party_cmp party_total (λ a b. refl) (elim [
      | Address a ↦ elim [ Address b ↦ texts_ties a b | Role b ↦ refl ]
      | Role a ↦ elim [ Address b ↦ refl | Role b ↦ texts_ties a b ]
    ]) };

    fn partial_cmp(&self, other: &Party) -> Option<Ordering> {
        Some(self.cmp(other))
    }
}

impl TryClone for Party {
    fn try_clone(&self) -> Result<Party, Memory> {
        match self {
            Party::Address(text) => Ok(Party::Address(text.try_clone()?)),
            Party::Role(name) => Ok(Party::Role(name.try_clone()?)),
        }
    }
}
