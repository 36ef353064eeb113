//! What an input is apart from its number.
ghost use Rattle.std.specs.Prelude.{refl};
ghost use Rattle.std.specs.Cmp.{partial_equiv_from_equiv, partial_order_from_total};
ghost use Rattle.std.specs.Ordering.{eq_by_cmp, as_partial_cmp};
ghost use Rattle.std.proofs.lemmas.Cmp.{eq_by_cmp_equiv};
ghost use Rattle.std.proofs.Common.{rules};
ghost use Rattle.next_inputs.specs.Lanes.{lane_cmp, lane_total};

use contract::{ChoiceId, Party, Token};
use std::cmp::Ordering;

/// What an input or an action is apart from its number: a deposit by its account, party and token; a choice; a notify.
#[derive(Clone, Copy)]
pub(crate) enum Lane<'a> {
    Deposit(&'a Party, &'a Party, &'a Token),
    Choice(&'a ChoiceId),
    Notify,
}

impl PartialEq for Lane<'_> {
    ghost eq = { eq_by_cmp lane_cmp };

    ghost laws = { partial_equiv_from_equiv (eq_by_cmp_equiv lane_total) };

    fn eq(&self, other: &Self) -> bool {
        self.cmp(other).is_eq()
    }
}

impl Eq for Lane<'_> {
    ghost laws = { eq_by_cmp_equiv lane_total };
}

impl PartialOrd for Lane<'_> {
    ghost partial_cmp = { as_partial_cmp lane_cmp };

    ghost laws = { partial_order_from_total lane_total };

    fn partial_cmp(&self, other: &Self) -> Option<Ordering> {
        Some(self.cmp(other))
    }
}

impl Ord for Lane<'_> {
    ghost cmp = { lane_cmp };

    ghost total = { lane_total };

    ghost matches_partial_cmp = { Prim.search rules };

    ghost matches_eq = { Prim.search rules };

    #[tactic(auto, using(crate::proofs::Ways::then_equal))]
    fn cmp(&self, other: &Self) -> Ordering {
        match (*self, *other) {
            (Lane::Deposit(account, party, token), Lane::Deposit(a, p, t)) => account
                .cmp(a)
                .then_with(|| party.cmp(p).then_with(|| token.cmp(t))),
            (Lane::Choice(id), Lane::Choice(other)) => id.cmp(other),
            (Lane::Notify, Lane::Notify) => Ordering::Equal,
            (Lane::Deposit(_, _, _), _) => Ordering::Less,
            (_, Lane::Deposit(_, _, _)) => Ordering::Greater,
            (Lane::Choice(_), Lane::Notify) => Ordering::Less,
            (Lane::Notify, Lane::Choice(_)) => Ordering::Greater,
        }
    }
}
