//! The case that an input takes.
ghost use Rattle.contract.specs.Tree.{contract_tree};
ghost use Rattle.semantics.specs.Evaluation.Path.{waits_for};
ghost use Rattle.explain_transactions.specs.Support.{IsFound};

use crate::finding::Found;
use contract::{Input, Interval, State};
use semantics::evaluation::Parts;
use semantics::matches;

/// The case that takes an input, of those that the contract at a place waits for; or the one whose numbers leave 128 bits
/// before that (Marlowe specification version 3, "Apply cases").
pub(crate) fn find_case<S: Parts>(
    parts: &S,
    place: S::Place,
    input: &Input,
    state: &State,
    interval: Interval,
) -> Found
    requires { S.contains parts.now place }
    ensures { IsFound interval state.now input.now (waits_for (S.tree parts.now place)) result }
{
    for index in 0..parts.count_cases(place) {
        let case = parts.case(place, index);
        let Ok(is_taken) = matches(parts, input, case.action, state, interval) else {
            return Found::Leaves(index);
        };
        if is_taken {
            return Found::At(index);
        }
    }
    Found::Nowhere
}
