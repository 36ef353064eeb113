//! One transaction from where a contract of a table stands.
ghost use Rattle.std.specs.Prelude.{◌≡◌, [], ◌∷◌, IfOk, Some};
ghost use Rattle.std.specs.Option.{IfSome};
ghost use Rattle.semantics.specs.Evaluation.Path.{in_case};
ghost use Rattle.table.specs.Flat.{Has, a_cont, cont_tree};
ghost use Rattle.table.specs.Along.{cont_along};
ghost use Rattle.table.specs.Leaves.{fitting};
ghost use Rattle.contract.specs.Collections.Answers.{AsideBy};
ghost use Rattle.semantics.specs.Walk.{standing, answer_of};
ghost use Rattle.semantics.specs.Computed.{computed, first_match, first_match_index, tried_to_match};
ghost use Rattle.machine.specs.Matched.{contract_found, cases_at};

use crate::datum::Datum;
use contract::{Input, Interval, Outcome, SemFault};
use semantics::Steps;
use std::alloc::Global;
use table::{Cont, Leaves128, Table};

/// Computes one transaction on the contract that a datum names (Marlowe specification version 3, "Compute
/// transaction"), and takes memory for the outcome alone. Memory aside, the answer is the one that the
/// definitions give for the continuation's tree; the outcome's continuation is the one that the turns of the
/// transaction lead to. Takes time in the nodes that it visits and the state, not in the table.
pub fn compute(
    alloc: Global,
    table: &Table,
    datum: &Datum,
    interval: Interval,
    inputs: &[Input],
) -> Result<Outcome<Cont>, SemFault>
    requires { Has table.now (a_cont datum.now.cont.0) }
    ensures answer { AsideBy SemFault.Memory (λ outcome. standing outcome.state (cont_tree table.now outcome.place.0)) result
        (answer_of (computed interval datum.now.state (cont_tree table.now datum.now.cont.0) inputs.now)) }
    ensures warnings { IfOk result (λ outcome. outcome.warnings
        ≡ (computed interval datum.now.state (cont_tree table.now datum.now.cont.0) inputs.now).warnings) }
    ensures payments { IfOk result (λ outcome. outcome.payments
        ≡ (computed interval datum.now.state (cont_tree table.now datum.now.cont.0) inputs.now).payments) }
    ensures place { IfOk result (λ outcome. cont_along table.now datum.now.cont
        (computed interval datum.now.state (cont_tree table.now datum.now.cont.0) inputs.now).turns ≡ Some outcome.place) }
{
    table.compute(alloc, &datum.cont, &datum.state, interval, inputs)
}

/// The continuation of the first case that an input matches where a datum stands, with the interval as it is
/// given; none where no case matches, or the contract isn't a When. `Leaves128` where a number that is looked at
/// on the way leaves 128 bits, and no other fault: it takes no memory.
#[tactic(auto, using(crate::proofs::Matching::found_ok, crate::proofs::Matching::found_err))]
pub fn matching_case(
    table: &Table,
    datum: &Datum,
    interval: Interval,
    input: &Input,
) -> Result<Option<Cont>, Leaves128>
    requires { Has table.now (a_cont datum.now.cont.0) }
    ensures case { contract_found table.now result
        ≡ fitting (tried_to_match interval datum.now.state input.now (cases_at table.now datum.now))
        (first_match interval datum.now.state input.now (cases_at table.now datum.now)) }
    ensures place { IfOk result (λ found. IfSome found (λ there. cont_along table.now datum.now.cont
        (in_case (first_match_index interval datum.now.state input.now (cases_at table.now datum.now)) ∷ []) ≡ Some there)) }
{
    match semantics::matching_case(table, input, datum.cont, &datum.state, interval) {
        Ok(found) => Ok(found),
        Err(_) => Err(Leaves128),
    }
}
