//! Steps of a thread.
ghost use Rattle.std.specs.Prelude.{IfOk};
ghost use Rattle.contract.specs.Collections.Answers.{Aside};
ghost use Rattle.builder_spec.specs.EutxoTypes.Fitting.{TxFits};
ghost use Rattle.builder_spec.specs.Built.{build_answer};
ghost use Rattle.builder_spec.specs.Parts.{hinders_step, layout_step};
ghost use Rattle.builder_spec.specs.Requests.{request};

use crate::parts::Part;
use crate::steps::build_steps;
use builder_spec::{BuildFault, Look, Tx, Unspent};
use contract::{Input, Interval, Text};
use std::alloc::Global;

/// Builds the transaction that steps the thread which a look shows, with these inputs of the contract, in an
/// interval in POSIX milliseconds, signed by these addresses. It spends the thread's output and the shortest front
/// of the offered outputs that holds the tokens of the roles which the inputs need and covers the deposits. The
/// contract goes on in output 0, unless it is Close; the payments follow that are due to parties; and what is left
/// goes to the key of the address `change`. The thread's datum is brought, and then the one from which the contract
/// goes on. The transaction fits its spelling.
///
/// Refused is a request for which there is no thread (`NoThread`), which the contract refuses (`Semantics`), of which
/// an offered output isn't under the key of a signer (`NotSigned`), of which a party doesn't sign and has no role
/// token among what is offered (`NotAuthorised`), which isn't funded (`NoFunds`), which leaves the limits (`TooMany`),
/// or which names an output twice (`Repeated`): the first of these answers, and nothing else is refused but memory.
/// The tick of the look isn't read.
pub fn build_step(
    alloc: Global,
    look: &Look,
    interval: Interval,
    inputs: &[Input],
    signers: &[Text],
    offered: &[Unspent],
    change: &Text,
) -> Result<Tx, BuildFault>
    ensures answer { let r = request interval inputs.now signers.now offered.now change.now in
        Aside BuildFault.Memory result (build_answer (hinders_step look.now r) (layout_step look.now r)) }
    ensures fits { IfOk result TxFits }
{
    let parts = [Part { look, inputs }];
    build_steps(alloc, &parts, interval, signers, offered, change)
}
