//! Parts of steps in one transaction, and what their looks hold of what a transaction names.
ghost use Rattle.std.specs.Prelude.{◌≡◌, pos, IfOk, option_copied};
ghost use Rattle.builder_spec.specs.Eutxo.Judgement.{found};
ghost use Rattle.builder_spec.specs.Parts.{output_by_parts, script_by_parts, parts_moment};

use builder_spec::{Look, Output, OutputRef, Published, Resolved, Resolves, Shared, Tx, resolve};
use contract::{Input, Memory};
use std::alloc::Global;
use std::marker::Model;

/// A part of steps in one transaction: a thread, as a look shows it, and the inputs that its contract is given. Both
/// are lent.
#[derive(Drop)]
pub struct Part<'a> {
    /// The look that shows the thread.
    pub look: &'a Look,
    /// The inputs, in order: at most 256.
    pub inputs: &'a [Input],
}

impl<'a> Model for Part<'a> {
    ghost use Rattle.std.specs.Coded.{codes};
    ghost use Rattle.contract.specs.contracts.input.Input as given;
    ghost use Rattle.builder_spec.specs.Ledger.contracts.look.Look as looks;
    ghost use Rattle.builder_spec.specs.Requests as requests;

    ghost Value = { requests.Part };

    ghost coded = { Prim.hlevel (codes, looks.the_row.coded, given.the_row.coded) };

    ghost view = { λ a. record { look = a.look.now; inputs = a.inputs.now } };
}

// What the looks of parts show together.
#[derive(Drop)]
struct Shown<'a> {
    parts: &'a [Part<'a>],
}

impl Resolves<Published> for Shown<'_> {
    ghost moment = { λ shown. parts_moment shown.parts.now (pos 0) };

    fn unspent_at(&self, reference: &OutputRef) -> Option<&Output> {
        for part in self.parts {
            if let Some(output) = part.look.unspent_at(reference) {
                return Some(output);
            }
        }
        None
    }

    fn published_at(&self, script: &[u8; 32]) -> Option<&Shared<Published>> {
        for part in self.parts {
            if let Some(object) = part.look.published_at(script) {
                return Some(object);
            }
        }
        None
    }
}

/// All that the looks of parts hold of what is found of what a transaction names: of each output that its inputs name,
/// and of each script that its outputs or those outputs name, what the first part shows that shows it. So a transaction
/// that `build_steps` made can be checked without the ledger, before it is handed in. Answers `Memory` only where a
/// growth was refused.
pub fn resolve_parts(
    alloc: Global,
    parts: &[Part<'_>],
    tx: &Tx,
) -> Result<Resolved<Published>, Memory>
    ensures { IfOk result (λ resolved. resolved ≡ found (parts_moment parts.now (pos 0)) tx.now) }
{
    resolve(alloc, &Shown { parts }, tx)
}
