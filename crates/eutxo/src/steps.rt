//! Contracts that are spent.
ghost use Rattle.std.specs.Prelude.{◌≡◌, slice_get};
ghost use Rattle.eutxo_types.specs.Parts.{contract_in};
ghost use Rattle.eutxo.specs.BlocksSupport.{step_with};

use crate::spent::Spent;
use contract::Input;
use eutxo_types::{Datum, OutputRef};
use std::marker::Model;

/// A contract that is spent, lent: the reference that names it, its script, the datum that is brought for it, and the
/// inputs that it is given.
#[derive(Drop)]
pub struct Step<'a> {
    pub reference: &'a OutputRef,
    pub script: &'a [u8; 32],
    pub datum: &'a Datum,
    pub inputs: &'a [Input],
}

impl<'a> Model for Step<'a> {
    ghost use Rattle.std.specs.Coded.{codes};
    ghost use Rattle.eutxo_types.specs.Machine.contracts.datum.Datum as datums;
    ghost use Rattle.contract.specs.contracts.input.Input as given;
    ghost use Rattle.eutxo_types.specs.contracts.output_ref.OutputRef as references;
    ghost use Rattle.eutxo.specs.Rules as rules;

    ghost Value = { rules.Step };

    ghost coded = { Prim.hlevel (codes, references.the_row.coded, datums.the_row.coded, given.the_row.coded) };

    ghost view = { λ a. record { reference = a.reference.now; script = a.script.now; datum = a.datum.now; inputs = a.inputs.now } };
}

/// The step of what is spent, where that is a contract and there is a datum at this place.
pub fn step_at<'a>(x: &Spent<'a>, datums: &'a [Datum], place: usize) -> Option<Step<'a>>
    ensures { result ≡ step_with (contract_in x.now.1.lock) x.now.0 (slice_get datums.now place) }
{
    match (x.output().lock.contract(), datums.get(place)) {
        (Some(lock), Some(datum)) => Some(Step {
            reference: &x.spend().reference,
            script: lock.script,
            datum,
            inputs: x.spend().redeemer.inputs(),
        }),
        (Some(_), None) => None,
        (None, _) => None,
    }
}
