//! Outputs, lent.
use eutxo::{Output, OutputRef};
use std::marker::Model;

/// An unspent output, lent, with its reference. Clauses see the pair.
#[derive(Drop)]
pub struct LentOutput<'a> {
    pub reference: OutputRef,
    pub output: &'a Output,
}

impl<'a> Model for LentOutput<'a> {
    ghost use Rattle.std.specs.Coded.{codes};
    ghost use Rattle.eutxo.specs.EutxoTypes.declared.output.Output.{Output};
    ghost use Rattle.eutxo.specs.EutxoTypes.declared.output_ref.OutputRef.{OutputRef};
    ghost use Rattle.eutxo.specs.EutxoTypes.contracts.output.Output as outputs;
    ghost use Rattle.eutxo.specs.EutxoTypes.contracts.output_ref.OutputRef as references;

    ghost Value = { OutputRef × Output };

    ghost coded = { Prim.hlevel (codes, outputs.the_row.coded, references.the_row.coded) };

    ghost view = { λ a. (a.reference, a.output.now) };
}
