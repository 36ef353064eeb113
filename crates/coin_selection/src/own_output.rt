//! The output of a thread, lent.
use builder_spec::{Output, OutputRef};
use std::marker::Model;

/// The unspent output of a thread, lent. Clauses see the output with its reference.
#[derive(Drop)]
pub struct OwnOutput<'a> {
    pub reference: OutputRef,
    pub output: &'a Output,
}

impl<'a> Model for OwnOutput<'a> {
    ghost use Rattle.std.specs.Coded.{codes};
    ghost use Rattle.builder_spec.specs.EutxoTypes.contracts.output.Output as outputs;
    ghost use Rattle.builder_spec.specs.Ledger.declared.look.Unspent.{Unspent};

    ghost Value = { Unspent };

    ghost coded = { Prim.hlevel (codes, outputs.the_row.coded) };

    ghost view = { λ a. record { reference = a.reference; output = a.output.now } };
}
