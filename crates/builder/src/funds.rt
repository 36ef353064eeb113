//! What a request spends.
use builder_spec::{Bundle, Unspent};
use std::marker::Model;

/// What is spent, once nothing hinders it: what all of it holds together, and the front of what is offered. Clauses
/// see both.
#[derive(Drop)]
pub(crate) struct Funds<'a> {
    pub all: Bundle,
    pub front: &'a [Unspent],
}

impl<'a> Model for Funds<'a> {
    ghost use Rattle.std.specs.Coded.{codes};
    ghost use Rattle.builder_spec.specs.Bundle.contracts.bundle.Bundle as bundles;
    ghost use Rattle.builder_spec.specs.EutxoTypes.contracts.output.Output as outputs;
    ghost use Rattle.builder.specs.FundsSupport as spent;

    ghost Value = { spent.Funds };

    ghost coded = { Prim.hlevel (codes, bundles.the_row.coded, outputs.the_row.coded) };

    ghost view = { λ a. record { all = a.all; front = a.front.now } };
}
