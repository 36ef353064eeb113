//! Inputs with the outputs that they spend.
ghost use Rattle.std.specs.Prelude.{◌≡◌};

use eutxo_types::{Bundle, Holds, Output, Spend};
use std::marker::Model;

/// An input and the output that it spends, lent. Clauses see the pair of them.
#[derive(Drop)]
pub struct Spent<'a> {
    spend: &'a Spend,
    output: &'a Output,
}

impl<'a> Model for Spent<'a> {
    ghost use Rattle.std.specs.Coded.{coded×};
    ghost use Rattle.eutxo_types.specs.declared.spend.Spend.{Spend};
    ghost use Rattle.eutxo_types.specs.declared.output.Output.{Output};
    ghost use Rattle.eutxo_types.specs.contracts.spend.Spend as spends;
    ghost use Rattle.eutxo_types.specs.contracts.output.Output as outputs;

    ghost Value = { Spend × Output };

    ghost coded = { coded× spends.the_row.coded outputs.the_row.coded };

    ghost view = { λ a. (a.spend.now, a.output.now) };
}

impl<'a> Spent<'a> {
    /// An input with its output.
    pub fn new(spend: &'a Spend, output: &'a Output) -> Spent<'a>
        ensures { result ≡ (spend.now, output.now) }
    {
        Spent { spend, output }
    }

    /// The input.
    pub fn spend(&self) -> &'a Spend
        ensures { result.now ≡ self.now.0 }
    {
        self.spend
    }

    /// The output that it spends.
    pub fn output(&self) -> &'a Output
        ensures { result.now ≡ self.now.1 }
    {
        self.output
    }
}

impl Holds for Spent<'_> {
    ghost held = { λ x. x.1.amount };

    fn amounts(&self) -> &Bundle {
        &self.output().amount
    }
}
