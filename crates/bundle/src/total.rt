//! Sums of what a list holds of one token.
ghost use Rattle.std.specs.Prelude.{◌≡◌};
ghost use Rattle.bundle.specs.Bundles.{Amounts, amount_of};
ghost use Rattle.bundle.specs.Totals.{total_of};

use crate::bundle::Bundle;
use crate::wide_sum::WideSum;
use names::Token;

/// What holds amounts of tokens.
pub trait Holds {
    /// What it holds.
    ghost held: { Self → Amounts };

    /// What it holds.
    fn amounts(&self) -> &Bundle
        ensures { result.now ≡ held self.now };
}

impl Holds for Bundle {
    ghost held = { λ amounts. amounts };

    fn amounts(&self) -> &Bundle {
        self
    }
}

fn amount<A: Holds>(item: &A, token: &Token) -> i128
    ensures { result ≡ amount_of (A.held item.now) token.now }
{
    item.amounts().amount(token)
}

/// The sum of a token over what all items hold, which no limit bounds. Takes no memory.
pub fn total_of<A: Holds>(items: &[A], token: &Token) -> WideSum
    ensures { result ≡ total_of A.held token.now items.now }
{
    let mut total = WideSum::zero();
    for item in items {
        total.add(amount(item, token));
    }
    total
}
