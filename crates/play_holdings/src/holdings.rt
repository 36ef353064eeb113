//! Who holds what.
ghost use Rattle.std.specs.Prelude.{◌≡◌, ◌≤ℤ◌, IfOk};
ghost use Rattle.std.specs.List.{flat_map};
ghost use Rattle.eutxo.specs.Bundle.Totals.{total_of};
ghost use Rattle.eutxo.specs.Names.declared.token.Token.{Token as AToken};
ghost use Rattle.play_holdings.specs.Holdings.{AreSums, come_to, held_in, of_token};
ghost use Rattle.play_holdings.specs.SumsSupport.{most};

use crate::ends::Ends;
use crate::holding::Holding;
use crate::lent::LentOutput;
use crate::one_by_one::one_by_one;
use crate::sums::sums_of;
use eutxo::{Memory, OutputRef};
use std::alloc::Global;

/// Who holds what of these unspent outputs: what they hold, summed by holder and token, in the order of both. What the contract of
/// a thread holds is under the thread's place in the list of where threads end, from 0. Together, token by token, it is what
/// the outputs hold. It takes n log n steps in the outputs and their tokens. Answers `Memory` only where a growth was refused.
pub fn holdings_of(
    alloc: Global,
    ends: &[Option<OutputRef>],
    unspent: &[LentOutput<'_>],
) -> Result<Vec<Holding>, Memory>
    requires fit { (t : AToken) → total_of (λ e. e.1.amount) t unspent.now ≤ℤ most }
    ensures sums { IfOk result (λ holdings. AreSums (flat_map (held_in ends.now) unspent.now) holdings.items) }
    ensures together { IfOk result (λ holdings. (t : AToken) →
        come_to (of_token t) holdings.items ≡ total_of (λ e. e.1.amount) t unspent.now) }
{
    let ends = Ends::of(alloc, ends)?;
    let rows = one_by_one(alloc, &ends, unspent)?;
    sums_of(alloc, rows)
}
