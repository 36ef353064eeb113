//! What a party leaves out.
ghost use Rattle.std.specs.Prelude.{◌≡◌, map, IfOk};

use builder::BuildFault;
use contract::Memory;
use hub::{Receipt, Session};
use std::alloc::Global;

/// An intent that wasn't handed in, since its builder refused it.
#[derive(Drop)]
pub struct LeftOut {
    /// Its place in the plan, from 0.
    pub intent: usize,
    /// Where the looks that it asked for last stand in the history, in order.
    pub looks: Vec<u64>,
    /// What hinders its request by these looks.
    pub fault: BuildFault,
}

// Where the entries of receipts stand in the history.
fn places_of<J: Session>(alloc: Global, shown: &[Receipt<J>]) -> Result<Vec<u64>, Memory>
    ensures { IfOk result (λ places. places.items ≡ map (λ r. r.entry) shown.now) }
{
    let mut places = Vec::new(alloc);
    for receipt in shown {
        places.push(receipt.entry())?;
    }
    Ok(places)
}

/// What is told of an intent that the builder refused by what these receipts show.
pub(crate) fn left_out<J: Session>(
    alloc: Global,
    intent: usize,
    shown: &[Receipt<J>],
    fault: BuildFault,
) -> Result<LeftOut, Memory>
    ensures { IfOk result (λ left. (left.intent ≡ intent) × (left.looks.items ≡ map (λ r. r.entry) shown.now) × (left.fault ≡ fault)) }
{
    let looks = places_of(alloc, shown)?;
    Ok(LeftOut {
        intent,
        looks,
        fault,
    })
}
