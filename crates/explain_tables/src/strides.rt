//! A part that stands far down and is still too high.
ghost use Rattle.std.specs.Prelude.{◌≡◌, ◌∷◌, ◌++◌, [], reverse, IfOk, IfSome};
ghost use Rattle.contract.specs.Tree.{contract_tree};
ghost use Rattle.explain_tables.specs.DepthsSupport.{GoesOn, IsFar};

use crate::branches::{branch_at, branch_count, levels};
use analysis_spec::PathStep;
use compiler::lowering::is_low_contract;
use contract::{Contract, Items, Memory};
use std::alloc::Global;

/// A part of a contract, and the room that the way there leaves.
#[derive(Drop)]
pub(crate) struct Far<'c> {
    /// The steps of the way, from its end.
    pub(crate) back: Items<PathStep>,
    pub(crate) part: &'c Contract,
    pub(crate) room: u16,
}

/// A part that is higher than the room for it: the first that stands so many levels down, or one more. Each part above is looked at once,
/// and the height of those that stand there is tested. Where less than two levels are left nothing is looked for.
pub(crate) fn far_part<'c>(
    alloc: Global,
    contract: &'c Contract,
    stride: u16,
    room: u16,
) -> Result<Option<Far<'c>>, Memory>
    ensures { IfOk result (λ found. IfSome found (IsFar room (contract_tree contract.now))) }
{
    if stride == 0 {
        return Ok(far_here(alloc, contract, room));
    }
    if room < 2 {
        return Ok(None);
    }
    for index in 0..branch_count(contract) {
        let Some(branch) = branch_at(contract, index) else {
            return Ok(None);
        };
        let down = levels(branch.step);
        let less = stride.saturating_sub(down);
        if let Some(far) = far_part(alloc, branch.part, less, room - down)? {
            return Ok(Some(further(far, branch.step)?));
        }
    }
    Ok(None)
}

// The contract itself, if it is higher than the room.
fn far_here<'c>(alloc: Global, contract: &'c Contract, room: u16) -> Option<Far<'c>>
    ensures { IfSome result (IsFar room (contract_tree contract.now)) }
{
    if is_low_contract(contract, room) {
        return None;
    }
    let back = Items::new(alloc);
    Some(Far {
        back,
        part: contract,
        room,
    })
}

// The same, seen from one step further up.
fn further<'c>(far: Far<'c>, step: PathStep) -> Result<Far<'c>, Memory>
    ensures { IfOk result (λ more. more ≡ record { back = far.entry.back ++ step ∷ []; part = far.entry.part; room = far.entry.room }) }
{
    let Far {
        mut back,
        part,
        room,
    } = far;
    back.push(step)?;
    Ok(Far { back, part, room })
}

/// A way down a contract: its path, the part at its end, and the room that it leaves.
#[derive(Drop)]
pub(crate) struct Way<'c> {
    pub(crate) path: Items<PathStep>,
    pub(crate) part: &'c Contract,
    pub(crate) room: u16,
}

/// The way goes on by so many levels, or by one more, if a part there is higher than the room.
pub(crate) fn leap<'c>(alloc: Global, way: Way<'c>, stride: u16) -> Result<Way<'c>, Memory>
    ensures { IfOk result (GoesOn way.entry) }
{
    match far_part(alloc, way.part, stride, way.room)? {
        Some(far) => on_to(way, far),
        None => Ok(way),
    }
}

// Up to this part.
fn on_to<'c>(way: Way<'c>, far: Far<'c>) -> Result<Way<'c>, Memory>
    requires { IsFar way.room (contract_tree way.part.now) far }
    ensures { IfOk result (GoesOn way.entry) }
{
    let Way { path, .. } = way;
    let Far { back, part, room } = far;
    let path = joined(path, back)?;
    Ok(Way { path, part, room })
}

// A path, and behind it the way to a part.
fn joined(path: Items<PathStep>, back: Items<PathStep>) -> Result<Items<PathStep>, Memory>
    ensures { IfOk result (λ whole. whole ≡ path ++ reverse back) }
{
    let mut whole = path.into_vec();
    let mut way = back.into_vec();
    way.reverse();
    whole.extend_from_slice(way.as_slice())?;
    Ok(Items::from_vec(whole))
}
