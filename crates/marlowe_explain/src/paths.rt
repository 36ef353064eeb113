//! Explanations of a part of a contract, with places of the whole contract.
ghost use Rattle.std.specs.Prelude.{◌≡◌, ◌++◌, IfOk};
ghost use Rattle.marlowe_explain.specs.Explained.{behind, left_behind};

use contract::{Items, Memory};
use explain_transactions::Explanation;
use marlowe_next::{Left, PathStep};
use std::alloc::Global;

/// An explanation of the part at the end of a path, with its places behind the path.
pub(crate) fn behind<'c>(
    alloc: Global,
    path: &[PathStep],
    explanation: Explanation<'c>,
) -> Result<Explanation<'c>, Memory>
    ensures { IfOk result (λ there. there ≡ behind path.now explanation.entry) }
{
    match explanation {
        Explanation::InvalidInterval => Ok(Explanation::InvalidInterval),
        Explanation::IntervalInPast(least) => Ok(Explanation::IntervalInPast(least)),
        Explanation::Ambiguous(place, timeout) => {
            let place = joined(alloc, path, place)?;
            Ok(Explanation::Ambiguous(place, timeout))
        }
        Explanation::ValueLeaves(place) => {
            let place = joined(alloc, path, place)?;
            Ok(Explanation::ValueLeaves(place))
        }
        Explanation::SumLeaves(place, owner, token) => {
            let place = joined(alloc, path, place)?;
            Ok(Explanation::SumLeaves(place, owner, token))
        }
        Explanation::NoMatch(index, left) => {
            let left = left_behind(alloc, path, left)?;
            Ok(Explanation::NoMatch(index, left))
        }
        Explanation::Useless(left) => {
            let left = left_behind(alloc, path, left)?;
            Ok(Explanation::Useless(left))
        }
    }
}

// What is left of the part, at the end of its path.
fn left_behind<'c>(alloc: Global, path: &[PathStep], left: Left<'c>) -> Result<Left<'c>, Memory>
    ensures { IfOk result (λ there. there ≡ left_behind path.now left.entry) }
{
    let Left {
        state,
        contract,
        path: place,
    } = left;
    let path = joined(alloc, path, place)?;
    Ok(Left {
        state,
        contract,
        path,
    })
}

// One path behind another.
fn joined(
    alloc: Global,
    path: &[PathStep],
    place: Items<PathStep>,
) -> Result<Items<PathStep>, Memory>
    ensures { IfOk result (λ whole. whole ≡ path.now ++ place) }
{
    let mut whole = Vec::from_slice(alloc, path)?;
    whole.extend_from_slice(place.as_slice())?;
    Ok(Items::from_vec(whole))
}
