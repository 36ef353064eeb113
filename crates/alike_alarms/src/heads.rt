//! Alarms that are told in full.
ghost use Rattle.std.specs.Prelude.{◌≡◌, ◌<◌, ◌+◌, ℕ, true, map, length, get_or, set, All, IfOk};
ghost use Rattle.contract.specs.Tree.{contract_tree};
ghost use Rattle.alike_alarms.specs.Alike.{AreHeads, heads, head_at};
ghost use Rattle.alike_alarms.specs.AlikeSupport.{seen_of, AreCounts};

use crate::guesses::guesses_of;
use crate::seen::Seen;
use crate::tellers::tellers_of;
use contract::{Contract, Memory};
use std::alloc::Global;

/// Of each alarm, of those that stand in the order of a contract: how many others are told with it, or none where it is told
/// with another. That one is of its kind, at an equal part of the contract, and has a run if it has one. Of all that are alike
/// the first that has a run is told, else the first; but of texts that are nested deeper than 127 not all need be found alike.
pub fn heads_of(
    alloc: Global,
    contract: &Contract,
    seen: &[Seen<'_>],
) -> Result<Vec<Option<usize>>, Memory>
    ensures { IfOk result (λ all. AreHeads (contract_tree contract.now) (map seen_of seen.now) all.items) }
{
    let guesses = guesses_of(alloc, contract, seen)?;
    let tellers = tellers_of(alloc, contract, seen, &guesses)?;
    heads_by(alloc, &tellers)
}

fn heads_by(alloc: Global, tellers: &[usize]) -> Result<Vec<Option<usize>>, Memory>
    requires { All (λ l. l < length tellers.now) tellers.now }
    ensures { IfOk result (λ all. all.items ≡ heads tellers.now) }
{
    let counts = counts_of(alloc, tellers)?;
    heads(alloc, tellers, &counts)
}

// How many alarms each is told for, itself too.
fn counts_of(alloc: Global, tellers: &[usize]) -> Result<Vec<usize>, Memory>
    requires { All (λ l. l < length tellers.now) tellers.now }
    ensures { IfOk result (λ counts. AreCounts tellers.now counts.items) }
{
    let mut counts = zeros(alloc, tellers.len())?;
    for teller in tellers {
        add_one(&mut counts, *teller);
    }
    Ok(counts)
}

fn add_one(counts: &mut Vec<usize>, at: usize)
    requires { (at < length counts.old.items) × (get_or counts.old.items at 0 < length counts.old.items) }
    ensures { counts.new.items ≡ set counts.old.items at (get_or counts.old.items at 0 + 1) }
{
    let count = counts[at];
    counts[at] = count + 1;
}

fn zeros(alloc: Global, many: usize) -> Result<Vec<usize>, Memory>
    ensures { IfOk result (λ all. (length all.items ≡ many) × ((k : ℕ) → get_or all.items k 0 ≡ 0)) }
{
    let mut all = Vec::new(alloc);
    for _ in 0..many {
        all.push(0)?;
    }
    Ok(all)
}

fn heads(alloc: Global, tellers: &[usize], counts: &[usize]) -> Result<Vec<Option<usize>>, Memory>
    requires { AreCounts tellers.now counts.now }
    ensures { IfOk result (λ all. all.items ≡ heads tellers.now) }
{
    let mut all = Vec::new(alloc);
    for index in 0..tellers.len() {
        all.push(head_at(tellers, counts, index))?;
    }
    Ok(all)
}

fn head_at(tellers: &[usize], counts: &[usize], index: usize) -> Option<usize>
    requires there { index < length tellers.now }
    requires counts { AreCounts tellers.now counts.now }
    ensures { result ≡ head_at tellers.now index }
{
    if tellers[index] == index {
        Some(counts[index].saturating_sub(1))
    } else {
        None
    }
}
