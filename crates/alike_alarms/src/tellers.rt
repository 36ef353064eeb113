//! Which alarm is told for each.
ghost use Rattle.std.specs.Prelude.{◌≡◌, ◌<◌, true, false, map, length, get_or, IfOk};
ghost use Rattle.contract.specs.Tree.{contract_tree};
ghost use Rattle.alike_alarms.specs.Alike.{AreToldBy, Leads};
ghost use Rattle.alike_alarms.specs.AlikeSupport.{seen_of, IsChosen, CanTell};

use crate::parts::are_alike;
use crate::seen::Seen;
use contract::{Contract, Memory};
use std::alloc::Global;

/// Of each alarm the index of the one that is told for it: that of a guess where they are alike, else its own.
pub(crate) fn tellers_of(
    alloc: Global,
    contract: &Contract,
    seen: &[Seen<'_>],
    guesses: &[usize],
) -> Result<Vec<usize>, Memory>
    ensures { IfOk result (λ tellers. AreToldBy (contract_tree contract.now) (map seen_of seen.now) tellers.items) }
{
    let mut tellers = Vec::new(alloc);
    for index in 0..seen.len() {
        tellers.push(teller_of(contract, seen, guesses, index))?;
    }
    Ok(tellers)
}

#[tactic(auto, using(crate::proofs::TellerLemmas::chosen_itself, crate::proofs::TellerLemmas::chosen_guess))]
fn teller_of(contract: &Contract, seen: &[Seen<'_>], guesses: &[usize], index: usize) -> usize
    requires { index < length seen.now }
    ensures { IsChosen (contract_tree contract.now) seen.now guesses.now index result }
{
    let guess = guess_at(guesses, index);
    let taken = can_tell(contract, seen, guesses, index, guess);
    if taken { guess } else { index }
}

// Whether a guess is an alarm whose guess is itself, and that can be told for another.
fn can_tell(
    contract: &Contract,
    seen: &[Seen<'_>],
    guesses: &[usize],
    index: usize,
    guess: usize,
) -> bool
    requires { index < length seen.now }
    ensures { result ≡ true → CanTell (contract_tree contract.now) seen.now guesses.now index guess }
{
    let few = seen.len();
    if guess >= few {
        return false;
    }
    let own = guess_at(guesses, guess);
    if own != guess {
        return false;
    }
    leads(contract, seen[guess], seen[index], guess, index)
}

// The guess at an index: the index itself where there is none.
fn guess_at(guesses: &[usize], index: usize) -> usize
    ensures { result ≡ get_or guesses.now index index }
{
    match guesses.get(index) {
        Some(guess) => *guess,
        None => index,
    }
}

// Whether an alarm, at an index, can be told for another.
fn leads(contract: &Contract, one: Seen<'_>, other: Seen<'_>, at: usize, behind: usize) -> bool
    ensures { result ≡ true → Leads (contract_tree contract.now) at behind (seen_of one.entry) (seen_of other.entry) }
{
    let first = stands_first(one.has_run, other.has_run, at, behind);
    if !first {
        return false;
    }
    are_alike(contract, one.alarm, other.alarm)
}

// Whether one alone has a run, or both or neither and it stands before the other.
fn stands_first(one: bool, other: bool, at: usize, behind: usize) -> bool
    ensures run { result ≡ true → other ≡ true → one ≡ true }
    ensures first { result ≡ true → one ≡ other → at < behind }
{
    match (one, other) {
        (true, false) => true,
        (false, true) => false,
        (true, true) | (false, false) => at < behind,
    }
}
