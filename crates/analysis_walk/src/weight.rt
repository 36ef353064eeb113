//! How large contracts are: which branch is walked last, with what is known there, and not with a copy of it.
ghost use Rattle.std.specs.Prelude.{◌≡◌, true};
ghost use Rattle.contract.specs.Tree.{contract_tree, close};

use contract::{Case, Contract};

/// Whether a contract is Close.
pub(crate) fn is_closed(contract: &Contract) -> bool
    ensures { result ≡ true → contract_tree contract.now ≡ close }
{
    matches!(contract, Contract::Close)
}

/// How many contracts a contract has in it, itself among them.
#[cycle(weight)]
pub(crate) fn weight(contract: &Contract) -> usize {
    match contract {
        Contract::Close => 1,
        Contract::Pay(_, _, _, _, then) | Contract::Let(_, _, then) | Contract::Assert(_, then) => {
            weight(then.get()).saturating_add(1)
        }
        Contract::If(_, then, otherwise) => {
            let more = weight(otherwise.get()).saturating_add(1);
            weight(then.get()).saturating_add(more)
        }
        Contract::When(cases, _, then) => {
            let more = weight(then.get()).saturating_add(1);
            weights(cases.as_slice()).saturating_add(more)
        }
    }
}

#[cycle(weight)]
fn weights(cases: &[Case]) -> usize {
    let mut sum: usize = 0;
    for case in cases {
        sum = sum.saturating_add(weight(&case.then));
    }
    sum
}

/// The place of the largest case, of those with one size the first; and its size.
pub(crate) fn largest(cases: &[Case]) -> (usize, usize) {
    let mut place = 0;
    let mut most = 0;
    for (index, case) in cases.iter().enumerate() {
        let size = weight(&case.then);
        if size > most {
            place = index;
            most = size;
        }
    }
    (place, most)
}
