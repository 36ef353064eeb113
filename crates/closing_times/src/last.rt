//! The last timeout of a contract.
ghost use Rattle.std.specs.Prelude.{◌≡◌, map};
ghost use Rattle.contract.specs.Tree.{contract_tree, case_tree, case_trees};
ghost use Rattle.semantics.specs.Evaluation.Timeouts.{later, last, last_in};

use contract::{Case, Contract, Items};

/// The greatest timeout of all Whens of a contract, those in its cases too; none without a When. Takes no memory.
#[cycle(last_timeout)]
pub fn last_timeout(contract: &Contract) -> Option<i64>
    ensures { result ≡ last (contract_tree contract.now) }
{
    match contract {
        Contract::Close => None,
        Contract::Pay(_, _, _, _, then) => last_timeout(then.get()),
        Contract::Let(_, _, then) => last_timeout(then.get()),
        Contract::Assert(_, then) => last_timeout(then.get()),
        Contract::If(_, then, otherwise) => {
            later(last_timeout(then.get()), last_timeout(otherwise.get()))
        }
        Contract::When(cases, timeout, then) => later(
            later(Some(*timeout), last_timeout(then.get())),
            last_of_cases(cases),
        ),
    }
}

// The greatest timeout of a When in what follows the cases.
#[cycle(last_timeout)]
fn last_of_cases(cases: &Items<Case>) -> Option<i64>
    ensures { result ≡ last_in (case_trees (map case_tree cases.now)) }
{
    let mut most = None;
    for case in cases.as_slice() {
        most = later(most, last_timeout(&case.then));
    }
    most
}

// The later of two times, where there are any.
fn later(a: Option<i64>, b: Option<i64>) -> Option<i64>
    ensures { result ≡ later a b }
{
    match (a, b) {
        (None, other) => other,
        (one, None) => one,
        (Some(one), Some(other)) => Some(one.max(other)),
    }
}
