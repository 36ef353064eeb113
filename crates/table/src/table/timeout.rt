//! The last timeout.
ghost use Rattle.std.specs.Prelude.{◌≡◌, map};
ghost use Rattle.contract.specs.Tree.{case_trees};
ghost use Rattle.evaluation.specs.Timeouts.{later, last, last_in};
ghost use Rattle.table.specs.Flat.{trees, cont_tree, Stands, AllStand, a_case, a_cont, follows};

use crate::table::Table;
use nodes::{CaseNode, Cont, ContNode};

impl Table {
    /// The greatest timeout of a When in a contract, in POSIX milliseconds; none where it has no When. Takes no
    /// memory, and goes down the unfolded tree.
    #[cycle(last_timeout)]
    pub fn last_timeout(&self, cont: Cont) -> Option<i64>
        requires { Stands self.now (a_cont cont.0) }
        ensures { result ≡ last (cont_tree self.now cont.0) }
    {
        match &self.cont_node(cont).node {
            ContNode::Close => None,
            ContNode::Pay(_, _, _, _, then) => self.last_timeout(*then),
            ContNode::If(_, then, otherwise) => {
                let first = self.last_timeout(*then);
                later(first, self.last_timeout(*otherwise))
            }
            ContNode::When(cases, timeout, then) => {
                let own = later(Some(*timeout), self.last_timeout(*then));
                later(own, self.last_in_cases(cases.as_slice()))
            }
            ContNode::Let(_, _, then) => self.last_timeout(*then),
            ContNode::Assert(_, then) => self.last_timeout(*then),
        }
    }

    // The greatest timeout of a When in what follows the cases.
    #[cycle(last_timeout)]
    fn last_in_cases(&self, cases: &[u32]) -> Option<i64>
        requires { AllStand self.now (map a_case cases.now) }
        ensures { result ≡ last_in (case_trees (map (trees self.now).case cases.now)) }
    {
        let mut most = None;
        for case in cases {
            let then = follows(&self.case_node(*case).node);
            most = later(most, self.last_timeout(then));
        }
        most
    }
}

// What follows a case.
fn follows(node: &CaseNode) -> Cont
    ensures { result ≡ follows node.now }
{
    match node {
        CaseNode::Deposit(_, _, _, _, then) => *then,
        CaseNode::Choice(_, _, then) => *then,
        CaseNode::Notify(_, then) => *then,
    }
}

// The later of two times, where there are any.
fn later(a: Option<i64>, b: Option<i64>) -> Option<i64>
    ensures { result ≡ later a b }
{
    match (a, b) {
        (None, other) => other,
        (one, None) => one,
        (Some(one), Some(other)) => Some(one.max(other)),
    }
}
