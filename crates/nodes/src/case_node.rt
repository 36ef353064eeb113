//! Cases by numbers.
use crate::cont::Cont;
use names::collections::{Items, Memory, Same, TryClone};
use names::{Bound, ChoiceId, Party, Token};

/// A case of a When: what it waits for, and the continuation that is gone on with (Marlowe
/// specification version 3, "Actions and inputs").
#[derive(Hash, Drop)]
pub enum CaseNode {
    /// A deposit into the account of the first party, by the second, of the token, of the amount that
    /// the value gives.
    Deposit(Party, Party, Token, u32, Cont),
    /// A choice of a number that lies in one of the bounds.
    Choice(ChoiceId, Items<Bound>, Cont),
    /// Word that the observation is true.
    Notify(u32, Cont),
}

impl TryClone for CaseNode {
    fn try_clone(&self) -> Result<CaseNode, Memory> {
        match self {
            CaseNode::Deposit(account, party, token, value, then) => Ok(CaseNode::Deposit(
                account.try_clone()?,
                party.try_clone()?,
                token.try_clone()?,
                *value,
                *then,
            )),
            CaseNode::Choice(id, bounds, then) => {
                Ok(CaseNode::Choice(id.try_clone()?, bounds.try_clone()?, *then))
            }
            CaseNode::Notify(observation, then) => Ok(CaseNode::Notify(*observation, *then)),
        }
    }
}

impl Same for CaseNode {
    fn same(&self, other: &CaseNode) -> bool {
        match self {
            CaseNode::Deposit(account, party, token, value, then) => match other {
                CaseNode::Deposit(a, p, t, v, k) => {
                    account.same(a) && party.same(p) && token.same(t) && *value == *v && *then == *k
                }
                _ => false,
            },
            CaseNode::Choice(id, bounds, then) => match other {
                CaseNode::Choice(i, b, k) => id.same(i) && bounds.same(b) && *then == *k,
                _ => false,
            },
            CaseNode::Notify(observation, then) => match other {
                CaseNode::Notify(o, k) => *observation == *o && *then == *k,
                _ => false,
            },
        }
    }
}

impl PartialEq for CaseNode {
    ghost use Rattle.names.specs.Collections.Same.{same_by};
    ghost use Rattle.names.proofs.FromCollections.SameLaws.{same_by-partial};
    ghost use Rattle.nodes.specs.contracts.case_node.CaseNode as it;

    ghost eq = { same_by it.the_row.coded };

    ghost laws = { same_by-partial it.the_row.coded };

    fn eq(&self, other: &CaseNode) -> bool {
        self.same(other)
    }
}

impl Eq for CaseNode {
    ghost use Rattle.names.proofs.FromCollections.SameLaws.{same_by-equiv};
    ghost use Rattle.nodes.specs.contracts.case_node.CaseNode as it;

    ghost laws = { same_by-equiv it.the_row.coded };
}

#[derived]
impl Hash for CaseNode {
    ghost use Rattle.std.specs.Hash.{same_Alike};
    ghost use Rattle.names.proofs.FromCollections.SameLaws.{same_by_decides};
    ghost use Rattle.nodes.specs.contracts.case_node.CaseNode as it;

    ghost respects_eq = { (same_Alike _ (same_by_decides it.the_row.coded)).fed };
}
