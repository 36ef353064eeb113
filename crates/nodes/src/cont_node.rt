//! Continuations by numbers.
use crate::cont::Cont;
use names::collections::{Items, Memory, Same, Text, TryClone};
use names::{Party, Payee, Token};

/// A contract whose parts are numbers of a table (Marlowe specification version 3, "Contracts").
#[derive(Hash, Drop)]
pub enum ContNode {
    /// Every account is paid out to its owner, and nothing is left.
    Close,
    /// The account of the party pays the payee of the token the amount that the value gives.
    Pay(Party, Payee, Token, u32, Cont),
    /// The first continuation where the observation is true, else the second.
    If(u32, Cont, Cont),
    /// Waits for one of the cases, which are tried in order, up to the timeout in POSIX milliseconds; from
    /// then on the continuation is gone on with.
    When(Items<u32>, i64, Cont),
    /// The name is bound to the value.
    Let(Text, u32, Cont),
    /// Warns where the observation is false.
    Assert(u32, Cont),
}

impl TryClone for ContNode {
    fn try_clone(&self) -> Result<ContNode, Memory> {
        match self {
            ContNode::Close => Ok(ContNode::Close),
            ContNode::Pay(from, to, token, value, then) => Ok(ContNode::Pay(
                from.try_clone()?,
                to.try_clone()?,
                token.try_clone()?,
                *value,
                *then,
            )),
            ContNode::If(observation, then, otherwise) => {
                Ok(ContNode::If(*observation, *then, *otherwise))
            }
            ContNode::When(cases, timeout, then) => {
                Ok(ContNode::When(cases.try_clone()?, *timeout, *then))
            }
            ContNode::Let(name, value, then) => {
                Ok(ContNode::Let(name.try_clone()?, *value, *then))
            }
            ContNode::Assert(observation, then) => Ok(ContNode::Assert(*observation, *then)),
        }
    }
}

impl Same for ContNode {
    fn same(&self, other: &ContNode) -> bool {
        match self {
            ContNode::Close => matches!(other, ContNode::Close),
            ContNode::Pay(from, to, token, value, then) => match other {
                ContNode::Pay(f, y, t, v, k) => {
                    from.same(f) && to.same(y) && token.same(t) && *value == *v && *then == *k
                }
                _ => false,
            },
            ContNode::If(observation, then, otherwise) => match other {
                ContNode::If(o, k, l) => *observation == *o && *then == *k && *otherwise == *l,
                _ => false,
            },
            ContNode::When(cases, timeout, then) => match other {
                ContNode::When(c, t, k) => cases.same(c) && *timeout == *t && *then == *k,
                _ => false,
            },
            ContNode::Let(name, value, then) => match other {
                ContNode::Let(n, v, k) => name.same(n) && *value == *v && *then == *k,
                _ => false,
            },
            ContNode::Assert(observation, then) => match other {
                ContNode::Assert(o, k) => *observation == *o && *then == *k,
                _ => false,
            },
        }
    }
}

impl PartialEq for ContNode {
    ghost use Rattle.names.specs.Collections.Same.{same_by};
    ghost use Rattle.names.proofs.FromCollections.SameLaws.{same_by-partial};
    ghost use Rattle.nodes.specs.contracts.cont_node.ContNode as it;

    ghost eq = { same_by it.the_row.coded };

    ghost laws = { same_by-partial it.the_row.coded };

    fn eq(&self, other: &ContNode) -> bool {
        self.same(other)
    }
}

impl Eq for ContNode {
    ghost use Rattle.names.proofs.FromCollections.SameLaws.{same_by-equiv};
    ghost use Rattle.nodes.specs.contracts.cont_node.ContNode as it;

    ghost laws = { same_by-equiv it.the_row.coded };
}

#[derived]
impl Hash for ContNode {
    ghost use Rattle.std.specs.Hash.{same_Alike};
    ghost use Rattle.names.proofs.FromCollections.SameLaws.{same_by_decides};
    ghost use Rattle.nodes.specs.contracts.cont_node.ContNode as it;

    ghost respects_eq = { (same_Alike _ (same_by_decides it.the_row.coded)).fed };
}
