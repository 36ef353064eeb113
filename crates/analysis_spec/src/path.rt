//! Places in a contract.

/// A step of a path into a contract, in the words of its JSON. A place is the list of the steps that lead to it.
#[derive(Clone, Copy, Debug, PartialEq, Eq, Hash, Drop)]
pub enum PathStep {
    /// What follows a Pay, a Let or an Assert, or the branch of an If whose observation is true.
    Then,
    /// The branch of an If whose observation is false.
    Else,
    /// What a When goes on with from its timeout on.
    TimeoutContinuation,
    /// What follows the action of a case of a When, by the case's place from 0.
    Case(usize),
    /// The action of a case of a When, by the case's place from 0. It is the last step.
    Action(usize),
}
