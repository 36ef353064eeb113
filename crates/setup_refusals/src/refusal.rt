//! Refusals.
use collections::Text;

/// Why something is refused.
#[derive(Debug, PartialEq, Eq, Drop)]
pub struct Cause {
    /// The fault as lines have it: its name, and behind it what it is about.
    pub fault: Text,
    /// The fault in words.
    pub words: Text,
}

/// What of a setup is refused, and why. Contracts and threads are named as in the scenario.
#[derive(Debug, PartialEq, Eq, Drop)]
pub enum SetupRefusal {
    /// No ledger begins with what the addresses have.
    Genesis(Cause),
    /// The contract of this name isn't published.
    Contract(Text, Cause),
    /// The thread of this name isn't started.
    Thread(Text, Cause),
}
