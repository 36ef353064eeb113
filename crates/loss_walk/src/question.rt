//! What a walk is asked.
use contract::{Account, Items, Party};

/// Of which runs floors are wanted, and of what.
#[derive(Debug, Drop)]
pub(crate) struct Question {
    /// Who keeps up in them; if it is none, they are all runs.
    pub(crate) keeper: Option<Party>,
    /// Whether what a party brings is taken off what it is paid.
    pub(crate) net: bool,
    /// The accounts of which floors above 0 are wanted: each close is asked of them.
    pub(crate) asked: Items<Account>,
}
