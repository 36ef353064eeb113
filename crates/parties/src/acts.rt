//! What a party does next.
use hub::{Call, Checked, Published};

/// One thing that a party does by its seat.
#[derive(Drop)]
pub(crate) enum Act {
    /// A call as it is.
    Call(Call),
    /// The Submit of a transaction that was checked.
    Admit(Checked<Published>),
    /// A round, with its checks made by so many workers.
    Round { count: u64, workers: usize },
}
