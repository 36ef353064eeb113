//! Who holds what stands unspent: by holder and token, summed.
//!
//! `holdings_of` sums what unspent outputs hold, in n log n steps. `specs/Holdings.antt` says what that is, also after a history, and
//! `specs/HoldingLines.antt` how `holding_lines` prints it.
#![tactic(auto)]

mod ends;
mod holder;
mod holding;
mod holdings;
mod lent;
mod lines;
mod one_by_one;
mod sums;
mod worked;

pub use holder::Holder;
pub use holding::Holding;
pub use holdings::holdings_of;
pub use lent::LentOutput;
pub use lines::holding_lines;
pub use worked::worked_holdings;
