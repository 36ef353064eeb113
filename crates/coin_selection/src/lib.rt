//! What a request has to spend: what is offered, what is wanted of it, and what is spent together.
//!
//! A request wants amounts of tokens and tokens of roles. Of the outputs that are offered to it, in order, it spends
//! the shortest front that has them. Here are the clauses on what is offered and spent, each one function that passes
//! or answers the clause's fault, the fronts, and the sums of what several outputs or accounts hold. They are defined
//! in `builder_spec`.
#![tactic(auto)]

mod accounts;
mod amounts;
mod authorise;
mod checks;
mod front;
mod funds;
mod limits;
mod missing;
mod own_output;
mod requirements;
mod role_tokens;
mod signed;
mod sums;

pub use accounts::sums_of;
pub use amounts::{Amount, accounts_of, put_deposits};
pub use authorise::first_unheld;
pub use checks::{check_apart, check_authorised, check_funds, check_owned_once, check_signed};
pub use front::{front_of, start_front};
pub use limits::{Shares, owned_within, shares_within};
pub use own_output::OwnOutput;
pub use role_tokens::{RoleToken, put_roles, roles_of};
pub use sums::{see_all, see_room, sum};
