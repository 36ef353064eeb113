//! Owners that clauses see as plain data: a text or a string of bytes as its list of bytes, a
//! vector as the list of its items, a box as what is in it, a sorted map as the list of its
//! entries.
//!
//! A value that is built of them has no address and no capacity in what clauses see, so two such
//! values are equal there exactly when they are the same value.
#![tactic(auto)]

mod boxed;
mod bytes;
mod entries;
mod items;
mod same;
mod text;
mod try_clone;

pub use boxed::Boxed;
pub use bytes::Bytes;
pub use entries::{Entries, Probe};
pub use items::Items;
pub use same::{Same, same_entries};
pub use text::Text;
pub use try_clone::{Memory, TryClone};
