//! Contracts, inputs and states in bytes: one spelling for each value, and none begins another.
//!
//! A tag is one byte, a length 8, a number 16 and a time 8; all are big endian, numbers and times in
//! two's complement. A text, a string of bytes or a list is its length and what is in it. Each value is
//! written in one pass. The writers append to bytes that are there, so that crates above write the
//! larger forms with them. What stood there stays. On a refusal a beginning of the spelling may stand
//! behind it, and no other byte; of a byte, a length, a number or a time none does.
#![tactic(auto)]

mod encode;
mod input;
mod laws;
mod names_of;
mod number;
mod spell;
mod state;
mod tree;
mod value;

pub use contract::{Contract, Input, Memory, Party, State, Token};
pub use encode::{encode_contract, encode_input, encode_party, encode_state, encode_token};
pub use input::put_input;
pub use laws::{no_spelling_begins_another, spellings_read_one_way, worked_spellings};
pub use names_of::{put_bound, put_choice_id, put_party, put_payee, put_token};
pub use number::{put_byte, put_bytes, put_length, put_number, put_text, put_time};
pub use spell::{Spell, put_list};
pub use state::put_state;
