//! Rows of transactions and of amounts, apart from any chain: their bytes, their checks, and copies of their parts. `rows_chain` plays
//! them, and `rows_text` says how a transaction is written.
//!
//! These lines say what a transaction finds where no chain is begun, and answer nothing:
//!
//! - `finds` and an output, or `finds nothing`, says what the next input spends. The datum of a contract is brought, before those of
//!   outputs;
//! - `many COUNT ADDRESS` puts so many inputs behind the others, each of which finds 1 lovelace under the key of the address;
//! - `again` drops what the inputs find, and the data that were brought for it;
//! - `script NAME CURRENCY CONTRACT` has all transactions below it find a contract, in JSON, under the id that it is published under;
//! - `instead NAME CURRENCY CONTRACT` has them find that contract under the id of the one with this name, but for `check`.
//!
//! These are rows of the transaction that is written:
//!
//! - `transaction` prints its bytes and below them its id, in hexadecimal, and begins the next one;
//! - `check` prints the verdict on it and what it finds, and begins the next one. `check stubborn` does so by a validator that refuses
//!   each step, under the ids of the scripts that are found;
//! - `keep` prints the same verdict and keeps the check at hand, for the calls below it as well; and `recheck` prints the verdict by the
//!   checks at hand, behind `at hand` where one of them is of this transaction with an equal resolution, else `anew`. What is written
//!   stays;
//! - `asks` prints how often the stubborn script is asked by a check, then together with another check that has the first at hand, and
//!   then together with one that has it at hand under another script. What is written stays;
//! - `local` prints the verdict by the rules that the transaction and what it finds decide, and `spent` by those of what is spent alone.
//!   What is written stays;
//! - `copies transaction` prints of the transaction, its inputs and outputs and their parts whether a copy is the `same`, and behind
//!   `beside` of each in a list but the first whether it is the `same` as the one before it. So does `copies published` of what has a
//!   name, `copies found` of what is found, and `copies checks` of the checks at hand, with the verdict of each copy;
//! - `copies rooms` prints of the copies of the inputs, outputs and signers, of each signer's text and each payout's currency, how
//!   much it has of how much room.
//!
//! These are rows of their own text:
//!
//! - `datum_hash NUMBER STATE` prints the bytes of a datum and below them its digest, in hexadecimal;
//! - `sums STATE AMOUNTS` prints `same` where the amounts are the sums of the accounts of a state, else `other`;
//! - `totals TOKEN AMOUNTS / AMOUNTS` prints whether twice the first amounts have the `same` sum of the token as the second, or an `other`;
//! - `add AMOUNTS / AMOUNTS` and `subtract AMOUNTS / AMOUNTS` print `done` or the fault with its token, and then what is in the
//!   first bundle afterwards, in the order of the tokens;
//! - `room AMOUNTS` prints of a copy of amounts how many entries it has of how much room;
//! - `texts ENUM` prints the text of each fault of that name, a line for each, in their order, and `copies TxFault` whether a copy
//!   of each fault of a transaction is the `same`. `apart ENUM` prints for each value of that name that it is the `same` as itself,
//!   and before it that it is an `other` than the one before it.
#![tactic(auto)]

mod asked;
mod asks;
mod checks;
mod copies;
mod data;
mod faults;
mod finds;
mod lines;
mod resolved;
mod stubborn;
mod sums;

pub use asked::{answered, copied, judged, judged_stubbornly};
pub use faults::texts_row;
pub use finds::{Finds, is_of_finds, put_finds};
pub use resolved::found;
