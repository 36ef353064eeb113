//! Rows of what only calls of the libraries say: values in JSON and in bytes, copies, tables, and the texts of faults. `rows_commands`
//! plays them, and `rows_given` says which lines give texts: a row without a text of its own is about that of the last line `text`.
//!
//! These are rows:
//!
//! - `both` runs the transaction of its text, on the contract's tree and on its table, and prints the outcome or the line of the
//!   refusal once where both tell the same, and the table stands for the contract. On the table it tells a copy of the outcome;
//! - `read SORT` reads the text as a value of that sort and prints what is written for it, or the fault; of a `scenario` it prints a line
//!   for the tick, each item and each intent;
//! - `back SORT` also reads what was written, and prints whether that is the `same` value, and how many bytes it has;
//! - `form SORT` does as `read`, by way of a JSON value, for each sort that has a form;
//! - `copy SORT` prints whether a copy of the value is the `same`;
//! - `compare SORT` prints whether the text and the longer text stand for the `same` value or for an `other`;
//! - `spell SORT` prints the bytes of the value in hexadecimal;
//! - `put SORT` prints the bytes that are put behind others: for a party, token, choice_id, payee, bound, input or state, each in
//!   JSON, for a `byte`, `length`, `number`, `time` or `text`, for `bytes`, in hexadecimal, and for a list of `texts`;
//! - `constant N` prints the bytes of the contract that binds `x` to a number, and its text or the fault of writing it;
//! - `large N` prints whether a copy of a contract that waits for so many notifies, each followed by close, is the `same`, and how many bytes
//!   the contract has;
//! - `start ROLE AMOUNT,ROLE AMOUNT ..` prints the state that starts with these accounts in ada, or the fault;
//! - `refused ENUM` prints the line of the refusal for each fault of that name;
//! - `texts ENUM` prints the text of each fault of that name, a line for each, in their order;
//! - `apart ENUM` prints for each value of that name that it is the `same` as itself, and before it that it is an `other` than the
//!   one before it;
//! - `line` prints what a command line asks for, or where the text of `clap` goes;
//! - `last_timeout TEXT` prints the last timeout of a contract's table, or `none`;
//! - `nested N` compiles an assertion of so many `not`s round `true`, and prints the height of its node, or the fault;
//! - `wide N` compiles a contract that waits for so many notifies, each followed by close, and prints the number of its root,
//!   or the fault;
//! - `grid M N` the same of a contract that waits for `M` notifies, each followed by an equal one that waits for `N`, each of these
//!   followed by close;
//! - `copies TEXT` prints of a contract's table whether a copy of it and of its root is the `same`; then a line for its values,
//!   observations, cases and continuations: for each whether a copy is the `same`, and behind `beside` for each but the first
//!   whether it is the `same` as the one before it or an `other`.
#![tactic(auto)]

mod answers;
mod faults;
mod forms;
mod intents;
mod lines;
mod numbers;
mod on_tables;
mod scenarios;
mod sorts;
mod spellings;
mod starts;
mod tables;
mod texts;

pub use answers::answer_of;
