//! Rows beside their answers, and transactions as text: how the row programs read a file, and what its lines say.
//!
//! A program plays each file that its arguments name, a session for each. A line `= TEXT` is what the row before must answer; a row that
//! answers several lines has several of them below it. One that begins with `#` is the subject of the rows below it.
//!
//! Any other line is the session's: one that answers is a row. Of each file is printed `FILE ok N rows`, and where
//! a row answers otherwise, or a row has no answer, its `FILE:LINE` with what was wanted and what came; then the status is 1.
//! Of a file without any `=` all that its rows answer is printed: so one sees what rows that are still to be written down answer.
//!
//! Where a call of the library is refused memory, the answer is `memory`, and below it what the same line answers when it is taken once
//! more (`checks/refused_memory.py`). Where an answer itself is refused memory, the program ends with status 2.
//!
//! These lines write a transaction, and answer nothing:
//!
//! - `in REFERENCE REDEEMER` puts an input behind the others. A reference is `ORIGIN.PLACE`: the origin is `genesis`, the
//!   name of a transaction or an id. Where a transaction of a name made that output with a datum, the datum is brought, before
//!   those of outputs. The redeemer is `none`, `claim`, `step` and inputs of the contract, each in JSON without spaces, as the
//!   word `notify`, or as `deposit:PARTY:ACCOUNT:AMOUNT`, a deposit of ada by an address into the account of an address, of any
//!   amount; or `notifies` and their number;
//! - `keys COUNT` puts so many inputs behind the others, which give nothing: the first outputs that the ledger began with;
//! - `out key ADDRESS AMOUNTS`, `out payout CURRENCY ROLE AMOUNTS` and `out contract SCRIPT CONTINUATION STATE AMOUNTS` put an
//!   output behind the others. The script is an id, or `@` and the name of what is published, whose root `root` is. The
//!   state is in JSON without spaces, or the word `empty` for the state without entries at time 0. The output holds the
//!   digest of the datum of this number and state, and the transaction brings that datum;
//! - `from TIME to TIME` sets the interval;
//! - `signer ADDRESS` puts a signer behind the others;
//! - `datums NUMBER STATE ..` has the transaction bring just these data, in place of those that it brought so far.
//!
//! Amounts are `TOKEN AMOUNT ..` in any order, each token once and each amount above 0; a token is `ada` or `SYMBOL.NAME`.
//! Ids, scripts, currencies and symbols are in hexadecimal. In place of a contract, a state or an input `$` and the name of a text stands
//! for that text.
#![tactic(auto)]

mod amounts;
mod answers;
mod carried;
mod checks;
mod copied;
mod datums;
mod drafts;
mod fault;
mod identified;
mod known;
mod large;
mod outputs;
mod publications;
mod references;
mod report;
mod spends;
mod verdicts;
mod words;

pub use amounts::{amounts_of, bundle_of, put_amounts, token_of, word_of};
pub use answers::{in_bytes, put_answer, text_beside};
pub use carried::{
    both, copies_of, done, lent, list, one, put, put_at, put_in, put_option, put_words, replace,
    take_back, times,
};
pub use checks::{check_copies, keep_check, recheck_line};
pub use copied::{
    Values, apart_of, put_beside, put_copies, put_copy, put_same, put_same_copy, same_or_other,
    texts_of, value_copies, value_texts, values_apart,
};
pub use datums::{bring_for_input, bring_for_outputs, data_for_outputs, datum_of};
pub use drafts::{nothing, write};
pub use fault::{RowFault, called};
pub use identified::Identified;
pub use known::{Known, NamedText, named_text_of};
pub use large::{nested, notify_and, waiting, wide};
pub use outputs::{Written, locked, output_of, state_of, written_of};
pub use publications::{Named, named_of};
pub use references::{Sent, reference_of, sent_of, word_of_id, word_of_reference};
pub use report::{Report, put_line, put_lines, without_end};
pub use spends::{inputs_of, put_keys};
pub use verdicts::{refusal_line, verdict_line};
pub use words::{bytes, first, number, parts, sides, text};
