//! Outputs and looks as they are printed.
use contract::{Memory, State};
use contract_json::fitting_to_json;
use ledger::{Datum, Lock, Look, Output, OutputRef, ThreadOutput, Unspent};
use rows_text::{Known, put_amounts, put_words, word_of_reference};
use std::alloc::{AllocError, Global};

/// Puts a line for each output that a look shows at the end.
pub fn put_look(
    alloc: Global,
    lines: &mut String,
    known: &Known,
    look: &Look,
) -> Result<(), AllocError> {
    put_thread(alloc, lines, known, &look.thread)?;
    put_unspent(alloc, lines, known, look.keys.as_slice())?;
    put_unspent(alloc, lines, known, look.payouts.as_slice())
}

fn put_thread(
    alloc: Global,
    lines: &mut String,
    known: &Known,
    thread: &Option<ThreadOutput>,
) -> Result<(), AllocError> {
    match thread {
        Some(thread) => {
            lines.push_str("\n thread")?;
            let datum = Some(&thread.datum);
            put_one(
                alloc,
                lines,
                known,
                &thread.reference,
                &thread.output,
                datum,
            )?;
            lines.push_str("\n published ")?;
            put_words(
                lines,
                known.word_of_script(alloc, &thread.published.get().id),
            )
        }
        None => lines.push_str("\n no thread"),
    }
}

fn put_unspent(
    alloc: Global,
    lines: &mut String,
    known: &Known,
    outputs: &[Unspent],
) -> Result<(), AllocError> {
    for unspent in outputs {
        lines.push('\n')?;
        put_one(
            alloc,
            lines,
            known,
            &unspent.reference,
            &unspent.output,
            None,
        )?;
    }
    Ok(())
}

fn put_one(
    alloc: Global,
    line: &mut String,
    known: &Known,
    reference: &OutputRef,
    output: &Output,
    datum: Option<&Datum>,
) -> Result<(), AllocError> {
    line.push(' ')?;
    put_words(line, word_of_reference(alloc, &known.sent, reference))?;
    line.push(' ')?;
    put_output(alloc, line, known, output, datum)
}

/// Puts an output at the end, as it is written: a contract's with its datum, or where none is given with the digest.
pub fn put_output(
    alloc: Global,
    line: &mut String,
    known: &Known,
    output: &Output,
    datum: Option<&Datum>,
) -> Result<(), AllocError> {
    put_lock(alloc, line, known, &output.lock, datum)?;
    put_amounts(alloc, line, &output.amount)
}

fn put_lock(
    alloc: Global,
    line: &mut String,
    known: &Known,
    lock: &Lock,
    datum: Option<&Datum>,
) -> Result<(), AllocError> {
    match lock {
        Lock::Key(address) => {
            line.push_str("key ")?;
            line.push_str(address.as_str())
        }
        Lock::Payout { currency, role } => {
            line.push_str("payout ")?;
            put_words(line, hex::encode(alloc, currency.as_slice()))?;
            line.push(' ')?;
            line.push_str(role.as_str())
        }
        Lock::Contract {
            script,
            datum: digest,
        } => put_contract(alloc, line, known, script, digest, datum),
    }
}

fn put_contract(
    alloc: Global,
    line: &mut String,
    known: &Known,
    script: &[u8; 32],
    digest: &[u8; 32],
    datum: Option<&Datum>,
) -> Result<(), AllocError> {
    line.push_str("contract ")?;
    put_words(line, known.word_of_script(alloc, script))?;
    match datum {
        Some(datum) => {
            put_words(line, format!(in alloc; " {} ", datum.cont.0))?;
            put_words(line, state_word(alloc, &datum.state))
        }
        None => {
            line.push(' ')?;
            put_words(line, hex::encode(alloc, digest.as_slice()))
        }
    }
}

/// The word for a state: `empty` for the one without entries at time 0, else JSON.
pub fn state_word(alloc: Global, state: &State) -> Result<String, Memory> {
    if is_empty(state) {
        return String::from_str(alloc, "empty");
    }
    fitting_to_json(alloc, state)?.to_string(alloc)
}

fn is_empty(state: &State) -> bool {
    state.min_time() == 0
        && state.accounts().is_empty()
        && state.choices().is_empty()
        && state.bound_values().is_empty()
}
