//! A transaction on each line of a text.
ghost use Rattle.std.specs.Prelude.{◌≡◌, ◌==◌, map, position};
ghost use Rattle.std.specs.List.{list_all};
ghost use Rattle.contract.specs.Collections.Answers.{Aside};
ghost use Rattle.json_read_names.specs.ReadsText.{of_text};
ghost use Rattle.json_read_inputs.specs.ReadsInput.{transaction};
ghost use Rattle.json_read_transactions.specs.ReadsTransactions.{is_blank, lines};
ghost use Rattle.json_read_transactions.specs.TakingSupport.{Takes, line_readings};

use crate::fault::ReadFault;
use crate::taking::put_reading;
use contract::{Items, Transaction};
use json::Scratch;
use json_read_inputs::transaction_from_json;
use json_read_names::{JsonFault, json_of};
use std::alloc::Global;

// Where a line feed ends the first line, if one does.
fn line_end(text: &[u8]) -> Option<usize>
    ensures { result ≡ position (λ b. b == 10) text.now }
{
    text.iter().position(|byte| *byte == b'\n')
}

// Whether there is nothing but blanks.
fn is_blank(line: &[u8]) -> bool
    ensures { result ≡ list_all is_blank line.now }
{
    line.iter()
        .all(|byte| *byte == b' ' || *byte == b'\t' || *byte == b'\r')
}

fn read_line(alloc: Global, line: &[u8]) -> Result<Transaction, JsonFault>
    ensures { Aside JsonFault.Memory result (of_text transaction line.now) }
{
    let mut scratch = Scratch::new(alloc);
    let json = json_of(alloc, line, &mut scratch)?;
    transaction_from_json(alloc, &json)
}

// The transaction of a line, if the line isn't blank.
fn put_line(
    alloc: Global,
    line: &[u8],
    transactions: &mut Items<Transaction>,
) -> Result<(), ReadFault>
    ensures { Takes (line_readings line.now) transactions.old transactions.new result }
{
    if is_blank(line) {
        return Ok(());
    }
    put_reading(transactions, read_line(alloc, line))
}

// The transactions of all lines.
pub(crate) fn put_lines(
    alloc: Global,
    text: &[u8],
    transactions: &mut Items<Transaction>,
) -> Result<(), ReadFault>
    ensures { Takes (map (of_text transaction) (lines text.now)) transactions.old transactions.new result }
{
    let mut rest = text;
    'lines: while let Some(end) = line_end(rest) {
        put_line(alloc, &rest[..end], transactions)?;
        rest = &rest[end + 1..];
    }
    put_line(alloc, rest, transactions)
}
