//! The whole text.
ghost use Rattle.std.specs.Prelude.{◌≡◌, ◌++◌, IfOk, OnOk, decimal, string_bytes};
ghost use Rattle.table_lines.specs.TableLines.{lines, table_lines};

use crate::lines::Line;
use std::alloc::Global;
use std::fmt::Write;
use table::collections::Memory;
use table::{Cont, Entry, Table};

/// The text of a table and the continuation at its root: a line for each node, all values first, then the observations, the
/// cases and the continuations, each list counted from 0, and last the line `root kN`. Each line ends in a line feed.
/// Parties, tokens, choices, payees and names are compact JSON.
#[tactic(auto, unfolding(crate::specs::TableLines::table_lines))]
pub fn table_lines(alloc: Global, table: &Table, root: Cont) -> Result<Vec<u8>, Memory>
    ensures { IfOk result (λ text. text.items ≡ table_lines table.now root) }
{
    let mut out = String::new(alloc);
    print_lines(alloc, &mut out, "v", table.values())?;
    print_lines(alloc, &mut out, "o", table.observations())?;
    print_lines(alloc, &mut out, "c", table.cases())?;
    print_lines(alloc, &mut out, "k", table.conts())?;
    let root = root.0;
    write!(out, "root k{root}\n")?;
    Ok(out.into_bytes())
}

// Prints the lines of a list.
fn print_lines<N: Line>(
    alloc: Global,
    out: &mut String,
    letter: &str,
    entries: &[Entry<N>],
) -> Result<(), Memory>
    ensures { OnOk result (string_bytes out.new ≡ string_bytes out.old ++ lines (λ n. letter.now ++ decimal n) N.words 0 entries.now) }
{
    for (number, entry) in entries.iter().enumerate() {
        write!(out, "{letter}{number}")?;
        entry.node.print(alloc, out)?;
    }
    Ok(())
}
