//! The thread that a look shows.
ghost use Rattle.std.specs.Prelude.{◌≡◌, Some, IfOk};
ghost use Rattle.builder_spec.specs.Steps.{is_current, thread_of, own_output};

use builder_spec::{ContractLock, Datum, ThreadOutput, datum_hash, holds_sums};
use coin_selection::OwnOutput;
use contract::Memory;
use std::alloc::Global;
use std::marker::Model;

/// A thread's output with its datum, lent. Clauses see the thread.
#[derive(Drop)]
pub(crate) struct ThreadAt<'a> {
    pub shown: &'a ThreadOutput,
    pub datum: &'a Datum,
}

impl<'a> Model for ThreadAt<'a> {
    ghost use Rattle.std.specs.Coded.{codes};
    ghost use Rattle.builder_spec.specs.Machine.contracts.datum.Datum as datums;
    ghost use Rattle.builder_spec.specs.Ledger.contracts.look.ThreadOutput as threads;
    ghost use Rattle.builder_spec.specs.Steps.{Thread};

    ghost Value = { Thread };

    ghost coded = { Prim.hlevel (codes, datums.the_row.coded, threads.the_row.coded) };

    ghost view = { λ a. record { shown = a.shown.now; datum = a.datum.now } };
}

impl<'a> ThreadAt<'a> {
    /// The thread's output.
    pub fn own_output(&self) -> OwnOutput<'a>
        ensures { result ≡ own_output self.now }
    {
        let shown = self.shown;
        OwnOutput {
            reference: shown.reference,
            output: &shown.output,
        }
    }
}

// Whether a thread's output is of the published script and holds its datum's digest, the datum is at a number of the
// table, and the output holds exactly the sums of its accounts.
fn is_current(alloc: Global, shown: &ThreadOutput, held: &ContractLock<'_>) -> Result<bool, Memory>
    ensures { IfOk result (λ answer. answer ≡ is_current shown.now held.now) }
{
    let published = shown.published.get();
    let datum = &shown.datum;
    let digest = datum_hash(alloc, datum)?;
    if *held.script == published.id
        && digest == *held.digest
        && published.table.contains(datum.cont)
    {
        holds_sums(alloc, &shown.output.amount, &datum.state)
    } else {
        Ok(false)
    }
}

/// The thread of an output that is shown, where it stands.
pub(crate) fn thread_of(alloc: Global, shown: &ThreadOutput) -> Result<Option<ThreadAt<'_>>, Memory>
    ensures { IfOk result (λ thread. thread ≡ thread_of (Some shown.now)) }
{
    match shown.output.lock.contract() {
        Some(held) => {
            if is_current(alloc, shown, &held)? {
                Ok(Some(ThreadAt {
                    shown,
                    datum: &shown.datum,
                }))
            } else {
                Ok(None)
            }
        }
        None => Ok(None),
    }
}
