//! What a look holds of a ledger.
ghost use Rattle.std.specs.Prelude.{◌≡◌, IfOk, option_copied};
ghost use Rattle.roles.specs.Eutxo.Judgement.{found};
ghost use Rattle.roles.specs.Eutxo.Faults.{or_else};
ghost use Rattle.roles.specs.declared.published.Published.{Published};
ghost use Rattle.ledger.specs.Shown.{output_among, output_of_thread, output_shown, script_shown, look_moment};

use crate::found::resolve;
use crate::ledger::Resolves;
use crate::look::{Look, ThreadOutput, Unspent};
use contract::Memory;
use roles::{Output, OutputRef, Published, Resolved, Shared, Tx};
use std::alloc::Global;

fn output_among<'a>(outputs: &'a [Unspent], reference: &OutputRef) -> Option<&'a Output>
    ensures { option_copied result ≡ output_among outputs.now reference.now }
{
    // written loop: the first with this reference
    for x in outputs {
        if x.reference.is_same(*reference) {
            return Some(&x.output);
        }
    }
    None
}

fn thread_output<'a>(thread: &'a Option<ThreadOutput>, reference: &OutputRef) -> Option<&'a Output>
    ensures { option_copied result ≡ output_of_thread thread.now reference.now }
{
    match thread {
        Some(x) => {
            if x.reference.is_same(*reference) {
                Some(&x.output)
            } else {
                None
            }
        }
        None => None,
    }
}

fn either<'a>(x: Option<&'a Output>, y: Option<&'a Output>) -> Option<&'a Output>
    ensures { option_copied result ≡ or_else (option_copied x.entry) (option_copied y.entry) }
{
    match x {
        Some(output) => Some(output),
        None => y,
    }
}

fn output_shown<'a>(look: &'a Look, reference: &OutputRef) -> Option<&'a Output>
    ensures { option_copied result ≡ output_shown look.now reference.now }
{
    either(
        thread_output(&look.thread, reference),
        either(
            output_among(look.keys.as_slice(), reference),
            output_among(look.payouts.as_slice(), reference),
        ),
    )
}

fn script_shown<'a>(
    thread: &'a Option<ThreadOutput>,
    id: &[u8; 32],
) -> Option<&'a Shared<Published>>
    ensures { option_copied result ≡ script_shown thread.now id.now }
{
    match thread {
        Some(x) => {
            if x.published.get().id == *id {
                Some(&x.published)
            } else {
                None
            }
        }
        None => None,
    }
}

impl Resolves<Published> for Look {
    ghost moment = { λ look. look_moment look };

    fn unspent_at(&self, reference: &OutputRef) -> Option<&Output> {
        output_shown(self, reference)
    }

    fn published_at(&self, script: &[u8; 32]) -> Option<&Shared<Published>> {
        script_shown(&self.thread, script)
    }
}

impl Look {
    /// All that the look holds of what is found of what a transaction names: the outputs of its inputs
    /// that are shown, and what is published under the thread's script where the transaction's outputs
    /// or those outputs name it. Answers `Memory` only where a growth was refused.
    pub fn resolve(&self, alloc: Global, tx: &Tx) -> Result<Resolved<Published>, Memory>
        ensures { IfOk result (λ resolved. resolved ≡ found (look_moment self.now) tx.now) }
    {
        resolve(alloc, self, tx)
    }
}
