//! The records of a thread.
ghost use Rattle.std.specs.Prelude.{◌≡◌, ◌<◌, ◌+◌, ℕ, true, All, List, Option, Some, IfOk, map, drop, length, option_copied};
ghost use Rattle.ledger_kept.specs.Roles.declared.published.Published.{Published as Object};
ghost use Rattle.ledger_kept.specs.Roles.Steps.{marlowe};
ghost use Rattle.ledger_kept.specs.Roles.Terms.{terms_of};
ghost use Rattle.ledger_kept.specs.LedgerLaws.Laws.{AreTables};
ghost use Rattle.ledger_kept.specs.LedgerLaws.Past.{Past};
ghost use Rattle.ledger_kept.specs.LedgerLaws.Threads.{brought_to, brought_by, IsStart, Member, Carries, next_of};
ghost use Rattle.ledger_kept.specs.LedgerSpec.declared.step_record.StepRecord.{StepRecord as ARecord};
ghost use Rattle.ledger_kept.specs.LedgerSpec.Replay.{past_of, published_at, world};
ghost use Rattle.ledger_kept.specs.LedgerSpec.Records.{member_of, HoldsNumber, TellTheRun, AreSteps, HoldNumbers};
ghost use Rattle.ledger_kept.specs.Kept.{IsIndexOf};
ghost use Rattle.ledger_views.specs.RecordsSupport.{goes_to, Leads, given, instance_next, number_after, IsStepOf, IsAStep, IsAThread};

use crate::links::{ThreadLink, thread};
use crate::start::start_at;
use contract::{Input, Items, Memory, SemFault, TryClone};
use ledger_kept::{
    Cont, Datum, Index, Instance, Kept, OutputRef, Published, Spend, StepRecord, Steps, Tx,
    index_follows_threads, names_are_single, threads_are_runs,
};
use std::alloc::{AllocError, Global};

// ---- a step

// The inputs that are given to the contract in an output.
fn given<'a>(reference: &OutputRef, inputs: &'a [Spend]) -> &'a [Input]
    ensures { result.now ≡ given reference.now inputs.now }
{
    for x in inputs {
        if x.reference.is_same(*reference) {
            return x.redeemer.inputs();
        }
    }
    &[]
}

fn copies_of(alloc: Global, inputs: &[Input]) -> Result<Items<Input>, Memory>
    ensures { IfOk result (λ copies. copies ≡ inputs.now) }
{
    let mut copies = Items::new(alloc);
    for x in inputs {
        copies.push(x.try_clone()?)?;
    }
    Ok(copies)
}

// The datum that is brought for the output that a reference names.
fn brought_to<'a>(reference: &OutputRef, inputs: &[Spend], datums: &'a [Datum]) -> Option<&'a Datum>
    ensures { option_copied result ≡ brought_to reference.now inputs.now datums.now }
{
    let mut steps = 0;
    for x in inputs {
        if x.reference.is_same(*reference) {
            return datums.get(steps);
        }
        if x.redeemer.is_step() {
            steps += 1;
        }
    }
    None
}

// The contract that a transaction makes in the output in which a thread goes on.
fn made_in<'a>(tx: &'a Tx, next: &OutputRef) -> Option<Instance<'a>>
    ensures { result ≡ instance_next tx.now (Some next.now) }
{
    match next {
        OutputRef::Genesis { .. } => None,
        OutputRef::Made { index, .. } => tx.contract_at(*index),
    }
}

fn instance_next<'a>(tx: &'a Tx, next: Option<OutputRef>) -> Option<Instance<'a>>
    ensures { result ≡ instance_next tx.now next }
{
    match next {
        Some(next) => made_in(tx, &next),
        None => None,
    }
}

// Where a thread goes on after a transaction: at the number that the next output holds; where no output goes on, at
// this place.
fn number_after(tx: &Tx, next: Option<OutputRef>, place: Cont) -> Cont
    ensures { result ≡ number_after (instance_next tx.now next) place }
{
    match instance_next(tx, next) {
        Some(next) => next.datum.cont,
        None => place,
    }
}

// The record of one transaction of a thread, which brings this datum for the output that it spends, and after which the
// thread goes on in this output.
fn recorded_from(
    alloc: Global,
    published: &Published,
    datum: &Datum,
    link: &ThreadLink<'_>,
    next: Option<OutputRef>,
) -> Result<StepRecord, Memory>
    requires brought { brought_by link.now ≡ Some datum.now }
    requires step { IsAStep (terms_of published.now) next link.now }
    ensures record { IfOk result (λ r. (named : List ℕ → Option Object) (past : Past) (x : Member) →
        IsStepOf named past (terms_of published.now) next link.now x → member_of (terms_of published.now) r ≡ x) }
    ensures number { IfOk result (λ r. (terms_of published.now).has r.number ≡ true) }
    ensures held { IfOk result (λ r. (named : List ℕ → Option Object) (past : Past) →
        next_of marlowe named past link.now.spends link.now.tx ≡ next → HoldsNumber named past link.now r) }
{
    let tx = link.tx();
    let inputs = copies_of(alloc, given(link.spends(), tx.inputs.as_slice()))?;
    let table = &published.table;
    // touch: turns lead to a number
    table.turns_lead();
    match table.compute(
        alloc,
        &datum.cont,
        &datum.state,
        tx.interval,
        inputs.as_slice(),
    ) {
        Ok(outcome) => {
            let number = number_after(tx, next, outcome.place);
            Ok(StepRecord {
                interval: tx.interval,
                inputs,
                warnings: outcome.warnings,
                payments: outcome.payments,
                state: outcome.state,
                number,
            })
        }
        Err(SemFault::Memory) => Err(AllocError),
        Err(_) => unreachable!(),
    }
}

// The record of one transaction of a thread, after which the thread goes on in this output: what the contract does from
// the datum that the transaction brings for the output that it spends.
fn recorded(
    alloc: Global,
    published: &Published,
    link: &ThreadLink<'_>,
    next: Option<OutputRef>,
) -> Result<StepRecord, Memory>
    requires { IsAStep (terms_of published.now) next link.now }
    ensures record { IfOk result (λ r. (named : List ℕ → Option Object) (past : Past) (x : Member) →
        IsStepOf named past (terms_of published.now) next link.now x → member_of (terms_of published.now) r ≡ x) }
    ensures number { IfOk result (λ r. (terms_of published.now).has r.number ≡ true) }
    ensures held { IfOk result (λ r. (named : List ℕ → Option Object) (past : Past) →
        next_of marlowe named past link.now.spends link.now.tx ≡ next → HoldsNumber named past link.now r) }
{
    let tx = link.tx();
    match brought_to(link.spends(), tx.inputs.as_slice(), tx.datums.as_slice()) {
        Some(datum) => recorded_from(alloc, published, datum, link, next),
        None => unreachable!(),
    }
}

// ---- a thread

// The output in which a thread goes on after the transaction at a place: the one that the next spends, or the one in
// which the thread ends.
fn goes_to(links: &[ThreadLink<'_>], i: usize, end: Option<OutputRef>) -> Option<OutputRef>
    requires { i < length links.now }
    ensures { result ≡ goes_to (drop (i + 1) links.now) end }
{
    match links[i + 1..].first() {
        Some(link) => Some(*link.spends()),
        None => end,
    }
}

// The records of the transactions of a thread that ends here.
fn records_of(
    alloc: Global,
    published: &Published,
    start: &Instance<'_>,
    links: &[ThreadLink<'_>],
    end: Option<OutputRef>,
) -> Result<Items<StepRecord>, Memory>
    requires { IsAThread (terms_of published.now) start.now.script links.now end }
    ensures carried { IfOk result (λ xs. (named : List ℕ → Option Object) (past : Past) (run : List Member) →
        Leads (next_of marlowe named past) links.now end →
        Carries named past (terms_of published.now) start.now.script links.now run →
        Carries named past (terms_of published.now) start.now.script links.now (map (member_of (terms_of published.now)) xs)) }
    ensures numbers { IfOk result (λ xs. All (λ x. (terms_of published.now).has x.number ≡ true) xs) }
    ensures held { IfOk result (λ xs. (named : List ℕ → Option Object) (past : Past) →
        Leads (next_of marlowe named past) links.now end → HoldNumbers named past links.now xs) }
{
    let mut records = Items::new(alloc);
    for (i, link) in links.iter().enumerate() {
        let next = goes_to(links, i, end);
        let record = recorded(alloc, published, link, next)?;
        records.push(record)?;
    }
    Ok(records)
}

// The records of what starts here.
fn steps_from(
    alloc: Global,
    kept: &Kept<'_>,
    index: &Index,
    reference: &OutputRef,
    start: &Instance<'_>,
) -> Result<Items<StepRecord>, Memory>
    requires tied { IsIndexOf index.now.present (world kept.now) }
    requires tables { AreTables (published_at (world kept.now).published) }
    requires start { IsStart (past_of (world kept.now)) reference.now start.now }
    ensures { IfOk result (λ xs.
        TellTheRun (published_at (world kept.now).published) (past_of (world kept.now)) reference.now start.now xs) }
{
    // touch: the thread carries one list of members, and ends where the index says
    threads_are_runs();
    index_follows_threads();
    match index.published_at(start.script) {
        Some(object) => {
            let links = thread(alloc, kept, index, reference)?;
            let end = index.end_of(reference);
            records_of(alloc, object.get(), start, &links, end)
        }
        None => unreachable!(),
    }
}

/// The records of the thread that starts at an output, in order, as many as the thread has transactions. Each says what
/// the transaction function gives from the datum that its transaction brought for the output that it spent, by which its
/// script judged it. They are the thread's one run where that is always the datum that the output's maker brought. Where
/// no thread starts there are none. Each record costs three look-ups and one step that is computed anew, however long
/// the history is. Answers `Memory` only where a growth was refused.
pub fn steps_of(
    alloc: Global,
    kept: &Kept<'_>,
    index: &Index,
    start: &OutputRef,
) -> Result<Items<StepRecord>, Memory>
    requires tied { IsIndexOf index.now.present (world kept.now) }
    requires tables { AreTables (published_at (world kept.now).published) }
    ensures { IfOk result (λ xs. AreSteps (published_at (world kept.now).published) (past_of (world kept.now))
        start.now xs) }
{
    // touch: the starts that are told are those of the past, and ids are single
    index_follows_threads();
    names_are_single::<Published>();
    match start_at(kept, index, start) {
        Some(found) => steps_from(alloc, kept, index, start, &found),
        None => Ok(Items::new(alloc)),
    }
}
