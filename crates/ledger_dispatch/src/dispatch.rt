//! What a call is answered.
ghost use Rattle.std.specs.Prelude.{◌≡◌, ◌≤◌, ◌⊎◌, IfOk, IfErr, OnOk, OnErr, Ok, Err, None, length, take, is_none};
ghost use Rattle.ledger_views.specs.Compiler.declared.fault.CompileFault.TheVariants as faults;
ghost use Rattle.ledger_views.specs.EutxoTypes.Fitting.{TxFits};
ghost use Rattle.ledger_views.specs.EutxoTypes.Ids.{id_of};
ghost use Rattle.ledger_views.specs.Eutxo.Checks.{BeginWith};
ghost use Rattle.ledger_views.specs.Eutxo.Local.{verdict_of};
ghost use Rattle.ledger_views.specs.Ledger.declared.call.Reply.TheVariants as replies;
ghost use Rattle.ledger_views.specs.LedgerSpec.Replay.{published_at, publication, with_object, World, world};
ghost use Rattle.ledger_views.specs.LedgerSpec.Views.{look};
ghost use Rattle.ledger_views.specs.LedgerSpec.Calls.{publish_reply_beside, publish_reply, fault_on, submit_reply, with_accepted_unless, round_verdicts, advance_reply, enqueue_reply, reply_to};
ghost use Rattle.ledger_views.specs.Eutxo.Blocks.{places_in};
ghost use Rattle.ledger_views.specs.ChainIndex.Contents.{blocks_in, CanBeAdded};
ghost use Rattle.ledger_views.specs.LedgerKept.Kept.{IsIndexOf, world_with};
ghost use Rattle.ledger_dispatch.specs.DispatchSupport.{fault_in, judged_in, CanBeTaken, accepting_unless, EachIsJudgedAlike, with_places};

use contract::{Bytes, Contract, Items, Memory, TryClone};
use ledger_views::{
    Ask, Call, Checked, CompileFault, Index, IndexAt, Judged, Kept, Published, Reply, Shared,
    Ticketed, Tx, TxFault, accepting_is_sound, checks_of, fits_spelling, id_at_hand,
    index_accepts_alike, index_publishes_alike, index_reads_alike, judge, publish,
    publishing_is_sound, show, verdict_of,
};
use std::alloc::{AllocError, Global};
use std::sync::Arc;

/// How many transactions may be pending.
const MOST_PENDING: usize = 1024;

// ---- transactions

// The rules read an index as they read what it is of, and it is of what stands then where it adds what no rule refuses.
// It does nothing.
fn each_is_judged_alike()
    ensures { EachIsJudgedAlike }
{
    index_reads_alike();
    index_accepts_alike();
    accepting_is_sound::<Published>();
}

// instance below: the judgement on a ledger, at an index.
// The judgement of a transaction by what is indexed at a tick. Its id and its checks are lent.
fn judged_at(
    alloc: Global,
    index: &Index,
    tick: &i64,
    tx: &Tx,
    id: &[u8; 32],
    checks: &[Checked<Published>],
) -> Result<Judged, Memory>
    requires id { id.now ≡ id_of tx.now }
    requires checks { BeginWith tx.now checks.now }
    ensures { IfOk result (λ answer. answer ≡ judged_in index.now.present tick.now tx.now) }
{
    judge(alloc, &IndexAt { index, tick: *tick }, tx, id, checks)
}

// .. at the ledger's tick.
fn judged(
    alloc: Global,
    kept: &Kept<'_>,
    index: &Index,
    tx: &Tx,
    id: &[u8; 32],
    checks: &[Checked<Published>],
) -> Result<Judged, Memory>
    requires id { id.now ≡ id_of tx.now }
    requires checks { BeginWith tx.now checks.now }
    ensures { IfOk result (λ answer. answer ≡ judged_in index.now.present (world kept.now).replay.tick tx.now) }
{
    let tick = kept.tick();
    judged_at(alloc, index, &tick, tx, id, checks)
}

// instance below: the checks of a transaction, of those at hand.
fn checks_at_hand<'a>(kept: &Kept<'a>, tx: &Tx) -> &'a [Checked<Published>]
    ensures { BeginWith tx.now result.now }
{
    checks_of(kept.cache(), tx)
}

// .. and its id, by these. It fits its spelling.
fn identified(alloc: Global, tx: &Tx, checks: &[Checked<Published>]) -> Result<[u8; 32], Memory>
    requires { BeginWith tx.now checks.now }
    ensures id { IfOk result (λ id. id ≡ id_of tx.now) }
    ensures fits { TxFits tx.now }
{
    // touch: it fits its spelling
    fits_spelling(tx);
    id_at_hand(alloc, tx, checks)
}

// Adds a transaction, whose id is lent, where no fault of it was found.
fn accept_unless(index: &mut Index, tx: &Tx, id: &[u8; 32], judged: &Judged) -> Result<(), Memory>
    requires id { id.now ≡ id_of tx.now }
    requires can { judged.now.fault ≡ None → CanBeAdded index.old.present tx.now }
    requires places { judged.now.fault ≡ None → judged.now.places ≡ places_in (blocks_in index.old.present tx.now) }
    ensures present { OnOk result (index.new.present ≡ accepting_unless index.old.present tx.now judged.now.fault) }
    ensures settled { index.new.settled ≡ index.old.settled }
{
    if judged.fault.is_none() {
        index.accept(tx, id, &judged.places)?;
    }
    Ok(())
}

// Judges a transaction by what is indexed, and adds it where no rule refuses it. Answers the fault and the
// transaction's id, which is computed here alone, where no check at hand has it.
#[tactic(auto, using(crate::proofs::TiedLemmas::can_so, crate::proofs::TiedLemmas::places_so))]
fn judge_and_accept(
    alloc: Global,
    kept: &Kept<'_>,
    index: &mut Index,
    tx: &Tx,
) -> Result<(Option<TxFault>, [u8; 32]), Memory>
    requires { fault_in index.old.present (world kept.now).replay.tick tx.now ≡ None
        → CanBeTaken index.old.present (world kept.now).replay.tick tx.now }
    ensures fault { IfOk result (λ r. r.0 ≡ fault_in index.old.present (world kept.now).replay.tick tx.now) }
    ensures id { IfOk result (λ r. r.1 ≡ id_of tx.now) }
    ensures fits { IfOk result (λ r. TxFits tx.now) }
    ensures present { OnOk result (index.new.present
        ≡ accepting_unless index.old.present tx.now (fault_in index.old.present (world kept.now).replay.tick tx.now)) }
    ensures settled { index.new.settled ≡ index.old.settled }
{
    let checks = checks_at_hand(kept, tx);
    let id = identified(alloc, tx, checks)?;
    let judged = judged(alloc, kept, index, tx, &id, checks)?;
    accept_unless(index, tx, &id, &judged)?;
    let Judged { fault, .. } = judged;
    Ok((fault, id))
}

fn submit(alloc: Global, kept: &Kept<'_>, index: &mut Index, tx: &Tx) -> Result<Reply, Memory>
    requires tied { IsIndexOf index.old.present (world kept.now) }
    ensures reply { IfOk result (λ reply. reply ≡ submit_reply tx.now (fault_on (world kept.now) tx.now)) }
    ensures tied { OnOk result (IsIndexOf index.new.present
        (with_accepted_unless (world kept.now) tx.now (fault_on (world kept.now) tx.now))) }
    ensures settled { index.new.settled ≡ index.old.settled }
{
    each_is_judged_alike();
    let (fault, id) = judge_and_accept(alloc, kept, index, tx)?;
    match fault {
        Some(fault) => Ok(Reply::Refused(fault)),
        None => Ok(Reply::Accepted(id)),
    }
}

// Judges one pending transaction, and adds it where no rule refuses it.
fn judge_one(
    alloc: Global,
    kept: &Kept<'_>,
    index: &mut Index,
    ticket: u64,
    tx: &Tx,
) -> Result<Ticketed, Memory>
    requires { fault_in index.old.present (world kept.now).replay.tick tx.now ≡ None
        → CanBeTaken index.old.present (world kept.now).replay.tick tx.now }
    ensures verdict { IfOk result (λ t. t ≡ record {
      ticket = ticket;
      verdict = verdict_of (fault_in index.old.present (world kept.now).replay.tick tx.now);
    }) }
    ensures fits { IfOk result (λ t. TxFits tx.now) }
    ensures present { OnOk result (index.new.present
        ≡ accepting_unless index.old.present tx.now (fault_in index.old.present (world kept.now).replay.tick tx.now)) }
    ensures settled { index.new.settled ≡ index.old.settled }
{
    let (fault, _) = judge_and_accept(alloc, kept, index, tx)?;
    Ok(Ticketed {
        ticket,
        verdict: verdict_of(fault),
    })
}

pub(crate) fn first_of(kept: &Kept<'_>, count: u64) -> usize
    ensures most { result ≤ length (world kept.now).replay.pending }
    ensures same { take result (world kept.now).replay.pending ≡ take count (world kept.now).replay.pending }
{
    let waiting = kept.waiting();
    if count < waiting as u64 {
        count as usize
    } else {
        waiting
    }
}

// Judges the first pending transactions, each after those before, and adds those that no rule refuses.
fn round(
    alloc: Global,
    kept: &Kept<'_>,
    index: &mut Index,
    count: u64,
) -> Result<Items<Ticketed>, Memory>
    requires tied { IsIndexOf index.old.present (world kept.now) }
    ensures places { IfOk result (λ places. places ≡ round_verdicts (world kept.now) (take count (world kept.now).replay.pending)) }
    ensures tied { OnOk result (IsIndexOf index.new.present
        (with_places (world kept.now) (round_verdicts (world kept.now) (take count (world kept.now).replay.pending)))) }
    ensures settled { index.new.settled ≡ index.old.settled }
{
    each_is_judged_alike();
    let mut places = Items::new(alloc);
    for i in 0..first_of(kept, count) {
        let (ticket, tx) = kept.pending_at(i);
        let place = judge_one(alloc, kept, index, ticket, tx)?;
        places.push(place)?;
    }
    Ok(places)
}

// ---- tick and tickets

fn advance(kept: &Kept<'_>, tick: i64) -> Reply
    ensures { result ≡ advance_reply (world kept.now).replay.tick tick }
{
    if kept.tick() <= tick {
        Reply::Advanced
    } else {
        Reply::Backward
    }
}

fn enqueue(kept: &Kept<'_>) -> Reply
    ensures { result ≡ enqueue_reply (world kept.now) }
{
    if kept.waiting() < MOST_PENDING {
        Reply::Ticket(kept.tickets())
    } else {
        Reply::Full
    }
}

// ---- publishing

#[tactic(auto, using(crate::proofs::PublishLemmas::compiled, crate::proofs::PublishLemmas::not_compiled))]
fn publication(
    alloc: Global,
    contract: &Contract,
    currency: Bytes,
) -> Result<Published, CompileFault>
    ensures ok { IfOk result (λ object. publication contract.now currency ≡ Ok object) }
    ensures err { IfErr result (λ fault. (fault ≡ faults.Memory) ⊎ (publication contract.now currency ≡ Err fault)) }
{
    publish(alloc, contract, currency)
}

// With what a publication is answered, and whether it is new.
fn publish_reply(index: &Index, object: &Published) -> (Reply, bool)
    ensures reply { result.0 ≡ publish_reply_beside object.now (published_at index.now.present.published object.now.id) }
    ensures new { result.1 ≡ is_none (published_at index.now.present.published object.now.id) }
{
    match index.published_at(&object.id) {
        Some(known) => {
            if *known.get() == *object {
                (Reply::Published(object.id), false)
            } else {
                (Reply::IdInUse, false)
            }
        }
        None => (Reply::Published(object.id), true),
    }
}

// Shares an object, which is carried generically.
fn shared<T: Drop>(alloc: Global, object: T) -> Result<Shared<T>, Memory>
    ensures { IfOk result (λ shared. shared ≡ object) }
{
    match Arc::new(alloc, object) {
        Ok(arc) => Ok(Shared::new(arc)),
        Err(_) => Err(AllocError),
    }
}

// Adds an object where it is new, and answers the reply.
fn publish_object(alloc: Global, index: &mut Index, object: Published) -> Result<Reply, Memory>
    ensures reply { IfOk result (λ reply. reply ≡ publish_reply_beside object (published_at index.old.present.published object.id)) }
    ensures present { OnOk result (index.new.present
        ≡ record index.old.present { published = with_object index.old.present.published (Ok object) }) }
    ensures settled { index.new.settled ≡ index.old.settled }
{
    let (reply, is_new) = publish_reply(index, &object);
    if !is_new {
        return Ok(reply);
    }
    index.publish(shared(alloc, object)?)?;
    Ok(reply)
}

fn publish_as(
    alloc: Global,
    index: &mut Index,
    contract: &Contract,
    currency: &Bytes,
) -> Result<Reply, Memory>
    ensures reply { IfOk result (λ reply. (w : World) → IsIndexOf index.old.present w
        → reply ≡ publish_reply w (publication contract.now currency.now)) }
    ensures tied { OnOk result ((w : World) → IsIndexOf index.old.present w → IsIndexOf index.new.present
        (record w { published = with_object w.published (publication contract.now currency.now) })) }
    ensures settled { index.new.settled ≡ index.old.settled }
{
    publishing_is_sound::<Published>();
    index_publishes_alike();
    let currency = currency.try_clone()?;
    match publication(alloc, contract, currency) {
        Ok(object) => publish_object(alloc, index, object),
        Err(CompileFault::Memory) => Err(AllocError),
        Err(fault) => Ok(Reply::NotCompiled(fault)),
    }
}

// ---- looks

fn look(alloc: Global, kept: &Kept<'_>, index: &Index, ask: &Ask) -> Result<Reply, Memory>
    requires tied { IsIndexOf index.now.present (world kept.now) }
    ensures { IfOk result (λ reply. reply ≡ replies.Look (look (world kept.now) ask.now)) }
{
    Ok(Reply::Look(show(alloc, kept, index, ask)?))
}

// ---- a call

// What a call is answered. A refusal may leave the index grown: a Round that runs out of memory at a later place has added
// what its first places accepted. But what it was settled at stays as it was.
fn answer_or_grow(
    alloc: Global,
    kept: &Kept<'_>,
    index: &mut Index,
    call: &Call,
) -> Result<Reply, Memory>
    requires tied { IsIndexOf index.old.present (world kept.now) }
    ensures reply { IfOk result (λ reply. reply ≡ reply_to (world kept.now) call.now) }
    ensures tied { OnOk result (IsIndexOf index.new.present (world_with (world kept.now) call.now)) }
    ensures settled { index.new.settled ≡ index.old.settled }
{
    match call {
        Call::Publish { contract, currency } => publish_as(alloc, index, contract, currency),
        Call::Advance(tick) => Ok(advance(kept, *tick)),
        Call::Look(ask) => look(alloc, kept, index, ask),
        Call::Submit(tx) => submit(alloc, kept, index, tx),
        Call::Enqueue(_) => Ok(enqueue(kept)),
        Call::Round(count) => Ok(Reply::Round(round(alloc, kept, index, *count)?)),
    }
}

/// What a call is answered after what stands, by the table of calls (`reply_to`). What a ledger keeps is lent. The
/// index beside it, which is of what stands and settled there, is brought on: after the call it is of what stands then
/// (`world_with`), and whoever called settles it once the entry stands. The rest of what the call changes whoever keeps
/// the entries reads off call and reply. It costs what the call asks, and goes over no entries. Answers `Memory` only
/// where a growth was refused: then the index is cut back, so nothing is changed.
pub fn answer(
    alloc: Global,
    kept: &Kept<'_>,
    index: &mut Index,
    call: &Call,
) -> Result<Reply, Memory>
    requires tied { IsIndexOf index.old.present (world kept.now) }
    requires settled { index.old.settled ≡ index.old.present }
    ensures reply { IfOk result (λ reply. reply ≡ reply_to (world kept.now) call.now) }
    ensures tied { OnOk result (IsIndexOf index.new.present (world_with (world kept.now) call.now)) }
    ensures settled { index.new.settled ≡ index.old.settled }
    ensures err { OnErr result (index.new ≡ index.old) }
{
    match answer_or_grow(alloc, kept, index, call) {
        Ok(reply) => Ok(reply),
        Err(refused) => {
            index.cut();
            Err(refused)
        }
    }
}
