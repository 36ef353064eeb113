//! The starts of a setup's threads.
ghost use Rattle.std.specs.Prelude.{◌≡◌, ◌<◌, [], ◌∷◌, length, Ok, IfOk};
ghost use Rattle.std.specs.List.{All};
ghost use Rattle.parties.specs.EutxoTypes.declared.output_ref.OutputRef.TheVariants.{Made};
ghost use Rattle.parties.specs.EutxoTypes.Ids.{id_of};
ghost use Rattle.parties.specs.Ledger.declared.call.Call.TheVariants as on;
ghost use Rattle.parties.specs.Ledger.declared.call.Reply.TheVariants as replies;
ghost use Rattle.parties.specs.Ledger.declared.look.Look as looks;
ghost use Rattle.parties.specs.Plans.declared.scenario.NamedThread.{NamedThread};
ghost use Rattle.play_setup.specs.SetUp.{key_ask, start_made};
ghost use Rattle.play_setup.specs.SetUpSupport.{WentOn, WasStarted, WereStarted};

use crate::fault::SetupFault;
use crate::refusals::{rule_refused, start_refused};
use contract::{Interval, Items, Memory, Text, TryClone};
use parties::{
    Ask, BuildFault, Call, Hub, Look, NamedThread, OutputRef, Published, Receipt, Reply, Seat,
    Session, Tx, Watch, build_start,
};
use std::alloc::Global;
use std::sync::Wait;

/// Starts the threads in order: their start outputs, in the same order.
pub(crate) fn start_all<R: Wait, J: Session, W: Watch>(
    rt: &R,
    alloc: Global,
    hub: &Hub<J>,
    seat: &mut Seat<J>,
    watch: &W,
    contracts: &[Published],
    threads: &[NamedThread],
) -> Result<Vec<OutputRef>, SetupFault>
    requires { All (λ (t : NamedThread). t.contract < length contracts.now) threads.now }
    ensures { IfOk result (λ starts. WereStarted contracts.now threads.now seat.old seat.new starts.items) }
{
    let mut starts = Vec::new(alloc);
    for thread in threads {
        starts.push(start_one(rt, alloc, hub, seat, watch, contracts, thread)?)?;
    }
    Ok(starts)
}

// Looks at the key of who starts the thread, builds the start and submits it.
fn start_one<R: Wait, J: Session, W: Watch>(
    rt: &R,
    alloc: Global,
    hub: &Hub<J>,
    seat: &mut Seat<J>,
    watch: &W,
    contracts: &[Published],
    thread: &NamedThread,
) -> Result<OutputRef, SetupFault>
    requires { thread.now.contract < length contracts.now }
    ensures { IfOk result (λ start. WasStarted contracts.now thread.now seat.old seat.new start) }
{
    let published = &contracts[thread.contract];
    let shown = look_at(rt, alloc, hub, seat, watch, &thread.by)?;
    match start_of(alloc, published, thread, look_of(&shown)) {
        Ok(tx) => submitted(rt, alloc, hub, seat, watch, &thread.name, tx),
        Err(fault) => Err(start_refused(alloc, &thread.name, &fault)),
    }
}

// A look at the key of an address.
fn look_at<R: Wait, J: Session, W: Watch>(
    rt: &R,
    alloc: Global,
    hub: &Hub<J>,
    seat: &mut Seat<J>,
    watch: &W,
    address: &Text,
) -> Result<Receipt<J>, Memory>
    ensures { IfOk result (λ shown. (look : looks.Look) × (shown.reply ≡ replies.Look look)
        × WentOn seat.old seat.new ((on.Look (key_ask address.now), replies.Look look) ∷ [])) }
{
    let ask = Ask {
        thread: None,
        keys: only(alloc, address)?,
        payouts: Items::new(alloc),
    };
    let shown = hub.call(rt, alloc, seat, Call::Look(ask))?;
    watch.answered();
    Ok(shown)
}

fn only(alloc: Global, text: &Text) -> Result<Items<Text>, Memory>
    ensures { IfOk result (λ texts. texts ≡ text.now ∷ []) }
{
    let mut texts = Items::new(alloc);
    texts.push(text.try_clone()?)?;
    Ok(texts)
}

// The look that a receipt shows.
fn look_of<J: Session>(shown: &Receipt<J>) -> &Look
    requires { (look : looks.Look) × (shown.now.reply ≡ replies.Look look) }
    ensures { shown.now.reply ≡ replies.Look result.now }
{
    match shown.reply() {
        Reply::Look(look) => look,
        _ => unreachable!(),
    }
}

// The transaction that starts a thread: signed by who starts it and funded by what is shown of that address, to which the
// change goes, at the tick that is shown.
fn start_of(
    alloc: Global,
    published: &Published,
    thread: &NamedThread,
    look: &Look,
) -> Result<Tx, BuildFault>
    ensures { IfOk result (λ tx. start_made thread.now published.now look.now ≡ Ok tx) }
{
    let now = Interval {
        from: look.tick,
        to: look.tick,
    };
    let signers = only(alloc, &thread.by)?;
    build_start(
        alloc,
        published,
        &thread.state,
        now,
        signers.as_slice(),
        look.keys.as_slice(),
        &thread.by,
    )
}

// Submits the start of a thread: its start output.
fn submitted<R: Wait, J: Session, W: Watch>(
    rt: &R,
    alloc: Global,
    hub: &Hub<J>,
    seat: &mut Seat<J>,
    watch: &W,
    name: &Text,
    tx: Tx,
) -> Result<OutputRef, SetupFault>
    ensures { IfOk result (λ start. (start ≡ Made (id_of tx) 0)
        × WentOn seat.old seat.new ((on.Submit tx, replies.Accepted (id_of tx)) ∷ [])) }
{
    let told = hub.call(rt, alloc, seat, Call::Submit(tx))?;
    watch.answered();
    match told.reply() {
        Reply::Accepted(id) => Ok(OutputRef::Made { id: *id, index: 0 }),
        Reply::Refused(fault) => Err(rule_refused(alloc, name, fault)),
        _ => unreachable!(),
    }
}
