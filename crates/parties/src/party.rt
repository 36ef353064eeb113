//! Parties.
ghost use Rattle.std.specs.Prelude.{◌≡◌, ◌++◌, map, slice_get, option_to_list, Some, IfOk, IfSome, OnOk, OnErr};
ghost use Rattle.std.specs.List.{All, Contains};
ghost use Rattle.hub.specs.Seats.{seat_record};
ghost use Rattle.parties.specs.Plays.{AreOfPlan, IsLeftOut, IsWithin, added, receipt_of};
ghost use Rattle.parties.specs.PlaysSupport.{Went, WentNoted};

use crate::acts::Act;
use crate::left_out::LeftOut;
use crate::means::Means;
use crate::turns::{noted, turns};
use crate::watch::{NoWatch, Watch};
use contract::{Bytes, Memory};
use hub::{Call, Hub, OutputRef, Receipt, Seat, Session};
use plans::{Intent, Plan};
use std::alloc::Global;
use std::sync::Wait;
use std::thread::Threads;

/// One party of a play. Its plan names a thread by its start output and a contract by its currency.
pub struct Party {
    pub plan: Plan<OutputRef, Bytes>,
}

// Dropped once: the drop is written, not derived, so that no crate above proves it again.
impl Drop for Party {
    fn drop(self) {
        let Party { plan: _ } = self;
    }
}

// Does what the intent at a place of the plan says: what was left out.
fn perform<R: Threads + Wait + Sync, J: Session, W: Watch>(
    means: &Means<'_, R, J, W>,
    place: usize,
    intent: &Intent<OutputRef, Bytes>,
    seat: &mut Seat<J>,
    receipts: &mut Vec<Receipt<J>>,
) -> Result<Option<LeftOut>, Memory>
    requires has { Contains means.now.plan.now.intents intent.now }
    requires at { slice_get means.now.plan.now.intents place ≡ Some intent.now }
    ensures ok { OnOk result (WentNoted means.now.plan.now seat.old seat.new receipts.old.items receipts.new.items) }
    ensures left { IfOk result (λ told. IfSome told (IsLeftOut means.now.plan.now (added seat.old seat.new))) }
    ensures err { OnErr result (Went means.now.plan.now seat.old seat.new) }
{
    match intent {
        Intent::Step { .. } => turns(means, place, intent, seat, receipts),
        Intent::Steps { .. } => turns(means, place, intent, seat, receipts),
        Intent::Claim { .. } => turns(means, place, intent, seat, receipts),
        Intent::Round { count, workers } => {
            let act = Act::Round {
                count: *count,
                workers: *workers,
            };
            noted(means, act, seat, receipts)?;
            Ok(None)
        }
        Intent::Advance(tick) => {
            noted(means, Act::Call(Call::Advance(*tick)), seat, receipts)?;
            Ok(None)
        }
    }
}

// Puts what was left out, if anything was, behind what was before.
fn keep(left: &mut Vec<LeftOut>, told: Option<LeftOut>) -> Result<(), Memory>
    ensures { OnOk result (left.new.items ≡ left.old.items ++ option_to_list told) }
{
    if let Some(told) = told {
        left.push(told)?;
    }
    Ok(())
}

// Does what all intents of the plan say, one after another.
fn perform_all<R: Threads + Wait + Sync, J: Session, W: Watch>(
    means: &Means<'_, R, J, W>,
    seat: &mut Seat<J>,
    receipts: &mut Vec<Receipt<J>>,
) -> Result<Vec<LeftOut>, Memory>
    ensures ok { OnOk result (WentNoted means.now.plan.now seat.old seat.new receipts.old.items receipts.new.items) }
    ensures left { IfOk result (λ left. All (IsLeftOut means.now.plan.now (added seat.old seat.new)) left.items) }
    ensures err { OnErr result (Went means.now.plan.now seat.old seat.new) }
{
    let mut left = Vec::new(means.alloc);
    for (place, intent) in means.plan.intents.as_slice().iter().enumerate() {
        let told = perform(means, place, intent, seat, receipts)?;
        keep(&mut left, told)?;
    }
    Ok(left)
}

impl Party {
    /// Goes through the plan, intent by intent, with a seat of the hub. The answer is the receipts of the calls that
    /// it adds to the seat's list, in order.
    ///
    /// - A step looks at its thread and at what is under the plan's keys, builds on that with all shown key outputs
    ///   offered in their order, the plan's keys as signers and its change address, checks what it built without the
    ///   lock, and submits it with that check at hand. Where the reply is that an output isn't unspent, it begins
    ///   again, at most 16 times more. If pooled, it enqueues what it built, once.
    /// - Steps of several threads look at each of them in order, and each time at what is under the keys; all parts
    ///   are built into one transaction, to which the key outputs of the first look are offered, and the rest is as
    ///   for a step. Where they begin again, they look at all once more.
    /// - A claim looks at the payouts to its role and at what is under the keys, and claims all of them to the change
    ///   address; the rest is as for a step.
    /// - A round brings its number of workers inside 1 to 16.
    /// - What the builder refuses for another cause than memory is skipped: the Looks are all that it adds. So steps
    ///   of no thread add nothing.
    /// - Where the plan stops after n calls, none is made once the seat has n answered calls, also between two Looks,
    ///   or between a Look and what would be built on it.
    ///
    /// `Memory` where a growth was refused, here or in a call: the calls that were answered stay in the history and
    /// in the seat's list, though their receipts aren't given. That it tries again is only tested.
    pub fn run<R: Threads + Wait + Sync, J: Session>(
        &self,
        rt: &R,
        alloc: Global,
        hub: &Hub<J>,
        seat: &mut Seat<J>,
    ) -> Result<Vec<Receipt<J>>, Memory>
        ensures kept { seat.new ≡ seat_record seat.old.number (seat.old.answers ++ added seat.old seat.new) }
        ensures played { AreOfPlan self.now.plan (added seat.old seat.new) }
        ensures stops { IsWithin self.now.plan.stop_after seat.old seat.new }
        ensures receipts { IfOk result (λ rs. rs.items ≡ map (receipt_of seat.old.number) (added seat.old seat.new)) }
    {
        let (receipts, _) = self.played(rt, alloc, hub, seat, &NoWatch, false)?;
        Ok(receipts)
    }

    /// The same, with a watch that is called after each answered call and at the end, and with what it left out beside the receipts: each
    /// intent that its builder refused for another cause than memory, with the looks by which it did, and with the cause.
    pub fn run_watched<R: Threads + Wait + Sync, J: Session, W: Watch>(
        &self,
        rt: &R,
        alloc: Global,
        hub: &Hub<J>,
        seat: &mut Seat<J>,
        watch: &W,
    ) -> Result<(Vec<Receipt<J>>, Vec<LeftOut>), Memory>
        ensures kept { seat.new ≡ seat_record seat.old.number (seat.old.answers ++ added seat.old seat.new) }
        ensures played { AreOfPlan self.now.plan (added seat.old seat.new) }
        ensures stops { IsWithin self.now.plan.stop_after seat.old seat.new }
        ensures receipts { IfOk result (λ told. told.0.items ≡ map (receipt_of seat.old.number) (added seat.old seat.new)) }
        ensures left { IfOk result (λ told. All (IsLeftOut self.now.plan (added seat.old seat.new)) told.1.items) }
    {
        self.played(rt, alloc, hub, seat, watch, true)
    }

    // Goes through the plan, and tells what it leaves out if it is to.
    fn played<R: Threads + Wait + Sync, J: Session, W: Watch>(
        &self,
        rt: &R,
        alloc: Global,
        hub: &Hub<J>,
        seat: &mut Seat<J>,
        watch: &W,
        tells: bool,
    ) -> Result<(Vec<Receipt<J>>, Vec<LeftOut>), Memory>
        ensures kept { seat.new ≡ seat_record seat.old.number (seat.old.answers ++ added seat.old seat.new) }
        ensures played { AreOfPlan self.now.plan (added seat.old seat.new) }
        ensures stops { IsWithin self.now.plan.stop_after seat.old seat.new }
        ensures receipts { IfOk result (λ told. told.0.items ≡ map (receipt_of seat.old.number) (added seat.old seat.new)) }
        ensures left { IfOk result (λ told. All (IsLeftOut self.now.plan (added seat.old seat.new)) told.1.items) }
    {
        let means = Means {
            rt,
            alloc,
            hub,
            plan: &self.plan,
            watch,
            tells,
        };
        let mut receipts = Vec::new(alloc);
        let left = perform_all(&means, seat, &mut receipts);
        watch.ended();
        let left = left?;
        Ok((receipts, left))
    }
}
