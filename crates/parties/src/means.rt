//! What a party works with.
ghost use Rattle.std.specs.Prelude.{◌≡◌, ◌<◌, ◌≤◌, false, IfOk, OnErr};
ghost use Rattle.hub.specs.Seats.{WasTold};
ghost use Rattle.parties.specs.PlaysSupport.{HasRoom, call_of};

use crate::acts::Act;
use crate::watch::Watch;
use contract::{Bytes, Memory};
use hub::{Hub, NoGate, OutputRef, Receipt, Seat, Session};
use plans::Plan;
use std::alloc::Global;
use std::sync::Wait;
use std::thread::Threads;

/// What a party works with, besides its seat.
#[derive(Drop)]
pub(crate) struct Means<'a, R, J: Session, W> {
    pub(crate) rt: &'a R,
    pub(crate) alloc: Global,
    pub(crate) hub: &'a Hub<J>,
    pub(crate) plan: &'a Plan<OutputRef, Bytes>,
    pub(crate) watch: &'a W,
    // Whether it tells what it leaves out.
    pub(crate) tells: bool,
}

// Brought inside what a round takes: 1 to 16.
fn inside(workers: usize) -> usize
    ensures some { 0 < result }
    ensures few { result ≤ 16 }
{
    workers.clamp(1, 16)
}

impl<R: Threads + Wait + Sync, J: Session, W: Watch> Means<'_, R, J, W> {
    // Whether the party has stopped: its plan says after how many answered calls of its seat.
    pub(crate) fn is_over(&self, seat: &Seat<J>) -> bool
        ensures { result ≡ false → HasRoom self.now.plan.now.stop_after seat.now }
    {
        match self.plan.stop_after {
            Some(count) => seat.answers().len() as u64 >= count,
            None => false,
        }
    }

    // Does one thing by the seat.
    pub(crate) fn act(&self, seat: &mut Seat<J>, act: Act) -> Result<Receipt<J>, Memory>
        ensures told { IfOk result (λ r. WasTold (J.session) seat.old (call_of act) r seat.new) }
        ensures err { OnErr result (seat.new ≡ seat.old) }
    {
        let receipt = match act {
            Act::Call(call) => self.hub.call(self.rt, self.alloc, seat, call)?,
            Act::Admit(checked) => self.hub.admit(self.rt, self.alloc, seat, checked)?,
            Act::Round { count, workers } => self
                .hub
                .round(self.rt, self.alloc, seat, count, inside(workers), &NoGate)?,
        };
        self.watch.answered();
        Ok(receipt)
    }
}
