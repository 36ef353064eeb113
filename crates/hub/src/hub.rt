//! The hub.
ghost use Rattle.std.specs.Prelude.{◌≡◌, ◌<◌, ◌≤◌, ◌↔◌, length, IfOk, OnErr, IsTrue};
ghost use Rattle.ledger.specs.declared.call.Call.TheVariants as on;
ghost use Rattle.chain_index.specs.LedgerSpec.Legal.{IsLegal};
ghost use Rattle.hub.specs.HubSupport.{AllFit};
ghost use Rattle.hub.specs.Seats.{WasTold, AreNumbered, AreHeard, answered};

use crate::carried::Carried;
use crate::closed::{Closed, closed_of};
use crate::desk::{Desk, Parts};
use crate::receipt::Receipt;
use crate::seat::Seat;
use crate::session::{Session, Tokens};
use chain::{Call, Entry};
use collections::{Memory, TryClone};
use journal::Sealed;
use ledger::{Checked, Published};
use parallel_check::{Gate, check_all};
use std::alloc::Global;
use std::marker::{Model, PhantomData};
use std::sync::ledger::Share;
use std::sync::{Mutex, Wait};
use std::thread::Threads;

/// The chain that all seats share, under one lock. Threads share the hub by reference; each calls with a seat of its own. Clauses see how many seats there are.
#[derive(Drop)]
pub struct Hub<J: Session> {
    desk: Mutex<Desk<J>>,
    seats: u64,
    of: PhantomData<J>,
}

impl<J: Session> Model for Hub<J> {
    ghost use Rattle.std.specs.Prelude.{◌≡◌, ℕ};

    ghost Value = { ℕ };

    ghost view = { λ h. h.seats };

    ghost invariant = { λ h. h.seats ≡ (J.session).seats };
}

// The hub of a desk, for so many seats.
pub(crate) fn hub_of<J: Session>(desk: Desk<J>, seats: u64) -> Hub<J>
    requires { seats ≡ (J.session).seats }
{
    Hub {
        desk: Mutex::new(desk),
        seats,
        of: PhantomData,
    }
}

// The Submit of a copy of a checked transaction.
fn submit_again(checked: &Carried<Checked<Published>>) -> Result<Carried<Call>, Memory>
    ensures { IfOk result (λ call. call ≡ on.Submit checked.now.tx) }
{
    let tx = checked.get().tx().try_clone()?;
    Ok(Carried::new(Call::Submit(tx)))
}

fn round_of(k: u64) -> Carried<Call>
    ensures { result ≡ on.Round k }
{
    Carried::new(Call::Round(k))
}

impl<J: Session> Hub<J> {
    /// Makes one call in the seat's name: the entry and its reply are made under the lock. The seat's list has one answer more, the one that the receipt
    /// names. `Memory` where a growth was refused: then no entry is made, and the seat is as it was.
    pub fn call<R: Wait>(
        &self,
        rt: &R,
        alloc: Global,
        seat: &mut Seat<J>,
        call: Call,
    ) -> Result<Receipt<J>, Memory>
        ensures told { IfOk result (λ r. WasTold (J.session) seat.old call r seat.new) }
        ensures err { OnErr result (seat.new ≡ seat.old) }
    {
        let call = Carried::new(call);
        let kept = call.try_clone()?;
        self.desk.lock(rt).call(alloc, seat, call, kept, &[])
    }

    /// Submits a transaction that was checked before, with that check at hand: where what it names is found as it was then, it isn't judged again under the
    /// lock. The reply is the one of the Submit, whatever the check says. `Memory` as in `call`.
    pub fn admit<R: Wait>(
        &self,
        rt: &R,
        alloc: Global,
        seat: &mut Seat<J>,
        checked: Checked<Published>,
    ) -> Result<Receipt<J>, Memory>
        ensures told { IfOk result (λ r. WasTold (J.session) seat.old (on.Submit checked.tx) r seat.new) }
        ensures err { OnErr result (seat.new ≡ seat.old) }
    {
        let checked = Carried::new(checked);
        let call = submit_again(&checked)?;
        self.desk.lock(rt).admit(alloc, seat, call, checked)
    }

    /// Makes a Round(k) whose checks are made by so many workers (1 to 16) without the lock. It holds the lock twice: first it copies the first k pending
    /// transactions, each with what is found of what it names, which makes no entry; then, with the checks done, it makes the entry. Whatever other threads do
    /// between the two, the reply is that of the Round where its entry stands: a check whose transaction finds something else by then isn't used. The gate is
    /// called round each check (`parallel_check`). `Memory` as in `call`, also where the front or a check was refused memory.
    pub fn round<R: Threads + Wait + Sync, G: Gate>(
        &self,
        rt: &R,
        alloc: Global,
        seat: &mut Seat<J>,
        k: u64,
        workers: usize,
        gate: &G,
    ) -> Result<Receipt<J>, Memory>
        requires some { 0 < workers }
        requires few { workers ≤ 16 }
        ensures told { IfOk result (λ r. WasTold (J.session) seat.old (on.Round k) r seat.new) }
        ensures err { OnErr result (seat.new ≡ seat.old) }
    {
        let jobs = self.desk.lock(rt).front(alloc, k)?;
        let checks = check_all(rt, alloc, gate, workers, jobs)?;
        self.desk
            .lock(rt)
            .call(alloc, seat, round_of(k), round_of(k), &checks)
    }

    /// Whether these are all seats, in the order of their numbers, as `close` asks. It takes no memory.
    pub fn are_all(&self, seats: &Vec<Seat<J>>) -> bool
        ensures { IsTrue result ↔ ((length seats.now.items ≡ (J.session).seats) × AreNumbered 0 seats.now.items) }
    {
        seats.len() as u64 == self.seats && are_in_order(seats)
    }

    /// Ends the session, once all its seats are back, in the order of their numbers. Then the history is legal from what the chain began with; of each seat it
    /// has just the entries that the seat was told of, in their order and at their places; and so it has as many as calls were answered. It takes no memory.
    pub fn close(self, seats: Vec<Seat<J>>) -> Closed<J>
        requires all { length seats.items ≡ (J.session).seats }
        requires order { AreNumbered 0 seats.items }
        ensures start { (result.genesis ≡ (J.session).genesis) × (result.first_tick ≡ (J.session).first_tick) }
        ensures legal { IsLegal result }
        ensures heard { AreHeard result.entries seats.items }
        ensures count { length result.entries ≡ answered seats.items }
    {
        let Hub {
            desk,
            seats: _,
            of: _,
        } = self;
        let Parts {
            chain,
            mut calls,
            journal,
            rest,
        } = desk.into_inner().into_parts();
        let journal = journal.seal();
        check_all_seats(&journal, &seats);
        let mut all = merged(rest, seats);
        calls.audit(&mut all);
        // touch: the history is legal
        let _ = chain.history();
        closed_of(chain, journal)
    }
}

// Whether the seats' numbers count from 0.
fn are_in_order<J: Session>(seats: &Vec<Seat<J>>) -> bool
    ensures { IsTrue result ↔ AreNumbered 0 seats.now.items }
{
    let mut next = 0;
    for seat in seats {
        if seat.number() != next {
            return false;
        }
        next += 1;
    }
    true
}

// The answers of all seats stand in the history.
fn check_all_seats<J: Session>(history: &Sealed<Entry, Tokens<J>>, seats: &Vec<Seat<J>>)
    ensures { AllFit history.now seats.now.items }
{
    for seat in seats {
        seat.check(history);
    }
}

// All shares in one.
fn merged<J: Session>(rest: Share<Tokens<J>>, mut seats: Vec<Seat<J>>) -> Share<Tokens<J>>
    requires { (rest.parts ≡ 0) × (rest.amount ≡ 0) }
    ensures { (result.parts ≡ length seats.items) × (result.amount ≡ answered seats.items) }
{
    let mut all = rest;
    while let Some(seat) = seats.pop() {
        all.merge(seat.into_share());
    }
    all
}
