//! What lies under the lock.
ghost use Rattle.std.specs.Prelude.{◌≡◌, ◌<◌, ◌++◌, [], ◌∷◌, ℕ, length, IfOk, OnOk, OnErr};
ghost use Rattle.ledger.specs.declared.call.Call.TheVariants as on;
ghost use Rattle.chain_index.specs.LedgerSpec.Legal.{IsLegal, entry_of, with_entry};
ghost use Rattle.chain_index.specs.LedgerSpec.Replay.{world};
ghost use Rattle.chain_index.specs.LedgerSpec.Views.{pool_front};
ghost use Rattle.hub.specs.Seats.{IsReply, WasTold};

use crate::answer::Answer;
use crate::carried::Carried;
use crate::receipt::Receipt;
use crate::seat::Seat;
use crate::session::{Session, Tokens};
use chain::{Call, Chain, Entry, Reply};
use collections::Memory;
use eutxo_types::Tx;
use journal::Journal;
use ledger::{Checked, Published, Resolved};
use std::alloc::Global;
use std::marker::{Model, PhantomData};
use std::slice;
use std::sync::ledger::{Book, Share};

/// What lies under the lock: the chain, the count of its entries, its history as receipts know it, and what is left of the shares. Clauses see the chain.
#[derive(Drop)]
pub(crate) struct Desk<J: Session> {
    pub(crate) chain: Chain,
    pub(crate) calls: Book<Tokens<J>>,
    pub(crate) journal: Journal<Entry, Tokens<J>>,
    pub(crate) rest: Share<Tokens<J>>,
    pub(crate) of: PhantomData<J>,
}

impl<J: Session> Model for Desk<J> {
    ghost use Rattle.std.specs.Prelude.{◌≡◌, length};
    ghost use Rattle.std.specs.Coded.{codes};
    ghost use Rattle.contract.specs.contracts.tree.Contract as trees;
    ghost use Rattle.eutxo_types.specs.contracts.output.Output as outputs;
    ghost use Rattle.eutxo_types.specs.contracts.tx.Tx as txs;
    ghost use Rattle.ledger.specs.contracts.ask.Ask as ask_rows;
    ghost use Rattle.ledger.specs.contracts.look.Look as look_rows;
    ghost use Rattle.chain_index.specs.LedgerSpec.Replay.{Course};

    ghost Value = { Course };

    ghost coded = { Prim.hlevel (codes, outputs.the_row.coded, txs.the_row.coded, trees.the_row.coded, ask_rows.the_row.coded, look_rows.the_row.coded) };

    ghost view = { λ d. d.chain };

    // it began as the session says; the book counts its entries; the journal has them; nothing is left in the share
    ghost invariant = { λ d. (d.chain.genesis ≡ (J.session).genesis) × (d.chain.first_tick ≡ (J.session).first_tick) × (d.calls.total ≡ length d.chain.entries) × (d.journal ≡ d.chain.entries) × (d.rest.parts ≡ 0) × (d.rest.amount ≡ 0) };
}

/// The parts of a desk.
#[derive(Drop)]
pub(crate) struct Parts<J: Session> {
    pub(crate) chain: Chain,
    pub(crate) calls: Book<Tokens<J>>,
    pub(crate) journal: Journal<Entry, Tokens<J>>,
    pub(crate) rest: Share<Tokens<J>>,
}

// What one entry was told: its place and number, and its reply twice.
#[derive(Drop)]
struct Made {
    place: u64,
    number: u64,
    mine: Carried<Reply>,
    told: Carried<Reply>,
}

// The chain's history is legal. It does nothing.
fn is_legal(chain: &Chain)
    ensures { IsLegal chain.now }
{
    let _ = chain.history();
}

// Makes the entry of one call, and writes it into the journal.
fn enter<J: Session>(
    alloc: Global,
    chain: &mut Chain,
    journal: &mut Journal<Entry, Tokens<J>>,
    seat: u64,
    call: Carried<Call>,
    cache: &[Checked<Published>],
) -> Result<Made, Memory>
    requires journal { journal.old ≡ chain.old.entries }
    requires start { (chain.old.genesis ≡ (J.session).genesis) × (chain.old.first_tick ≡ (J.session).first_tick) }
    ensures chain { OnOk result (chain.new ≡ with_entry chain.old (entry_of chain.old seat call)) }
    ensures journal { OnOk result (journal.new ≡ chain.new.entries) }
    ensures place { IfOk result (λ m. m.place ≡ length chain.old.entries) }
    ensures number { IfOk result (λ m. m.number ≡ (entry_of chain.old seat call).number) }
    ensures replies { IfOk result (λ m. (m.mine ≡ (entry_of chain.old seat call).reply) × (m.told ≡ (entry_of chain.old seat call).reply)) }
    ensures reply { IfOk result (λ m. IsReply (J.session) call m.told) }
    ensures err { OnErr result ((chain.new ≡ chain.old) × (journal.new ≡ journal.old)) }
{
    // touch: the history is legal
    is_legal(chain);
    let place = chain.entries().len();
    let (mine, told) = chain.step(alloc, seat, call.into_inner(), cache)?;
    let made = &chain.entries()[place];
    journal.add(made);
    Ok(Made {
        place: place as u64,
        number: made.number,
        mine: Carried::new(mine),
        told: Carried::new(told),
    })
}

// What a seat keeps of an answered call.
fn answer_of(place: u64, number: u64, call: Carried<Call>, reply: Carried<Reply>) -> Answer
    ensures { result ≡ record { place = place; number = number; call = call; reply = reply } }
{
    Answer {
        place,
        number,
        call: call.into_inner(),
        reply: reply.into_inner(),
    }
}

// The call of a checked transaction's Submit.
fn submit_of(checked: Carried<Checked<Published>>) -> Carried<Call>
    ensures { result ≡ on.Submit checked.tx }
{
    Carried::new(Call::Submit(checked.into_inner().into_tx()))
}

impl<J: Session> Desk<J> {
    // Makes the entry of a call in the seat's name. `kept` is the call for the seat's list.
    pub(crate) fn call(
        &mut self,
        alloc: Global,
        seat: &mut Seat<J>,
        call: Carried<Call>,
        kept: Carried<Call>,
        cache: &[Checked<Published>],
    ) -> Result<Receipt<J>, Memory>
        requires { kept ≡ call }
        ensures told { IfOk result (λ r. WasTold (J.session) seat.old call r seat.new) }
        ensures err { OnErr result (seat.new ≡ seat.old) }
    {
        let Seat {
            number: me,
            answers,
            share,
            seen,
        } = seat;
        let Desk {
            chain,
            calls,
            journal,
            rest: _,
            of: _,
        } = self;
        answers.reserve(1)?;
        journal.covers(seen);
        let made = enter(alloc, chain, journal, *me, call, cache)?;
        calls.add(share, 1);
        *seen = journal.beginning();
        answers.push_reserved(answer_of(made.place, made.number, kept, made.mine));
        Ok(Receipt {
            entry: made.place,
            seat: *me,
            number: made.number,
            reply: made.told,
            seen: journal.beginning(),
        })
    }

    // Makes the entry of the Submit of a checked transaction, with that check at hand. `call` is that Submit, for the entry; the seat's list keeps the
    // transaction that was checked.
    pub(crate) fn admit(
        &mut self,
        alloc: Global,
        seat: &mut Seat<J>,
        call: Carried<Call>,
        checked: Carried<Checked<Published>>,
    ) -> Result<Receipt<J>, Memory>
        requires { call ≡ on.Submit checked.tx }
        ensures told { IfOk result (λ r. WasTold (J.session) seat.old (on.Submit checked.tx) r seat.new) }
        ensures err { OnErr result (seat.new ≡ seat.old) }
    {
        let Seat {
            number: me,
            answers,
            share,
            seen,
        } = seat;
        let Desk {
            chain,
            calls,
            journal,
            rest: _,
            of: _,
        } = self;
        answers.reserve(1)?;
        journal.covers(seen);
        let made = enter(
            alloc,
            chain,
            journal,
            *me,
            call,
            slice::from_ref(checked.get()),
        )?;
        calls.add(share, 1);
        *seen = journal.beginning();
        let kept = submit_of(checked);
        answers.push_reserved(answer_of(made.place, made.number, kept, made.mine));
        Ok(Receipt {
            entry: made.place,
            seat: *me,
            number: made.number,
            reply: made.told,
            seen: journal.beginning(),
        })
    }

    // The first so many of the pending transactions, each with what is found now of what it names. It makes no entry.
    pub(crate) fn front(
        &self,
        alloc: Global,
        count: u64,
    ) -> Result<Vec<(Tx, Resolved<Published>)>, Memory> {
        self.chain.front(alloc, count)
    }

    // Its parts.
    pub(crate) fn into_parts(self) -> Parts<J>
        ensures start { (result.chain.genesis ≡ (J.session).genesis) × (result.chain.first_tick ≡ (J.session).first_tick) }
        ensures counted { result.calls.total ≡ length result.chain.entries }
        ensures written { result.journal ≡ result.chain.entries }
        ensures rest { (result.rest.parts ≡ 0) × (result.rest.amount ≡ 0) }
    {
        let Desk {
            chain,
            calls,
            journal,
            rest,
            of: _,
        } = self;
        Parts {
            chain,
            calls,
            journal,
            rest,
        }
    }
}
