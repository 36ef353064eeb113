//! The ledger of one thread.
ghost use Rattle.std.specs.Prelude.{◌≡◌, ℕ, ◌≤◌, ◌++◌, ◌∷◌, [], All, IfOk, IfErr, OnErr, OnOk};
ghost use Rattle.ledger_views.specs.LedgerLaws.Sound.{AreKeys, IsMore};
ghost use Rattle.ledger_views.specs.Eutxo.Judgement.{found};
ghost use Rattle.ledger_views.specs.LedgerSpec.Genesis.{SumsFit, RefusesGenesis};
ghost use Rattle.ledger_views.specs.EutxoTypes.Fitting.{TxFits};
ghost use Rattle.ledger_views.specs.LedgerSpec.Replay.{Course, past_of, world, published, published_at, moment_of};
ghost use Rattle.ledger_views.specs.LedgerSpec.Headline.{StepsAreRuns, BuildsAreAccepted, BothHalves};
ghost use Rattle.ledger_views.specs.LedgerSpec.Calls.{reply_to};
ghost use Rattle.ledger_views.specs.LedgerSpec.Legal.{entry_of, with_entry, before_entry, IsLegal};
ghost use Rattle.ledger_views.specs.LedgerSpec.Records.{AreSteps};
ghost use Rattle.ledger_views.specs.LedgerSpec.Publishing.{InUseByAnother};
ghost use Rattle.ledger_views.specs.LedgerSpec.Standing.{StandsAsTold};
ghost use Rattle.ledger_views.specs.LedgerSpec.Shown.{ShowsWhatWasMade};
ghost use Rattle.ledger_views.specs.LedgerSpec.Views.{pool_front};
ghost use Rattle.ledger_views.specs.LedgerKept.Kept.{IsTally, IsIndexOf, world_with};

use crate::laws::both_halves_hold_of_legal_histories;
use contract::{Items, Memory, TryClone};
use ledger_dispatch::{answer, front, resolution};
use ledger_views::{
    Call, Checked, Entry, GenesisFault, Index, Kept, Output, OutputRef, Published, Reply, Resolved,
    StepRecord, Tally, Tx, accepting_is_sound, check_genesis, contracts_end_threads,
    found_is_enough, legal_histories_stand, publications_are_entries, publishing_is_sound,
    starting_is_sound, steps_of, threads_stay,
};
use std::alloc::Global;
use std::marker::Model;

/// The ledger of one thread: what it began with, its history, and beside these an index and a tally of what stands, so
/// that a call costs what it asks and not what the history is long. Clauses see the outputs and the tick that it began
/// with, and the entries.
pub struct Chain {
    genesis: Items<Output>,
    first_tick: i64,
    entries: Vec<Entry>,
    index: Index,
    tally: Tally,
}

impl Model for Chain {
    ghost use Rattle.std.specs.Coded.{codes};
    ghost use Rattle.contract.specs.contracts.tree.Contract as trees;
    ghost use Rattle.ledger_views.specs.EutxoTypes.contracts.output.Output as outputs;
    ghost use Rattle.ledger_views.specs.EutxoTypes.contracts.tx.Tx as txs;
    ghost use Rattle.ledger_views.specs.Ledger.contracts.ask.Ask as ask_rows;
    ghost use Rattle.ledger_views.specs.Ledger.contracts.look.Look as look_rows;
    ghost use Rattle.ledger_views.specs.LedgerSpec.Replay.{Course};
    ghost use Rattle.chain.specs.ChainSupport.{IsKept};

    ghost Value = { Course };

    ghost coded = { Prim.hlevel (codes, outputs.the_row.coded, txs.the_row.coded, trees.the_row.coded, ask_rows.the_row.coded, look_rows.the_row.coded) };

    ghost view = { λ a. record { genesis = a.genesis; first_tick = a.first_tick; entries = a.entries.items } };

    ghost invariant = { λ a. IsKept a.tally a.index (record { genesis = a.genesis; first_tick = a.first_tick; entries = a.entries.items }) };
}

// Dropped once: the drop is written, not derived, so that no crate above proves it again. The index is carried
// generically to where it is dropped, so that this proof doesn't walk through its maps.
impl Drop for Chain {
    fn drop(self) {
        let Chain {
            genesis: _,
            first_tick: _,
            entries: _,
            index,
            tally: _,
        } = self;
        drop(index);
    }
}

// The reply to one call, in three copies.
#[derive(Drop)]
struct Answered<R> {
    reply: R,
    copies: (R, R),
}

// With two copies of the reply, which is carried generically.
fn with_copies<R: TryClone + Drop>(reply: R) -> Result<Answered<R>, Memory>
    ensures reply { IfOk result (λ r. r.reply ≡ reply) }
    ensures mine { IfOk result (λ r. r.copies.0 ≡ reply) }
    ensures told { IfOk result (λ r. r.copies.1 ≡ reply) }
{
    let mine = reply.try_clone()?;
    let told = reply.try_clone()?;
    Ok(Answered {
        reply,
        copies: (mine, told),
    })
}

// What a call is answered, in copies. Where memory is refused for these the index has grown.
fn answer_in_copies(
    alloc: Global,
    kept: &Kept<'_>,
    index: &mut Index,
    call: &Call,
) -> Result<Answered<Reply>, Memory>
    requires tied { IsIndexOf index.old.present (world kept.now) }
    requires settled { index.old.settled ≡ index.old.present }
    ensures reply { IfOk result (λ r. r.reply ≡ reply_to (world kept.now) call.now) }
    ensures mine { IfOk result (λ r. r.copies.0 ≡ reply_to (world kept.now) call.now) }
    ensures told { IfOk result (λ r. r.copies.1 ≡ reply_to (world kept.now) call.now) }
    ensures tied { OnOk result (IsIndexOf index.new.present (world_with (world kept.now) call.now)) }
    ensures settled { index.new.settled ≡ index.old.settled }
{
    let reply = answer(alloc, kept, index, call)?;
    with_copies(reply)
}

// What a call is answered. Where memory is refused the index is cut, so nothing is changed.
fn answer_or_cut(
    alloc: Global,
    kept: &Kept<'_>,
    index: &mut Index,
    call: &Call,
) -> Result<Answered<Reply>, Memory>
    requires tied { IsIndexOf index.old.present (world kept.now) }
    requires settled { index.old.settled ≡ index.old.present }
    ensures reply { IfOk result (λ r. r.reply ≡ reply_to (world kept.now) call.now) }
    ensures mine { IfOk result (λ r. r.copies.0 ≡ reply_to (world kept.now) call.now) }
    ensures told { IfOk result (λ r. r.copies.1 ≡ reply_to (world kept.now) call.now) }
    ensures tied { OnOk result (IsIndexOf index.new.present (world_with (world kept.now) call.now)) }
    ensures settled { index.new.settled ≡ index.old.settled }
    ensures err { OnErr result (index.new ≡ index.old) }
{
    match answer_in_copies(alloc, kept, index, call) {
        Ok(found) => Ok(found),
        Err(refused) => {
            index.cut();
            Err(refused)
        }
    }
}

// Adds an entry to the history and to its tally, or leaves both of the same history.
fn add_entry(entries: &mut Vec<Entry>, tally: &mut Tally, entry: Entry) -> Result<(), Memory>
    requires { (c : Course) × (c.entries ≡ entries.old.items) × IsTally tally.old c }
    ensures entries { OnOk result (entries.new.items ≡ entries.old.items ++ entry ∷ []) }
    ensures tally { OnOk result ((c : Course) → c.entries ≡ entries.old.items
        → IsTally tally.old c → IsTally tally.new (with_entry c entry)) }
    ensures err { OnErr result (entries.new.items ≡ entries.old.items) }
    ensures still { OnErr result ((c : Course) → IsTally tally.old c → IsTally tally.new c) }
{
    entries.reserve(1)?;
    tally.keep(entries.len(), &entry)?;
    entries.push_reserved(entry);
    Ok(())
}

impl Chain {
    // A chain without entries.
    fn starting(alloc: Global, outputs: Items<Output>, first_tick: i64) -> Result<Chain, Memory>
        requires keys { AreKeys outputs }
        requires sums { SumsFit outputs }
        ensures { IfOk result (λ chain. chain ≡ record { genesis = outputs; first_tick = first_tick; entries = [] }) }
    {
        starting_is_sound::<Published>();
        let index = Index::new(alloc, outputs.as_slice())?;
        Ok(Chain {
            genesis: outputs,
            first_tick,
            entries: Vec::new(alloc),
            index,
            tally: Tally::new(alloc, first_tick),
        })
    }

    // What is kept beside the index, lent.
    fn kept<'a>(&'a self, cache: &'a [Checked<Published>]) -> Kept<'a>
        ensures { result ≡ self.now }
    {
        Kept::new(
            self.genesis.as_slice(),
            self.first_tick,
            &self.entries,
            &self.tally,
            cache,
        )
    }

    // What is built is accepted, after this history. It does nothing.
    fn layouts_are_accepted(&self)
        ensures { BuildsAreAccepted self.now }
    {
        both_halves_hold_of_legal_histories();
        // touch: brings the invariant
        let _tick = self.first_tick;
    }

    /// Makes the entry of one call, and answers its reply in two equal copies. The entry's number counts the earlier
    /// entries of its seat, and its reply is that of the table of calls (`reply_to`). `cache` has checks that were
    /// made before: a transaction of which one has a resolution equal to what is found now isn't judged again, in a
    /// Submit and in each place of a Round. No clause names them, so the reply is the same for every cache. Answers
    /// `Memory` only where a growth was refused: then no entry is made, and nothing is changed. It costs what the call
    /// asks, whatever the history is long (docs/ledger.md).
    ///
    /// So a Submit of what a builder answers to a request that nothing hinders (`builder`) is accepted, whatever other
    /// entries there are: where what it spends is unspent as it was handed in, no accepted transaction of other bytes
    /// has its id, the tick lies in its interval and its script is published as the request has it. So is each place of
    /// a Round, where it is open when that place is judged. A Look shows each thread that isn't over, and none but one
    /// that stands, at its end, in its current state. From the last timeout on anyone closes a
    /// thread that a Look shows, without inputs and offers, in an interval that ends neither before its start nor
    /// before the minimum time: the parties are paid all that the thread's output held, and what is built is accepted
    /// like any step, unless a number leaves 128 bits or nothing is left to do. What is published stays published.
    pub fn step(
        &mut self,
        alloc: Global,
        seat: u64,
        call: Call,
        cache: &[Checked<Published>],
    ) -> Result<(Reply, Reply), Memory>
        ensures entry { OnOk result (self.new ≡ with_entry self.old (entry_of self.old seat call)) }
        ensures mine { IfOk result (λ r. r.0 ≡ (entry_of self.old seat call).reply) }
        ensures told { IfOk result (λ r. r.1 ≡ (entry_of self.old seat call).reply) }
        ensures err { OnErr result (self.new ≡ self.old) }
        ensures stays { IsMore (published_at (published self.old.entries)) (published_at (published self.new.entries)) }
        ensures second { BuildsAreAccepted self.old }
    {
        // touch: the law of what stands now
        self.layouts_are_accepted();
        let kept = Kept::new(
            self.genesis.as_slice(),
            self.first_tick,
            &self.entries,
            &self.tally,
            cache,
        );
        let found = answer_or_cut(alloc, &kept, &mut self.index, &call);
        drop(kept);
        let Answered { reply, copies } = found?;
        let entry = Entry {
            seat,
            number: self.tally.count_of(seat),
            call,
            reply,
        };
        match add_entry(&mut self.entries, &mut self.tally, entry) {
            Ok(()) => {
                self.index.settle();
                Ok(copies)
            }
            Err(refused) => {
                self.index.cut();
                Err(refused)
            }
        }
    }

    /// Makes the entry of one call, and answers its reply. It is `step` for a caller who has no checks at hand and keeps
    /// no second copy, and promises the same.
    pub fn call(&mut self, alloc: Global, seat: u64, call: Call) -> Result<Reply, Memory>
        ensures entry { OnOk result (self.new ≡ with_entry self.old (entry_of self.old seat call)) }
        ensures reply { IfOk result (λ reply. reply ≡ (entry_of self.old seat call).reply) }
        ensures err { OnErr result (self.new ≡ self.old) }
        ensures stays { IsMore (published_at (published self.old.entries)) (published_at (published self.new.entries)) }
        ensures second { BuildsAreAccepted self.old }
    {
        let (reply, _copy) = self.step(alloc, seat, call, &[])?;
        Ok(reply)
    }

    /// The tick: the last that it was advanced to, else the first, in POSIX milliseconds. Takes no memory.
    pub fn tick(&self) -> i64
        ensures { result ≡ (world self.now).replay.tick }
    {
        self.tally.tick()
    }

    /// The entries, in order. Takes no memory. What holds of them, `history` says.
    pub fn entries(&self) -> &[Entry]
        ensures { result.now ≡ self.now.entries }
    {
        &self.entries
    }

    /// The entries, in order, with all that holds of them. Takes no memory. They are legal, and what stands after them is
    /// what they say. The ledger began with key outputs whose sums fit an amount, and what it accepted fits its spelling.
    /// What is published under an id is what a Publish published, one contract with one currency, and stays so; an id is
    /// answered to be in use only where an earlier entry published another under it. Steps are runs, and builds are
    /// accepted (`Headline` of `ledger_spec` says what that is, promise by promise), now and before each entry
    /// (`throughout`). And a Look that comes after an accepted Submit shows what that made, where it asks for it and
    /// nothing that was accepted between the two spent it.
    pub fn history(&self) -> &[Entry]
        ensures all { result.now ≡ self.now.entries }
        ensures legal { IsLegal self.now }
        ensures begins { AreKeys self.now.genesis × SumsFit self.now.genesis }
        ensures stands { StandsAsTold self.now }
        ensures in_use { InUseByAnother self.now.entries }
        ensures stays { (n m : ℕ) → n ≤ m →
            IsMore (published_at (published (before_entry self.now n).entries)) (published_at (published (before_entry self.now m).entries)) }
        ensures fits { All TxFits (past_of (world self.now)).accepted }
        ensures first { StepsAreRuns self.now }
        ensures second { BuildsAreAccepted self.now }
        ensures throughout { (n : ℕ) → BothHalves (before_entry self.now n) }
        ensures shown { ShowsWhatWasMade self.now }
    {
        both_halves_hold_of_legal_histories();
        found_is_enough::<Published>();
        starting_is_sound::<Published>();
        accepting_is_sound::<Published>();
        publishing_is_sound::<Published>();
        contracts_end_threads::<Published>();
        threads_stay::<Published>();
        legal_histories_stand();
        publications_are_entries();
        &self.entries
    }

    /// What is found of what a transaction names: the unspent outputs of its inputs, and of the scripts that
    /// its outputs and those name the ones that are published. Answers `Memory` only where a growth was refused.
    pub fn resolve(&self, alloc: Global, tx: &Tx) -> Result<Resolved<Published>, Memory>
        ensures { IfOk result (λ resolved. resolved ≡ found (moment_of (world self.now)) tx.now) }
    {
        resolution(alloc, &self.kept(&[]), &self.index, tx)
    }

    /// The first so many of the pending transactions, or all where there are fewer, in order, each with what is found
    /// now of what it names: what a round would judge first, for checks that are made before it. Answers `Memory` only
    /// where a growth was refused.
    pub fn front(&self, alloc: Global, count: u64) -> Result<Vec<(Tx, Resolved<Published>)>, Memory>
        ensures { IfOk result (λ jobs. jobs.items ≡ pool_front (world self.now) count) }
    {
        front(alloc, &self.kept(&[]), &self.index, count)
    }

    /// The records of the thread that starts at an output, in order, as many as the thread has transactions: each says
    /// what the transaction function gave from the datum that its transaction brought for the output that it spent, and
    /// its number stands for what remained, in the table that is published under the thread's script: for Close exactly
    /// where the thread is over. They are the thread's one run (`history`) where it brings what was made. Where no
    /// thread starts there are none. Answers `Memory` only where a growth was refused.
    pub fn steps_of(
        &self,
        alloc: Global,
        reference: &OutputRef,
    ) -> Result<Items<StepRecord>, Memory>
        ensures { IfOk result (λ records.
            AreSteps (published_at (published self.now.entries)) (past_of (world self.now)) reference.now records) }
    {
        publications_are_entries();
        // touch: brings the invariant
        let _tick = self.first_tick;
        steps_of(alloc, &self.kept(&[]), &self.index, reference)
    }

    /// A chain without entries, whose tick is the one given, in POSIX milliseconds. Refused are outputs of which
    /// one isn't a key output (`NotKey`), else outputs of which the sum of a token is above 2^127 - 1
    /// (`TooLarge`); else only a growth that was refused gives `Memory`.
    pub fn genesis(alloc: Global, outputs: Items<Output>, tick: i64) -> Result<Chain, GenesisFault>
        ensures ok { IfOk result (λ chain. (chain ≡ record { genesis = outputs; first_tick = tick; entries = [] })
            × AreKeys outputs × SumsFit outputs) }
        ensures err { IfErr result (λ fault. RefusesGenesis outputs fault) }
    {
        check_genesis(alloc, outputs.as_slice())?;
        let chain = Chain::starting(alloc, outputs, tick)?;
        Ok(chain)
    }
}
