//! The index.
ghost use Rattle.std.specs.Prelude.{◌≡◌, [], None, IfOk, OnOk, OnErr, position, option_copied};
ghost use Rattle.std.specs.Map.{lookup};
ghost use Rattle.ledger_spec.specs.EutxoTypes.Ids.{id_of};
ghost use Rattle.ledger_spec.specs.EutxoTypes.Parts.{same_bytes, same_ref};
ghost use Rattle.ledger_spec.specs.Eutxo.Blocks.{places_in};
ghost use Rattle.ledger_spec.specs.Replay.{published_at};
ghost use Rattle.ledger_spec.specs.Views.{is_key_of, is_payout_of};
ghost use Rattle.chain_index.specs.Contents.{beginning, blocks_in, accepting, publishing, CanBeAdded};
ghost use Rattle.chain_index.specs.Contents.{is_used, is_among, end_in, under_locks_in};
ghost use Rattle.chain_index.specs.Moves.{along};

use crate::moves::StepPlace;
use crate::parts::{Parts, Sizes};
use ledger_spec::{
    Datum, Items, Memory, Output, OutputRef, PayoutLock, Places, Published, Shared, Text, Tx,
    Unspent,
};
use std::alloc::Global;
use std::marker::Model;

/// What is unspent and with which data, which ids are in use, what is published, and how threads start and go on, after
/// what was handed in.
/// Clauses see what there was when it was last settled, and what there is now.
///
/// A look-up costs the same whatever there is, and takes no memory; but `steps` and `end_of` make one for each step of
/// the thread, `keys_shown` and `payouts_shown` one for each lock that is asked for and each output under it, and what
/// these and `steps` answer takes memory.
/// Keys are found by their hashes, whose seed is fixed (docs/DECISIONS.md).
#[derive(Drop)]
pub struct Index {
    parts: Parts,
    settled: Sizes,
}

impl Model for Index {
    ghost use Rattle.std.specs.Coded.{codes};
    ghost use Rattle.ledger_spec.specs.Machine.contracts.datum.Datum as brought;
    ghost use Rattle.ledger_spec.specs.EutxoTypes.contracts.output.Output as outputs;
    ghost use Rattle.ledger_spec.specs.EutxoTypes.contracts.output_ref.OutputRef as references;
    ghost use Rattle.ledger_spec.specs.Roles.contracts.published.Published as publications;
    ghost use Rattle.chain_index.specs.contracts.moves.Move as move_rows;
    ghost use Rattle.chain_index.specs.Contents.{Indexed};
    ghost use Rattle.chain_index.specs.PartsSupport.{IsIndex, indexed};

    ghost Value = { Indexed };

    ghost coded = { Prim.hlevel (
      codes,
      brought.the_row.coded,
      outputs.the_row.coded,
      references.the_row.coded,
      publications.the_row.coded,
      move_rows.the_row.coded,
    ) };

    ghost view = { λ a. indexed a.parts a.settled };

    ghost invariant = { λ a. IsIndex a.parts a.settled };
}

impl Index {
    /// Nothing. Takes no memory.
    pub fn empty(alloc: Global) -> Index
        ensures { result ≡ beginning [] }
    {
        let parts = Parts::new(alloc);
        let settled = parts.sizes();
        Index { parts, settled }
    }

    /// What there is at the beginning: these outputs. Answers `Memory` only where a growth was refused.
    pub fn new(alloc: Global, genesis: &[Output]) -> Result<Index, Memory>
        ensures { IfOk result (λ index. index ≡ beginning genesis.now) }
    {
        let parts = Parts::of_genesis(alloc, genesis)?;
        let settled = parts.sizes();
        Ok(Index { parts, settled })
    }

    // ---- additions

    /// Adds one accepted transaction, whose id is lent, with the places in which its contracts go on, or changes
    /// nothing. It costs what the transaction is long.
    pub fn accept(&mut self, tx: &Tx, id: &[u8; 32], places: &Places) -> Result<(), Memory>
        requires named { id.now ≡ id_of tx.now }
        requires can { CanBeAdded self.old.present tx.now }
        requires places { places.now ≡ places_in (blocks_in self.old.present tx.now) }
        ensures ok { OnOk result (self.new ≡ record self.old { present = accepting self.old.present tx.now }) }
        ensures err { OnErr result (self.new ≡ self.old) }
    {
        self.parts.grow(tx, id, places.as_slice())
    }

    /// Adds one publication, under whose id there is none yet, or changes nothing.
    pub fn publish(&mut self, object: Shared<Published>) -> Result<(), Memory>
        requires { published_at self.old.present.published object.id ≡ None }
        ensures ok { OnOk result (self.new ≡ record self.old { present = publishing self.old.present object }) }
        ensures err { OnErr result (self.new ≡ self.old) }
    {
        self.parts.publish(object)
    }

    /// Takes back all that was added since it was last settled. Takes no memory.
    pub fn cut(&mut self)
        ensures { self.new ≡ record self.old { present = self.old.settled } }
    {
        self.parts.back(&self.settled);
    }

    /// Keeps all that was added, and lets go of what was spent. Takes no memory. Once as many outputs were spent as are
    /// left, it goes over all of them.
    pub fn settle(&mut self)
        ensures { self.new ≡ record self.old { settled = self.old.present } }
    {
        self.parts.settle();
        self.settled = self.parts.sizes();
    }

    // ---- look-ups

    /// The unspent output that a reference names.
    pub fn unspent_at(&self, reference: &OutputRef) -> Option<&Output>
        ensures { option_copied result ≡ lookup (same_ref reference.now) self.now.present.unspent }
    {
        self.parts.unspent_at(reference)
    }

    /// The datum that was brought for the unspent contract output that a reference names.
    pub fn datum_at(&self, reference: &OutputRef) -> Option<&Datum>
        ensures { option_copied result ≡ lookup (same_ref reference.now) self.now.present.datums }
    {
        self.parts.datum_at(reference)
    }

    /// What is published under an id.
    pub fn published_at(&self, script: &[u8; 32]) -> Option<&Shared<Published>>
        ensures { option_copied result ≡ published_at self.now.present.published script.now }
    {
        self.parts.published_at(script)
    }

    /// Whether an accepted transaction has this id.
    pub fn is_used(&self, id: &[u8; 32]) -> bool
        ensures { result ≡ is_used self.now.present.used id.now }
    {
        self.parts.is_used(id)
    }

    /// The place of the accepted transaction that has this id, counted from 0.
    pub fn number_of(&self, id: &[u8; 32]) -> Option<u64>
        ensures { result ≡ position (same_bytes id.now) self.now.present.used }
    {
        self.parts.number_of(id)
    }

    /// Whether the output starts a thread.
    pub fn is_start(&self, reference: &OutputRef) -> bool
        ensures { result ≡ is_among self.now.present.starts reference.now }
    {
        self.parts.is_start(reference)
    }

    /// Where the thread from a start output ends; of another output, nowhere. Each step of the thread costs one
    /// look-up.
    pub fn end_of(&self, reference: &OutputRef) -> Option<OutputRef>
        ensures { result ≡ end_in self.now.present reference.now }
    {
        self.parts.end_of(reference)
    }

    /// The steps of the thread from an output, in order. Each costs one look-up.
    pub fn steps(&self, alloc: Global, start: &OutputRef) -> Result<Items<StepPlace>, Memory>
        ensures { IfOk result (λ steps. steps ≡ along start.now self.now.present.moves) }
    {
        self.parts.steps(alloc, start)
    }

    /// The unspent outputs under the keys of these addresses, in order of creation, each once. It costs what is asked
    /// and what is shown.
    pub fn keys_shown(&self, alloc: Global, keys: &[Text]) -> Result<Items<Unspent>, Memory>
        ensures { IfOk result (λ shown. shown ≡ under_locks_in (is_key_of keys.now) self.now.present) }
    {
        self.parts.keys_shown(alloc, keys)
    }

    /// The unspent outputs under these payout locks, in order of creation, each once. It costs what is asked and what
    /// is shown.
    pub fn payouts_shown(
        &self,
        alloc: Global,
        payouts: &[PayoutLock],
    ) -> Result<Items<Unspent>, Memory>
        ensures { IfOk result (λ shown. shown ≡ under_locks_in (is_payout_of payouts.now) self.now.present) }
    {
        self.parts.payouts_shown(alloc, payouts)
    }
}
