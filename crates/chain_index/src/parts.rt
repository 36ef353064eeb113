//! The lists that an index keeps.
ghost use Rattle.std.specs.Prelude.{◌≡◌, ◌++◌, ◌∷◌, [], ℕ, false, None, OnOk, OnErr, IfOk, option_copied, position};
ghost use Rattle.std.specs.Map.{lookup};
ghost use Rattle.ledger_spec.specs.EutxoTypes.declared.output_ref.OutputRef.{OutputRef};
ghost use Rattle.ledger_spec.specs.EutxoTypes.declared.output_ref.OutputRef.TheVariants.{Made};
ghost use Rattle.ledger_spec.specs.EutxoTypes.Ids.{id_of};
ghost use Rattle.ledger_spec.specs.EutxoTypes.Parts.{same_bytes, same_ref};
ghost use Rattle.ledger_spec.specs.Eutxo.Blocks.{places_in};
ghost use Rattle.ledger_spec.specs.Replay.{published_at};
ghost use Rattle.ledger_spec.specs.Views.{is_key_of, is_payout_of};
ghost use Rattle.chain_index.specs.Contents.{blocks_in, is_used, is_among, end_in, under_locks_in, CanBeAdded};
ghost use Rattle.chain_index.specs.HolesSupport.{known, AreAmong};
ghost use Rattle.chain_index.specs.Moves.{along};
ghost use Rattle.chain_index.specs.PartsSupport.{contents_in, no_parts, first_parts, sizes_of, front, Takes, IsGrown};

use crate::additions::{bring_all, leave_all, move_all, put_all, start_all};
use crate::holes::{Slots, close_if_many, is_noted, value_at};
use crate::moves::{Move, StepPlace, end_along, steps_along};
use crate::naming::Naming;
use crate::objects::{Objects, object_at, put_object};
use crate::outputs::{Outputs, take_all_out, truncate};
use crate::under_locks::{keys_shown, payouts_shown};
use indexmap::{IndexMap, IndexSet};
use ledger_spec::{
    Datum, Items, Memory, Output, OutputRef, PayoutLock, Published, Shared, Text, Tx, Unspent,
};
use std::alloc::{AllocError, Global};
use std::marker::Model;

/// How long the lists of an index are.
#[derive(Clone, Copy)]
pub struct Sizes {
    entries: usize,
    leaving: usize,
    ids: usize,
    objects: usize,
    moves: usize,
    starts: usize,
    datums: usize,
}

/// The lists that an index keeps. Additions go to their ends, and what is spent is only noted until it is settled; then
/// its output and its datum are dropped and holes stay in their places, and where more than half of the entries are
/// holes they are closed.
#[derive(Drop)]
pub(crate) struct Parts {
    outputs: Outputs,
    leaving: IndexSet<OutputRef>,
    holes: usize,
    ids: IndexSet<[u8; 32]>,
    objects: Objects,
    moves: IndexMap<OutputRef, Move>,
    starts: IndexSet<OutputRef>,
    datums: Slots<Datum>,
    datum_holes: usize,
}

impl Model for Parts {
    ghost use Rattle.std.specs.Coded.{codes};
    ghost use Rattle.std.specs.Map.{values_of};
    ghost use Rattle.ledger_spec.specs.Machine.contracts.datum.Datum as brought;
    ghost use Rattle.ledger_spec.specs.EutxoTypes.contracts.output.Output as made;
    ghost use Rattle.ledger_spec.specs.EutxoTypes.contracts.output_ref.OutputRef as references;
    ghost use Rattle.ledger_spec.specs.Roles.contracts.published.Published as publications;
    ghost use Rattle.chain_index.specs.contracts.moves.Move as move_rows;
    ghost use Rattle.chain_index.specs.PartsSupport.{Parts, AreNamed};

    ghost Value = { Parts };

    ghost coded = { Prim.hlevel (
      codes,
      brought.the_row.coded,
      made.the_row.coded,
      references.the_row.coded,
      publications.the_row.coded,
      move_rows.the_row.coded,
    ) };

    ghost view = { λ a.
        record {
          entries = a.outputs;
          leaving = a.leaving.keys;
          ids = a.ids.keys;
          objects = values_of a.objects.entries;
          moves = a.moves.entries;
          starts = a.starts.keys;
          datums = a.datums.entries;
        } };

    ghost invariant = { λ a. AreNamed a.objects.entries };
}

// Uses a new id. A refusal for memory changes nothing.
fn put_id(ids: &mut IndexSet<[u8; 32]>, id: [u8; 32]) -> Result<(), Memory>
    requires { is_used ids.old.keys id ≡ false }
    ensures ok { OnOk result (ids.new.keys ≡ ids.old.keys ++ id ∷ []) }
    ensures err { OnErr result (ids.new.keys ≡ ids.old.keys) }
{
    match ids.insert(id) {
        Ok(_) => Ok(()),
        Err(_) => Err(AllocError),
    }
}

// These outputs alone. Takes no memory.
fn of_outputs(alloc: Global, outputs: Outputs) -> Parts
    ensures { result ≡ record no_parts { entries = outputs } }
{
    Parts {
        outputs,
        leaving: IndexSet::new(alloc),
        holes: 0,
        ids: IndexSet::new(alloc),
        objects: IndexMap::new(alloc),
        moves: IndexMap::new(alloc),
        starts: IndexSet::new(alloc),
        datums: IndexMap::new(alloc),
        datum_holes: 0,
    }
}

impl Parts {
    /// Nothing yet. Takes no memory.
    pub(crate) fn new(alloc: Global) -> Parts
        ensures { result ≡ no_parts }
    {
        of_outputs(alloc, Outputs::new(alloc))
    }

    /// What there is at the beginning: these outputs.
    pub(crate) fn of_genesis(alloc: Global, genesis: &[Output]) -> Result<Parts, Memory>
        ensures { IfOk result (λ parts. parts ≡ first_parts genesis.now) }
    {
        let mut outputs = Outputs::new(alloc);
        put_all(&mut outputs, &Naming::Genesis, genesis)?;
        Ok(of_outputs(alloc, outputs))
    }

    /// How long the lists are.
    pub(crate) fn sizes(&self) -> Sizes
        ensures { result ≡ sizes_of self.now }
    {
        Sizes {
            entries: self.outputs.len(),
            leaving: self.leaving.len(),
            ids: self.ids.len(),
            objects: self.objects.len(),
            moves: self.moves.len(),
            starts: self.starts.len(),
            datums: self.datums.len(),
        }
    }

    /// Takes back what came after the lists were so long. Takes no memory.
    pub(crate) fn back(&mut self, sizes: &Sizes)
        ensures { self.new ≡ front sizes.now self.old }
    {
        truncate(&mut self.outputs, sizes.entries);
        self.leaving.truncate(sizes.leaving);
        self.ids.truncate(sizes.ids);
        self.objects.truncate(sizes.objects);
        self.moves.truncate(sizes.moves);
        self.starts.truncate(sizes.starts);
        self.datums.truncate(sizes.datums);
    }

    // Adds what a transaction makes, spends, moves, starts and brings. Where memory is refused, what came so far is
    // there.
    fn add(&mut self, tx: &Tx, id: &[u8; 32], places: &[Option<u64>]) -> Result<(), Memory>
        requires named { id.now ≡ id_of tx.now }
        requires absent { (i : ℕ) → is_among (known self.old.entries) (Made id.now i) ≡ false }
        requires absent_datums { (i : ℕ) → is_among (known self.old.datums) (Made (id_of tx.now) i) ≡ false }
        requires can { CanBeAdded (contents_in self.old) tx.now }
        requires places { places.now ≡ places_in (blocks_in (contents_in self.old) tx.now) }
        ensures ok { OnOk result (Takes tx.now self.old self.new) }
        ensures grown { IsGrown self.old self.new }
    {
        let number = self.ids.len() as u64;
        put_all(&mut self.outputs, &Naming::Made(*id), tx.outputs.as_slice())?;
        leave_all(&mut self.leaving, tx.inputs.as_slice())?;
        move_all(&mut self.moves, tx, id, number, places)?;
        start_all(&mut self.starts, tx, id)?;
        bring_all(&mut self.datums, tx, id)?;
        put_id(&mut self.ids, *id)
    }

    /// Adds what a transaction makes, spends, moves, starts and brings, or changes nothing.
    pub(crate) fn grow(
        &mut self,
        tx: &Tx,
        id: &[u8; 32],
        places: &[Option<u64>],
    ) -> Result<(), Memory>
        requires named { id.now ≡ id_of tx.now }
        requires absent { (i : ℕ) → is_among (known self.old.entries) (Made id.now i) ≡ false }
        requires absent_datums { (i : ℕ) → is_among (known self.old.datums) (Made (id_of tx.now) i) ≡ false }
        requires can { CanBeAdded (contents_in self.old) tx.now }
        requires places { places.now ≡ places_in (blocks_in (contents_in self.old) tx.now) }
        ensures ok { OnOk result (Takes tx.now self.old self.new) }
        ensures grown { OnOk result (IsGrown self.old self.new) }
        ensures err { OnErr result (self.new ≡ self.old) }
    {
        let sizes = self.sizes();
        match self.add(tx, id, places) {
            Ok(()) => Ok(()),
            Err(refused) => {
                self.back(&sizes);
                Err(refused)
            }
        }
    }

    /// Adds what wasn't published yet. A refusal for memory changes nothing.
    pub(crate) fn publish(&mut self, object: Shared<Published>) -> Result<(), Memory>
        requires { published_at self.old.objects object.id ≡ None }
        ensures ok { OnOk result (self.new ≡ record self.old { objects = self.old.objects ++ object ∷ [] }) }
        ensures err { OnErr result (self.new ≡ self.old) }
    {
        put_object(&mut self.objects, object)
    }

    /// Lets go of what was spent. Takes no memory.
    pub(crate) fn settle(&mut self)
        ensures same { contents_in self.new ≡ contents_in self.old }
        ensures leaving { self.new.leaving ≡ [] }
        ensures known { AreAmong (known self.new.entries) (known self.old.entries) }
        ensures known_datums { AreAmong (known self.new.datums) (known self.old.datums) }
    {
        let holes = self.holes.saturating_add(self.leaving.len());
        let gone = take_all_out(&mut self.outputs, &mut self.datums, &mut self.leaving);
        self.holes = self.outputs.close_if_many(holes);
        let datum_holes = self.datum_holes.saturating_add(gone);
        self.datum_holes = close_if_many(&mut self.datums, datum_holes);
    }

    // ---- look-ups

    /// The unspent output that a reference names.
    pub(crate) fn unspent_at(&self, reference: &OutputRef) -> Option<&Output>
        ensures { option_copied result ≡ lookup (same_ref reference.now) (contents_in self.now).unspent }
    {
        if is_noted(&self.leaving, reference) {
            None
        } else {
            self.outputs.value_at(reference)
        }
    }

    /// The datum that was brought for the unspent contract output that a reference names.
    pub(crate) fn datum_at(&self, reference: &OutputRef) -> Option<&Datum>
        ensures { option_copied result ≡ lookup (same_ref reference.now) (contents_in self.now).datums }
    {
        if is_noted(&self.leaving, reference) {
            None
        } else {
            value_at(&self.datums, reference)
        }
    }

    /// What is published under an id.
    pub(crate) fn published_at(&self, id: &[u8; 32]) -> Option<&Shared<Published>>
        ensures { option_copied result ≡ published_at self.now.objects id.now }
    {
        object_at(&self.objects, id)
    }

    /// Whether an id is in use.
    pub(crate) fn is_used(&self, id: &[u8; 32]) -> bool
        ensures { result ≡ is_used self.now.ids id.now }
    {
        self.ids.contains(id)
    }

    /// The place of the accepted transaction that has an id.
    pub(crate) fn number_of(&self, id: &[u8; 32]) -> Option<u64>
        ensures { result ≡ position (same_bytes id.now) self.now.ids }
    {
        match self.ids.get_index_of(id) {
            Some(number) => Some(number as u64),
            None => None,
        }
    }

    /// Whether the output starts a thread.
    pub(crate) fn is_start(&self, reference: &OutputRef) -> bool
        ensures { result ≡ is_among self.now.starts reference.now }
    {
        is_noted(&self.starts, reference)
    }

    /// Where the thread from a start output ends; of another output, nowhere.
    pub(crate) fn end_of(&self, reference: &OutputRef) -> Option<OutputRef>
        ensures { result ≡ end_in (contents_in self.now) reference.now }
    {
        if self.is_start(reference) {
            end_along(&self.moves, *reference)
        } else {
            None
        }
    }

    /// The steps of the thread from an output.
    pub(crate) fn steps(&self, alloc: Global, start: &OutputRef) -> Result<Items<StepPlace>, Memory>
        ensures { IfOk result (λ steps. steps ≡ along start.now self.now.moves) }
    {
        steps_along(alloc, &self.moves, *start)
    }

    /// The unspent outputs under the keys of these addresses, in order of creation.
    pub(crate) fn keys_shown(&self, alloc: Global, keys: &[Text]) -> Result<Items<Unspent>, Memory>
        ensures { IfOk result (λ shown. shown ≡ under_locks_in (is_key_of keys.now) (contents_in self.now)) }
    {
        keys_shown(alloc, &self.outputs, &self.leaving, keys)
    }

    /// The unspent outputs under these payout locks, in order of creation.
    pub(crate) fn payouts_shown(
        &self,
        alloc: Global,
        payouts: &[PayoutLock],
    ) -> Result<Items<Unspent>, Memory>
        ensures { IfOk result (λ shown. shown ≡ under_locks_in (is_payout_of payouts.now) (contents_in self.now)) }
    {
        payouts_shown(alloc, &self.outputs, &self.leaving, payouts)
    }
}
