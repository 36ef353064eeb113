//! Where threads end.
ghost use Rattle.std.specs.Prelude.{◌≡◌, ◌++◌, ◌∷◌, [], IfOk, OnOk};
ghost use Rattle.std.specs.Map.{lookup};
ghost use Rattle.eutxo.specs.EutxoTypes.declared.output_ref.OutputRef.{OutputRef as Reference};
ghost use Rattle.eutxo.specs.EutxoTypes.Parts.{same_ref};
ghost use Rattle.play_holdings.specs.Holdings.{ends_at, thread_from, thread_holder, holder_under};
ghost use Rattle.play_holdings.specs.SumsSupport.{or_place};

use crate::holder::Holder;
use eutxo::{Lock, Memory, OutputRef, TryClone};
use indexmap::IndexMap;
use std::alloc::{AllocError, Global};
use std::marker::Model;

/// Where threads end, in order, with a map from these outputs to the first thread that ends there. Clauses see the ends.
#[derive(Drop)]
pub(crate) struct Ends {
    ends: Vec<Option<OutputRef>>,
    places: IndexMap<OutputRef, usize>,
}

impl Model for Ends {
    ghost use Rattle.std.specs.Prelude.{◌≡◌, List, Option};
    ghost use Rattle.std.specs.Coded.{codes};
    ghost use Rattle.std.specs.Map.{lookup};
    ghost use Rattle.eutxo.specs.EutxoTypes.declared.output_ref.OutputRef.{OutputRef};
    ghost use Rattle.eutxo.specs.EutxoTypes.contracts.output_ref.OutputRef as references;
    ghost use Rattle.eutxo.specs.EutxoTypes.Parts.{same_ref};
    ghost use Rattle.play_holdings.specs.Holdings.{thread_from};

    ghost Value = { List (Option OutputRef) };

    ghost coded = { Prim.hlevel (codes, references.the_row.coded) };

    ghost view = { λ a. a.ends.items };

    ghost invariant = { λ a. (r : OutputRef) → lookup (same_ref r) a.places.entries ≡ thread_from 0 r a.ends.items };
}

// Notes the place of a thread for the output at which it ends, where no earlier one is noted.
fn note_end(
    places: &mut IndexMap<OutputRef, usize>,
    end: Option<OutputRef>,
    place: usize,
) -> Result<(), Memory>
    ensures { OnOk result ((r : Reference) → lookup (same_ref r) places.new.entries
        ≡ or_place (lookup (same_ref r) places.old.entries) (ends_at r end) place) }
{
    let Some(end) = end else {
        return Ok(());
    };
    if places.contains_key(&end) {
        return Ok(());
    }
    match places.insert(end, place) {
        Ok(_) => Ok(()),
        Err(_) => Err(AllocError),
    }
}

impl Ends {
    // No threads. Takes no memory.
    fn new(alloc: Global) -> Ends
        ensures { result ≡ [] }
    {
        Ends {
            ends: Vec::new(alloc),
            places: IndexMap::new(alloc),
        }
    }

    // With one thread more; or memory was refused, and all of it is dropped.
    fn with(self, end: Option<OutputRef>) -> Result<Ends, Memory>
        ensures { IfOk result (λ ends. ends ≡ self ++ end ∷ []) }
    {
        let Ends {
            mut ends,
            mut places,
        } = self;
        note_end(&mut places, end, ends.len())?;
        ends.push(end)?;
        Ok(Ends { ends, places })
    }

    /// Where threads end, in order.
    pub(crate) fn of(alloc: Global, all: &[Option<OutputRef>]) -> Result<Ends, Memory>
        ensures { IfOk result (λ ends. ends ≡ all.now) }
    {
        let mut ends = Ends::new(alloc);
        for end in all {
            ends = ends.with(*end)?;
        }
        Ok(ends)
    }

    // The thread that ends at an output.
    fn thread_at(&self, reference: &OutputRef) -> Holder
        ensures { result ≡ thread_holder (thread_from 0 reference.now self.now) }
    {
        match self.places.get(reference) {
            Some(place) => Holder::Thread(*place),
            None => Holder::Elsewhere,
        }
    }

    /// Who holds an output under a lock.
    pub(crate) fn holder_under(&self, reference: &OutputRef, lock: &Lock) -> Result<Holder, Memory>
        ensures { IfOk result (λ holder. holder ≡ holder_under self.now reference.now lock.now) }
    {
        match lock {
            Lock::Key(address) => Ok(Holder::Address(address.try_clone()?)),
            Lock::Payout { currency, role } => Ok(Holder::Payout {
                currency: currency.try_clone()?,
                role: role.try_clone()?,
            }),
            Lock::Contract { .. } => Ok(self.thread_at(reference)),
        }
    }
}
