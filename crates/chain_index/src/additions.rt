//! What accepted transactions add to the lists of an index. Where memory is refused, what came so far is there.
ghost use Rattle.std.specs.Prelude.{◌≡◌, ◌+◌, ◌<◌, ◌++◌, ◌∷◌, [], ℕ, true, false, map, length, take, Some, OnOk, OnErr};
ghost use Rattle.std.specs.List.{IsDistinct};
ghost use Rattle.std.specs.Map.{keys_of};
ghost use Rattle.ledger_spec.specs.EutxoTypes.declared.output_ref.OutputRef.{OutputRef};
ghost use Rattle.ledger_spec.specs.EutxoTypes.declared.output_ref.OutputRef.TheVariants.{Made};
ghost use Rattle.ledger_spec.specs.EutxoTypes.Ids.{id_of};
ghost use Rattle.ledger_spec.specs.EutxoTypes.Parts.{same_ref, steps, contract_count, made_datums, contract_at};
ghost use Rattle.ledger_spec.specs.LedgerLaws.Past.{is_input_of};
ghost use Rattle.ledger_spec.specs.LedgerLaws.Threads.{next_in};
ghost use Rattle.ledger_spec.specs.Views.{starts_in};
ghost use Rattle.chain_index.specs.Contents.{is_among};
ghost use Rattle.chain_index.specs.HolesSupport.{known};
ghost use Rattle.chain_index.specs.Moves.{move_to, moves_to, starts_by};
ghost use Rattle.chain_index.specs.Data.{data_by};
ghost use Rattle.chain_index.specs.NamingSupport.{naming, slots, slots_of};
ghost use Rattle.chain_index.specs.PartsSupport.{IsFront, LeaveWith, one_start, one_datum};

use crate::holes::{Slots, note, put};
use crate::moves::{Move, next_in, put_move};
use crate::naming::{Naming, name_at};
use crate::outputs::Outputs;
use indexmap::{IndexMap, IndexSet};
use ledger_spec::{Datum, Instance, Memory, Output, OutputRef, Spend, TryClone, Tx, with_datum};

// ---- outputs

// Puts a copy of an output under a new reference.
fn put_one(outputs: &mut Outputs, whose: &Naming, index: u64, output: &Output) -> Result<(), Memory>
    requires { is_among (known outputs.old) (naming whose.now index) ≡ false }
    ensures ok { OnOk result (outputs.new ≡ outputs.old ++ (naming whose.now index, Some output.now) ∷ []) }
    ensures err { OnErr result (outputs.new ≡ outputs.old) }
{
    let copy = output.try_clone()?;
    outputs.put(name_at(whose, index), copy)
}

/// Puts copies of outputs under their references.
pub(crate) fn put_all(outputs: &mut Outputs, whose: &Naming, made: &[Output]) -> Result<(), Memory>
    requires { (i : ℕ) → is_among (known outputs.old) (naming whose.now i) ≡ false }
    ensures ok { OnOk result (outputs.new ≡ outputs.old ++ slots_of whose.now made.now) }
    ensures grown { IsFront outputs.old outputs.new }
{
    for (i, o) in made.iter().enumerate() {
        put_one(outputs, whose, i as u64, o)?;
    }
    Ok(())
}

// ---- what is spent

/// Notes that what these inputs name leaves.
pub(crate) fn leave_all(leaving: &mut IndexSet<OutputRef>, inputs: &[Spend]) -> Result<(), Memory>
    ensures ok { OnOk result (LeaveWith inputs.now leaving.old.keys leaving.new.keys) }
    ensures grown { IsFront leaving.old.keys leaving.new.keys }
{
    for x in inputs {
        note(leaving, x.reference)?;
    }
    Ok(())
}

// ---- moves

// Adds the move of an input that steps a contract, which goes on in this place.
fn move_one(
    moves: &mut IndexMap<OutputRef, Move>,
    tx: &Tx,
    id: &[u8; 32],
    number: u64,
    input: &Spend,
    place: Option<u64>,
) -> Result<(), Memory>
    requires named { id.now ≡ id_of tx.now }
    requires unmoved { is_among (keys_of moves.old.entries) input.now.reference ≡ false }
    ensures ok { OnOk result (moves.new.entries ≡ moves.old.entries ++ (input.now.reference, move_to number (next_in tx.now place)) ∷ []) }
    ensures err { OnErr result (moves.new.entries ≡ moves.old.entries) }
{
    let spends = input.reference;
    let next = next_in(tx, id, place);
    put_move(moves, spends, Move { number, next })
}

/// Adds the moves of a transaction, which is the accepted one of this number, and in which the contracts that its
/// inputs step go on in these places.
pub(crate) fn move_all(
    moves: &mut IndexMap<OutputRef, Move>,
    tx: &Tx,
    id: &[u8; 32],
    number: u64,
    places: &[Option<u64>],
) -> Result<(), Memory>
    requires named { id.now ≡ id_of tx.now }
    requires once { IsDistinct same_ref (map (λ x. x.reference) tx.now.inputs) }
    requires unmoved { (r : OutputRef) → is_input_of r tx.now ≡ true → is_among (keys_of moves.old.entries) r ≡ false }
    ensures ok { OnOk result (moves.new.entries ≡ moves.old.entries ++ moves_to number tx.now tx.now.inputs places.now) }
    ensures grown { IsFront moves.old.entries moves.new.entries }
{
    let mut count = 0;
    for x in tx.inputs.as_slice() {
        if x.redeemer.is_step() {
            if count < places.len() {
                move_one(moves, tx, id, number, x, places[count])?;
                count += 1;
            }
        }
    }
    Ok(())
}

// ---- contracts that are made

// The contract in the output at a place, before which so many outputs are contracts'.
#[tactic(auto, using(eutxo::proofs::DatumLemmas::made_here))]
fn made_at<'a>(tx: &'a Tx, datums: &'a [Datum], index: usize, count: usize) -> Option<Instance<'a>>
    requires index { index < length tx.now.outputs }
    requires datums { datums.now ≡ made_datums tx.now }
    requires count { count ≡ contract_count (take index tx.now.outputs) }
    ensures { result ≡ contract_at tx.now index }
{
    let output = &tx.outputs.as_slice()[index];
    with_datum(&output.lock, datums.get(count))
}

// How many outputs up to a place are contracts', where so many are before it.
fn count_through(tx: &Tx, index: usize, count: usize) -> usize
    requires index { index < length tx.now.outputs }
    requires count { count ≡ contract_count (take index tx.now.outputs) }
    ensures { result ≡ contract_count (take (index + 1) tx.now.outputs) }
{
    if tx.outputs.as_slice()[index].lock.is_contract() {
        count + 1
    } else {
        count
    }
}

// ---- starts

// Whether a transaction starts a thread in the output at a place, where it is told whether it steps a contract, and
// which contract it makes there.
fn starts_at(tx: &Tx, id: &[u8; 32], stepping: bool, index: u64, made: Option<Instance<'_>>) -> bool
    requires named { id.now ≡ id_of tx.now }
    requires stepping { stepping ≡ steps tx.now }
    requires made { made ≡ contract_at tx.now index }
    ensures { result ≡ starts_in (Made id.now index) tx.now }
{
    !stepping && made.is_some()
}

// Adds the output at a place, where it starts a thread.
fn start_one(
    starts: &mut IndexSet<OutputRef>,
    tx: &Tx,
    id: &[u8; 32],
    stepping: bool,
    index: u64,
    made: Option<Instance<'_>>,
) -> Result<(), Memory>
    requires named { id.now ≡ id_of tx.now }
    requires stepping { stepping ≡ steps tx.now }
    requires made { made ≡ contract_at tx.now index }
    requires unstarted { is_among starts.old.keys (Made id.now index) ≡ false }
    ensures ok { OnOk result (starts.new.keys ≡ starts.old.keys ++ one_start id.now tx.now index) }
    ensures err { OnErr result (starts.new.keys ≡ starts.old.keys) }
{
    if starts_at(tx, id, stepping, index, made) {
        note(starts, OutputRef::Made { id: *id, index })
    } else {
        Ok(())
    }
}

/// Adds the outputs of a transaction that start threads.
pub(crate) fn start_all(
    starts: &mut IndexSet<OutputRef>,
    tx: &Tx,
    id: &[u8; 32],
) -> Result<(), Memory>
    requires named { id.now ≡ id_of tx.now }
    requires unstarted { (i : ℕ) → is_among starts.old.keys (Made (id_of tx.now) i) ≡ false }
    ensures ok { OnOk result (starts.new.keys ≡ starts.old.keys ++ starts_by tx.now) }
    ensures grown { IsFront starts.old.keys starts.new.keys }
{
    let stepping = tx.steps();
    let datums = tx.made_datums();
    let mut count = 0;
    for i in 0..tx.outputs.len() {
        let made = made_at(tx, datums, i, count);
        start_one(starts, tx, id, stepping, i as u64, made)?;
        count = count_through(tx, i, count);
    }
    Ok(())
}

// ---- data

// Puts a copy of the datum of the contract that is made in an output under the output's reference.
fn bring_one(
    datums: &mut Slots<Datum>,
    reference: OutputRef,
    made: Option<Instance<'_>>,
) -> Result<(), Memory>
    requires { is_among (known datums.old.entries) reference ≡ false }
    ensures ok { OnOk result (datums.new.entries ≡ datums.old.entries ++ slots (one_datum reference made.entry)) }
    ensures err { OnErr result (datums.new.entries ≡ datums.old.entries) }
{
    match made {
        Some(c) => {
            let copy = c.datum.try_clone()?;
            put(datums, reference, copy)
        }
        None => Ok(()),
    }
}

/// Puts copies of the data that a transaction brings for the contracts that it makes.
pub(crate) fn bring_all(datums: &mut Slots<Datum>, tx: &Tx, id: &[u8; 32]) -> Result<(), Memory>
    requires named { id.now ≡ id_of tx.now }
    requires absent { (i : ℕ) → is_among (known datums.old.entries) (Made (id_of tx.now) i) ≡ false }
    ensures ok { OnOk result (datums.new.entries ≡ datums.old.entries ++ slots (data_by tx.now)) }
    ensures grown { IsFront datums.old.entries datums.new.entries }
{
    let brought = tx.made_datums();
    let mut count = 0;
    for i in 0..tx.outputs.len() {
        let made = made_at(tx, brought, i, count);
        let index = i as u64;
        bring_one(datums, OutputRef::Made { id: *id, index }, made)?;
        count = count_through(tx, i, count);
    }
    Ok(())
}
