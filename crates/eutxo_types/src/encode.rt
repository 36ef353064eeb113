//! The spelling of transactions. A writer that is refused memory leaves a beginning of what it spells, or nothing,
//! behind what was there.
ghost use Rattle.std.specs.Prelude.{◌≡◌, ◌++◌, IfOk, OnOk, OnErr};
ghost use Rattle.eutxo_types.specs.Fitting.{PlaceFits, IdFits, ReferenceFits, RedeemerFits, SpendFits, LockFits, AmountFits, OutputFits, TxFits};
ghost use Rattle.eutxo_types.specs.Spelling.{place_bytes, reference_bytes, redeemer_bytes, spend_bytes, lock_bytes, amount_bytes, output_bytes, tx_bytes};
ghost use Rattle.machine.specs.ContractBytes.Writing.{AppendsFront};

use crate::lock::Lock;
use crate::output::Output;
use crate::output_ref::OutputRef;
use crate::redeemer::Redeemer;
use crate::spend::Spend;
use crate::tx::Tx;
use bundle::Bundle;
use contract::Memory;
use machine::contract_bytes::{Spell, put_byte, put_length, put_list, put_time};
use std::alloc::Global;

fn put_id(out: &mut Vec<u8>, id: &[u8; 32]) -> Result<(), Memory>
    ensures spelling { OnOk result (out.new.items ≡ out.old.items ++ id.now) }
    ensures fits { IdFits id.now }
    ensures err { OnErr result (out.new.items ≡ out.old.items) }
{
    out.extend_from_slice(id.as_slice())?;
    Ok(())
}

fn put_place(out: &mut Vec<u8>, place: u64) -> Result<(), Memory>
    ensures spelling { OnOk result (out.new.items ≡ out.old.items ++ place_bytes place) }
    ensures fits { PlaceFits place }
    ensures err { OnErr result (out.new.items ≡ out.old.items) }
{
    put_length(out, place as usize)
}

#[tactic(auto, using(std::proofs::Common::append_assoc))]
fn put_reference(out: &mut Vec<u8>, reference: &OutputRef) -> Result<(), Memory>
    ensures spelling { OnOk result (out.new.items ≡ out.old.items ++ reference_bytes reference.now) }
    ensures fits { OnOk result (ReferenceFits reference.now) }
    ensures err { OnErr result (AppendsFront (reference_bytes reference.now) out.old.items out.new.items) }
{
    match reference {
        OutputRef::Genesis { index } => {
            put_byte(out, 0x00)?;
            put_place(out, *index)
        }
        OutputRef::Made { id, index } => {
            put_byte(out, 0x01)?;
            put_id(out, id)?;
            put_place(out, *index)
        }
    }
}

fn put_redeemer(out: &mut Vec<u8>, redeemer: &Redeemer) -> Result<(), Memory>
    ensures spelling { OnOk result (out.new.items ≡ out.old.items ++ redeemer_bytes redeemer.now) }
    ensures fits { OnOk result (RedeemerFits redeemer.now) }
    ensures err { OnErr result (AppendsFront (redeemer_bytes redeemer.now) out.old.items out.new.items) }
{
    match redeemer {
        Redeemer::None => put_byte(out, 0x00),
        Redeemer::Claim => put_byte(out, 0x01),
        Redeemer::Step(inputs) => {
            put_byte(out, 0x02)?;
            put_list(out, inputs.as_slice())
        }
    }
}

#[tactic(auto, using(std::proofs::Common::append_assoc))]
fn put_lock(out: &mut Vec<u8>, lock: &Lock) -> Result<(), Memory>
    ensures spelling { OnOk result (out.new.items ≡ out.old.items ++ lock_bytes lock.now) }
    ensures fits { OnOk result (LockFits lock.now) }
    ensures err { OnErr result (AppendsFront (lock_bytes lock.now) out.old.items out.new.items) }
{
    match lock {
        Lock::Key(address) => {
            put_byte(out, 0x00)?;
            address.put(out)
        }
        Lock::Payout { currency, role } => {
            put_byte(out, 0x01)?;
            currency.put(out)?;
            role.put(out)
        }
        Lock::Contract { script, datum } => {
            put_byte(out, 0x02)?;
            put_id(out, script)?;
            put_id(out, datum)
        }
    }
}

fn put_amount(out: &mut Vec<u8>, amount: &Bundle) -> Result<(), Memory>
    ensures spelling { OnOk result (out.new.items ≡ out.old.items ++ amount_bytes amount.now) }
    ensures fits { OnOk result (AmountFits amount.now) }
    ensures err { OnErr result (AppendsFront (amount_bytes amount.now) out.old.items out.new.items) }
{
    put_list(out, amount.entries())
}

impl Spell for Spend {
    ghost spelling = { spend_bytes };

    ghost Fits = { SpendFits };

    #[tactic(auto, using(std::proofs::Common::append_assoc))]
    fn put(&self, out: &mut Vec<u8>) -> Result<(), Memory> {
        put_reference(out, &self.reference)?;
        put_redeemer(out, &self.redeemer)
    }
}

impl Spell for Output {
    ghost spelling = { output_bytes };

    ghost Fits = { OutputFits };

    #[tactic(auto, using(std::proofs::Common::append_assoc))]
    fn put(&self, out: &mut Vec<u8>) -> Result<(), Memory> {
        put_lock(out, &self.lock)?;
        put_amount(out, &self.amount)
    }
}

#[tactic(auto, using(std::proofs::Common::append_assoc))]
fn put_tx(out: &mut Vec<u8>, tx: &Tx) -> Result<(), Memory>
    ensures spelling { OnOk result (out.new.items ≡ out.old.items ++ tx_bytes tx.now) }
    ensures fits { OnOk result (TxFits tx.now) }
    ensures err { OnErr result (AppendsFront (tx_bytes tx.now) out.old.items out.new.items) }
{
    put_list(out, tx.inputs.as_slice())?;
    put_list(out, tx.outputs.as_slice())?;
    put_time(out, tx.interval.from)?;
    put_time(out, tx.interval.to)?;
    put_list(out, tx.signers.as_slice())?;
    put_list(out, tx.datums.as_slice())
}

/// The spelling of a transaction: its inputs, its outputs, the ends of its interval, its signers and its data.
/// Answers `Memory` only where the growth of the spelling is refused.
pub fn encode_tx(alloc: Global, tx: &Tx) -> Result<Vec<u8>, Memory>
    ensures spelling { IfOk result (λ bytes. bytes.items ≡ tx_bytes tx.now) }
    ensures fits { IfOk result (λ bytes. TxFits tx.now) }
{
    let mut out = Vec::new(alloc);
    put_tx(&mut out, tx)?;
    Ok(out)
}
