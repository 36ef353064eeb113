//! The rule on data.
ghost use Rattle.std.specs.Prelude.{◌≡◌, ◌++◌, map, IfOk, OnOk};
ghost use Rattle.eutxo_types.specs.Digests.{datum_hash};
ghost use Rattle.eutxo_types.specs.Parts.{contract_in, same_bytes};
ghost use Rattle.eutxo.specs.Rules.{digest_in, digests_in, digests_held, first_unlike, wrong_datum};

use crate::spent::Spent;
use contract::Memory;
use eutxo_types::{Datum, Lock, Output, Tx, TxFault, datum_hash};
use std::alloc::Global;

// Puts the digest that a contract lock holds behind others.
fn put_digest(digests: &mut Vec<[u8; 32]>, lock: &Lock) -> Result<(), Memory>
    ensures { OnOk result (digests.new.items ≡ digests.old.items ++ digest_in (contract_in lock.now)) }
{
    match lock.contract() {
        Some(contract) => {
            digests.push(*contract.digest)?;
            Ok(())
        }
        None => Ok(()),
    }
}

fn put_spent(digests: &mut Vec<[u8; 32]>, spent: &[Spent<'_>]) -> Result<(), Memory>
    ensures { OnOk result (digests.new.items ≡ digests.old.items ++ digests_in (map (λ x. x.1) spent.now)) }
{
    for x in spent {
        put_digest(digests, &x.output().lock)?;
    }
    Ok(())
}

fn put_made(digests: &mut Vec<[u8; 32]>, outputs: &[Output]) -> Result<(), Memory>
    ensures { OnOk result (digests.new.items ≡ digests.old.items ++ digests_in outputs.now) }
{
    for output in outputs {
        put_digest(digests, &output.lock)?;
    }
    Ok(())
}

// The digests that are held by the contract outputs that are spent, and then by those that are made.
fn digests_held(alloc: Global, tx: &Tx, spent: &[Spent<'_>]) -> Result<Vec<[u8; 32]>, Memory>
    ensures { IfOk result (λ digests. digests.items ≡ digests_held tx.now spent.now) }
{
    let mut digests = Vec::new(alloc);
    put_spent(&mut digests, spent)?;
    put_made(&mut digests, tx.outputs.as_slice())?;
    Ok(digests)
}

// Whether a datum has a digest.
fn has_digest(alloc: Global, datum: &Datum, digest: &[u8; 32]) -> Result<bool, Memory>
    ensures { IfOk result (λ answer. answer ≡ same_bytes (datum_hash datum.now) digest.now) }
{
    let hash = datum_hash(alloc, datum)?;
    Ok(hash == *digest)
}

// The lowest place at which a datum hasn't the digest that is held there, or one of the two lists is over.
#[tactic(auto, using(crate::proofs::DatumLemmas::next_like, crate::proofs::DatumLemmas::found_unlike, crate::proofs::DatumLemmas::data_more, crate::proofs::DatumLemmas::digests_more, crate::proofs::DatumLemmas::as_many))]
fn unlike_index(
    alloc: Global,
    digests: &[[u8; 32]],
    datums: &[Datum],
) -> Result<Option<usize>, Memory>
    ensures { IfOk result (λ place. place ≡ first_unlike 0 digests.now datums.now) }
{
    for (i, datum) in datums.iter().enumerate() {
        if i >= digests.len() {
            return Ok(Some(i));
        }
        if !has_digest(alloc, datum, &digests[i])? {
            return Ok(Some(i));
        }
    }
    Ok(if digests.len() > datums.len() {
        Some(datums.len())
    } else {
        None
    })
}

/// The rule on the data that are brought: one for each contract output that is spent, and then one for each that is
/// made, each with the digest that its output holds.
pub(crate) fn wrong_datum(
    alloc: Global,
    tx: &Tx,
    spent: &[Spent<'_>],
) -> Result<Option<TxFault>, Memory>
    ensures { IfOk result (λ fault. fault ≡ wrong_datum tx.now spent.now) }
{
    let digests = digests_held(alloc, tx, spent)?;
    match unlike_index(alloc, digests.as_slice(), tx.datums.as_slice())? {
        Some(i) => Ok(Some(TxFault::WrongDatum(i as u64))),
        None => Ok(None),
    }
}
