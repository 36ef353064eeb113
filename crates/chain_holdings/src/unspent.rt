//! All that is unspent.
ghost use Rattle.std.specs.Prelude.{◌≡◌, ◌++◌, ◌∷◌, [], map, is_some, IfOk, OnOk};
ghost use Rattle.ledger_kept.specs.LedgerLaws.Past.{unspent, unspent_at, with_references};
ghost use Rattle.ledger_kept.specs.LedgerSpec.Replay.{past_of, world};
ghost use Rattle.chain_holdings.specs.CreatedSupport as created;
ghost use Rattle.chain_holdings.specs.CreatedSupport.{first_there, unspent_among};

use crate::accepted::LentTx;
use chain::Chain;
use contract::{Interval, Items, Memory};
use ledger_kept::{Output, OutputRef, Redeemer, Spend, Tx, tx_id};
use play_holdings::LentOutput;
use std::alloc::Global;

/// Whose outputs are named: those that the ledger began with, or those of the accepted transaction with this id.
#[derive(Clone, Copy)]
pub(crate) enum Maker {
    Beginning,
    Accepted([u8; 32]),
}

// The reference of the output at a place.
fn reference_by(maker: &Maker, index: u64) -> OutputRef
    ensures { result ≡ created.reference_by maker.now index }
{
    match maker {
        Maker::Beginning => OutputRef::Genesis { index },
        Maker::Accepted(id) => OutputRef::Made { id: *id, index },
    }
}

// A transaction that spends an output, and nothing else: to ask a chain what is found there.
fn spending(alloc: Global, reference: OutputRef) -> Result<Tx, Memory>
    ensures { IfOk result (λ tx. map (λ x. x.reference) tx.inputs ≡ reference ∷ []) }
{
    let mut inputs = Items::new(alloc);
    inputs.push(Spend {
        reference,
        redeemer: Redeemer::None,
    })?;
    Ok(Tx {
        inputs,
        outputs: Items::new(alloc),
        interval: Interval { from: 0, to: 0 },
        signers: Items::new(alloc),
        datums: Items::new(alloc),
    })
}

// Whether the first of these was found.
fn first_there(outputs: &[Option<Output>]) -> bool
    ensures { result ≡ created.first_there outputs.now }
{
    match outputs.first() {
        Some(output) => output.is_some(),
        None => false,
    }
}

// Whether an output is unspent.
fn is_unspent(alloc: Global, chain: &Chain, reference: OutputRef) -> Result<bool, Memory>
    ensures { IfOk result (λ there. there ≡ is_some (unspent_at (past_of (world chain.now)) reference)) }
{
    let tx = spending(alloc, reference)?;
    let found = chain.resolve(alloc, &tx)?;
    Ok(first_there(found.outputs.as_slice()))
}

// Puts those of these outputs at the end that are unspent.
fn put_unspent<'a>(
    alloc: Global,
    lent: &mut Vec<LentOutput<'a>>,
    chain: &Chain,
    maker: &Maker,
    outputs: &'a [Output],
) -> Result<(), Memory>
    ensures { OnOk result (lent.new.items ≡ lent.old.items
        ++ unspent_among (past_of (world chain.now)) (with_references (created.reference_by maker.now) 0 outputs.now)) }
{
    for (index, output) in outputs.iter().enumerate() {
        let reference = reference_by(maker, index as u64);
        if is_unspent(alloc, chain, reference)? {
            lent.push(LentOutput { reference, output })?;
        }
    }
    Ok(())
}

/// All that is unspent, in order of creation: of what the ledger began with, and of what these accepted transactions made.
pub(crate) fn unspent<'a>(
    alloc: Global,
    chain: &Chain,
    first: &'a [Output],
    txs: &[LentTx<'a>],
) -> Result<Vec<LentOutput<'a>>, Memory>
    requires first { first.now ≡ (past_of (world chain.now)).genesis }
    requires txs { txs.now ≡ (past_of (world chain.now)).accepted }
    ensures { IfOk result (λ lent. lent.items ≡ unspent (past_of (world chain.now))) }
{
    let mut lent = Vec::new(alloc);
    put_unspent(alloc, &mut lent, chain, &Maker::Beginning, first)?;
    for accepted in txs {
        let maker = Maker::Accepted(tx_id(alloc, accepted.tx)?);
        let outputs = accepted.tx.outputs.as_slice();
        put_unspent(alloc, &mut lent, chain, &maker, outputs)?;
    }
    Ok(lent)
}
