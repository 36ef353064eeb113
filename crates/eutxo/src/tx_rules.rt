//! The rules of the transaction alone, each one function.
ghost use Rattle.std.specs.Prelude.{◌≡◌, ℕ, position, option_map};
ghost use Rattle.std.specs.List.{list_any};
ghost use Rattle.eutxo.specs.Faults.{first_index};
ghost use Rattle.eutxo_types.specs.Parts.{same_ref};
ghost use Rattle.eutxo.specs.Rules.{no_inputs, has_too_many, too_many, is_repeated, repeated_input, has_signed};
ghost use Rattle.eutxo.specs.Local.{tx_fault};

use contract::Text;
use eutxo_types::{Spend, Tx, TxFault};

/// How many inputs a transaction, and how many of the contract's a redeemer, may have.
const MOST: usize = 256;

fn no_inputs(tx: &Tx) -> Option<TxFault>
    ensures { result ≡ no_inputs tx.now }
{
    if tx.inputs.is_empty() {
        Some(TxFault::NoInputs)
    } else {
        None
    }
}

fn has_too_many(spend: &Spend) -> bool
    ensures { result ≡ has_too_many spend.now }
{
    spend.redeemer.inputs().len() > MOST
}

fn any_has_too_many(inputs: &[Spend]) -> bool
    ensures { result ≡ list_any has_too_many inputs.now }
{
    inputs.iter().any(|x| has_too_many(x))
}

fn too_many(tx: &Tx) -> Option<TxFault>
    ensures { result ≡ too_many tx.now }
{
    if tx.inputs.len() > MOST || any_has_too_many(tx.inputs.as_slice()) {
        Some(TxFault::TooMany)
    } else {
        None
    }
}

fn is_named(earlier: &[Spend], spend: &Spend) -> bool
    ensures { result ≡ list_any (λ y. same_ref y.reference spend.now.reference) earlier.now }
{
    earlier.iter().any(|y| y.reference.is_same(spend.reference))
}

#[tactic(auto, using(crate::proofs::FaultsLemmas::found_place, crate::proofs::FaultsLemmas::next_place))]
fn repeated_index(inputs: &[Spend]) -> Option<usize>
    ensures { result ≡ first_index (is_repeated inputs.now) 0 inputs.now }
{
    for (i, x) in inputs.iter().enumerate() {
        if is_named(&inputs[..i], x) {
            return Some(i);
        }
    }
    None
}

fn repeated_input(tx: &Tx) -> Option<TxFault>
    ensures { result ≡ repeated_input tx.now }
{
    match repeated_index(tx.inputs.as_slice()) {
        Some(i) => Some(TxFault::RepeatedInput(i as u64)),
        None => None,
    }
}

/// Whether an address is among the signers.
pub fn has_signed(signers: &[Text], address: &Text) -> bool
    ensures { result ≡ has_signed signers.now address.now }
{
    signers.iter().any(|s| *s == *address)
}

/// The fault of the lowest of rules 1 to 3 that refuses, or `None`: no input, too many, an output named
/// twice. These read the transaction alone, and take no memory.
pub fn tx_fault(tx: &Tx) -> Option<TxFault>
    ensures { result ≡ tx_fault tx.now }
{
    if let Some(fault) = no_inputs(tx) {
        return Some(fault);
    }
    if let Some(fault) = too_many(tx) {
        return Some(fault);
    }
    repeated_input(tx)
}
