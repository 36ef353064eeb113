//! The limits on what is spent.
ghost use Rattle.std.specs.Prelude.{◌≡◌, ◌++◌, ◌∷◌, ◌<◌, false, not, length, get_or, map};
ghost use Rattle.std.specs.Prelude.{IfOk, OnOk};
ghost use Rattle.std.specs.HashSet.{contains};
ghost use Rattle.builder_spec.specs.EutxoTypes.Parts.{same_ref};
ghost use Rattle.builder_spec.specs.Bundle.Bundles.{plus};
ghost use Rattle.builder_spec.specs.Holding.{sums, amount_in, AreBundles};
ghost use Rattle.builder_spec.specs.Causes.{is_much, limit_cause, has_repeat};
ghost use Rattle.coin_selection.specs.Answers.{AnswersCause, RefusesMuch};
ghost use Rattle.coin_selection.specs.LimitsSupport.{HasAlso};

use crate::own_output::OwnOutput;
use crate::sums::{see, see_room, sum, with};
use builder_spec::{BuildFault, Bundle, BundleFault, Output, OutputRef, Unspent};
use contract::{Input, Memory};
use std::alloc::Global;
use std::collections::HashSet;

const MOST: usize = 256;

/// Puts the references of outputs behind others.
pub(crate) fn put_references(
    references: &mut Vec<OutputRef>,
    outputs: &[Unspent],
) -> Result<(), Memory>
    ensures { OnOk result (references.new.items ≡ references.old.items ++ map (λ u. u.reference) outputs.now) }
{
    for unspent in outputs {
        references.push(unspent.reference)?;
    }
    Ok(())
}

/// Puts the references of threads' outputs behind others.
pub(crate) fn put_owned(
    references: &mut Vec<OutputRef>,
    owns: &[OwnOutput<'_>],
) -> Result<(), Memory>
    ensures { OnOk result (references.new.items ≡ references.old.items ++ map (λ u. u.reference) owns.now) }
{
    for own in owns {
        references.push(own.reference)?;
    }
    Ok(())
}

// Puts a reference into a set, and answers whether it is new there.
fn put_new(set: &mut HashSet<OutputRef>, reference: OutputRef) -> Result<bool, Memory>
    ensures fresh { IfOk result (λ fresh. fresh ≡ not (contains same_ref set.old reference)) }
    ensures put { OnOk result (HasAlso (contains same_ref set.old) (contains same_ref set.new) reference) }
{
    let fresh = set.insert(reference)?;
    Ok(fresh)
}

fn reference_at(references: &[OutputRef], at: usize) -> OutputRef
    requires { at < length references.now }
    ensures { result ≡ get_or references.now at result }
{
    references[at]
}

/// Whether two references name one output, by a set of those that come later.
pub(crate) fn has_repeat(alloc: Global, references: &[OutputRef]) -> Result<bool, Memory>
    ensures { IfOk result (λ answer. answer ≡ has_repeat references.now) }
{
    let mut later = HashSet::new(alloc);
    for i in (0..references.len()).rev() {
        match put_new(&mut later, reference_at(references, i)) {
            Ok(fresh) => {
                if !fresh {
                    return Ok(true);
                }
            }
            Err(refused) => return Err(refused),
        }
    }
    Ok(false)
}

// What the outputs of threads and others hold together.
fn spent(alloc: Global, owns: &[OwnOutput<'_>], front: &[Unspent]) -> Result<Bundle, BundleFault>
    requires { AreBundles amount_in front.now }
    ensures ok { IfOk result (λ all. all ≡ sums amount_in (owns.now ++ front.now)) }
    ensures err { RefusesMuch result (sums amount_in (owns.now ++ front.now)) }
{
    match owns {
        [] => sum(alloc, front),
        [own, others @ ..] => {
            // touch: its amounts are above 0
            see(own.output);
            match spent(alloc, others, front) {
                Ok(all) => with(own.output, &all),
                Err(fault) => Err(fault),
            }
        }
    }
}

/// What the outputs of threads and the front hold together, where the limits on what is spent hold.
pub fn owned_within(
    alloc: Global,
    owns: &[OwnOutput<'_>],
    front: &[Unspent],
) -> Result<Bundle, BuildFault>
    requires { AreBundles amount_in front.now }
    ensures all { IfOk result (λ all. all ≡ sums amount_in (owns.now ++ front.now)) }
    ensures passes { AnswersCause result (limit_cause (owns.now ++ front.now)) }
{
    if owns.len() > MOST || front.len() > MOST - owns.len() {
        return Err(BuildFault::TooMany);
    }
    match spent(alloc, owns, front) {
        Ok(all) => {
            // touch: there is room for each sum
            see_room(&all);
            Ok(all)
        }
        Err(fault) => Err(build_fault(fault)),
    }
}

// What both hold together fits.
fn fits(first: &Bundle, others: &Bundle) -> Result<(), BundleFault>
    ensures ok { OnOk result (is_much (plus first.now others.now) ≡ false) }
    ensures err { RefusesMuch result (plus first.now others.now) }
{
    match with(first, others) {
        Ok(all) => {
            // touch: there is room for each sum
            see_room(&all);
            Ok(())
        }
        Err(fault) => Err(fault),
    }
}

/// What is held by each of two lists of outputs that are spent together.
#[derive(Drop)]
pub struct Shares {
    pub first: Bundle,
    pub others: Bundle,
}

// What each list holds, where both together fit.
fn shares_of(alloc: Global, first: &[Unspent], others: &[Unspent]) -> Result<Shares, BundleFault>
    requires first { AreBundles amount_in first.now }
    requires others { AreBundles amount_in others.now }
    ensures first { IfOk result (λ shares. shares.first ≡ sums amount_in first.now) }
    ensures others { IfOk result (λ shares. shares.others ≡ sums amount_in others.now) }
    ensures fits { OnOk result (is_much (plus (sums amount_in first.now) (sums amount_in others.now)) ≡ false) }
    ensures err { RefusesMuch result (plus (sums amount_in first.now) (sums amount_in others.now)) }
{
    match sum(alloc, first) {
        Err(fault) => Err(fault),
        Ok(first) => match sum(alloc, others) {
            Err(fault) => Err(fault),
            Ok(others) => match fits(&first, &others) {
                Err(fault) => Err(fault),
                Ok(()) => Ok(Shares { first, others }),
            },
        },
    }
}

// How a sum that is refused is told.
fn build_fault(fault: BundleFault) -> BuildFault
    ensures memory { fault ≡ BundleFault.Memory → result ≡ BuildFault.Memory }
    ensures large { fault ≡ BundleFault.TooLarge → result ≡ BuildFault.TooMany }
{
    match fault {
        BundleFault::Memory => BuildFault::Memory,
        BundleFault::TooLarge => BuildFault::TooMany,
        BundleFault::Short(_) => BuildFault::TooMany,
    }
}

/// What each of two lists of outputs holds, where the limits hold of all that is spent.
pub fn shares_within(
    alloc: Global,
    first: &[Unspent],
    others: &[Unspent],
) -> Result<Shares, BuildFault>
    requires first { AreBundles amount_in first.now }
    requires others { AreBundles amount_in others.now }
    ensures first { IfOk result (λ shares. shares.first ≡ sums amount_in first.now) }
    ensures others { IfOk result (λ shares. shares.others ≡ sums amount_in others.now) }
    ensures passes { AnswersCause result (limit_cause (first.now ++ others.now)) }
{
    if first.len() > MOST || others.len() > MOST - first.len() {
        return Err(BuildFault::TooMany);
    }
    match shares_of(alloc, first, others) {
        Ok(shares) => Ok(shares),
        Err(fault) => Err(build_fault(fault)),
    }
}
