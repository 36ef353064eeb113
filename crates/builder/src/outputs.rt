//! The outputs of a layout: those that are owed, where there is room for them, and the change.
ghost use Rattle.std.specs.Prelude.{◌≡◌, [], ◌∷◌, ◌++◌, map, true, false, if◌then◌else◌, IfOk, OnOk};
ghost use Rattle.std.specs.FinMap.{entries};
ghost use Rattle.builder_spec.specs.Bundle.Bundles.{covers, minus};
ghost use Rattle.builder_spec.specs.Eutxo.Faults.{is_empty};
ghost use Rattle.builder_spec.specs.Roles.Steps.{continuation};
ghost use Rattle.builder_spec.specs.Roles.Sums.{sums_of};
ghost use Rattle.builder_spec.specs.Holding.{sums};
ghost use Rattle.builder_spec.specs.Causes.{is_much};
ghost use Rattle.builder_spec.specs.Laying.{paid_to};
ghost use Rattle.builder.specs.OutputsSupport.{data_left, outcome_outputs};

use crate::beside::beside;
use builder_spec::{
    Bundle, BundleFault, Cont, Datum, Lock, Output, Published, continuation, put_due,
};
use coin_selection::{see_all, see_room, sum, sums_of};
use contract::{Items, Memory, Outcome, Text, TryClone};
use std::alloc::{AllocError, Global};

/// The output in which a contract goes on from a datum, with the sums of its accounts, none of which is too large for
/// an amount.
pub(crate) fn continuing_output(
    alloc: Global,
    script: &[u8; 32],
    datum: &Datum,
) -> Result<Output, Memory>
    requires { is_much (sums_of datum.now.state) ≡ false }
    ensures { IfOk result (λ output. output ≡ continuation script.now datum.now) }
{
    match sums_of(alloc, &datum.state) {
        Ok(sums) => continuation(alloc, script, datum, sums),
        Err(BundleFault::Memory) => Err(AllocError),
        Err(_) => unreachable!(),
    }
}

fn is_nothing(amount: &Bundle) -> bool
    ensures { result ≡ is_empty (entries amount.now) }
{
    match amount.entries() {
        [] => true,
        [_, ..] => false,
    }
}

/// Puts an output to an address behind others, where there is anything for it.
pub(crate) fn put_paid(
    outputs: &mut Items<Output>,
    address: &Text,
    amount: Bundle,
) -> Result<(), Memory>
    ensures { OnOk result (outputs.new ≡ outputs.old ++ paid_to address.now amount) }
{
    if is_nothing(&amount) {
        return Ok(());
    }
    let lock = Lock::Key(address.try_clone()?);
    outputs.push(Output { lock, amount })
}

// Puts the output in which a contract goes on behind others, unless it is closed; and the datum from which it goes on.
fn put_continuing(
    alloc: Global,
    outputs: &mut Items<Output>,
    datums: &mut Items<Datum>,
    script: &[u8; 32],
    closed: bool,
    datum: Datum,
) -> Result<(), Memory>
    requires { is_much (sums_of datum.state) ≡ false }
    ensures made { OnOk result (outputs.new ≡ outputs.old ++ map (continuation script.now) (if closed then [] else datum ∷ [])) }
    ensures brought { OnOk result (datums.new ≡ datums.old ++ (if closed then [] else datum ∷ [])) }
{
    if closed {
        return Ok(());
    }
    let made = continuing_output(alloc, script, &datum);
    let (datum, output) = beside(datum, made)?;
    let (datum, _) = beside(datum, outputs.push(output))?;
    datums.push(datum)
}

/// Puts the block of a part behind others: the output in which a published contract goes on, unless it is closed, and
/// those that are due for the payments. The datum from which it goes on is put behind others, too. No sum of its
/// accounts is too large for an amount.
pub(crate) fn put_block(
    alloc: Global,
    outputs: &mut Items<Output>,
    datums: &mut Items<Datum>,
    published: &Published,
    closed: bool,
    outcome: Outcome<Cont>,
) -> Result<(), Memory>
    requires { is_much (sums_of outcome.state) ≡ false }
    ensures made { OnOk result (outputs.new ≡ outputs.old ++ outcome_outputs published.now closed outcome) }
    ensures brought { OnOk result (datums.new ≡ datums.old ++ data_left closed outcome) }
{
    let Outcome {
        payments,
        state,
        place,
        ..
    } = outcome;
    let datum = Datum { cont: place, state };
    let script = &published.id;
    let gone_on = put_continuing(alloc, outputs, datums, script, closed, datum);
    let (payments, _) = beside(payments, gone_on)?;
    put_due(alloc, outputs, &published.currency, payments.as_slice())
}

// What is left of a bundle that covers another.
fn without(mut all: Bundle, taken: &Bundle) -> Bundle
    requires { covers all taken.now ≡ true }
    ensures { result ≡ minus all taken.now }
{
    match all.subtract(taken) {
        Ok(()) => all,
        Err(_) => unreachable!(),
    }
}

// What is spent and not made, where what is spent covers what is made.
fn rest(alloc: Global, all: Bundle, made: &[Output]) -> Result<Bundle, Memory>
    requires { covers all (sums (λ o. o.amount) made.now) ≡ true }
    ensures { IfOk result (λ rest. rest ≡ minus all (sums (λ o. o.amount) made.now)) }
{
    // touch: amounts are above 0, and there is room for what is spent
    see_all(made);
    see_room(&all);
    let _ = all.entries();
    match sum(alloc, made) {
        Ok(sum) => Ok(without(all, &sum)),
        Err(BundleFault::Memory) => Err(AllocError),
        Err(_) => unreachable!(),
    }
}

/// These outputs, which what is spent covers, and behind them the change.
pub(crate) fn with_change(
    alloc: Global,
    mut outputs: Items<Output>,
    all: Bundle,
    address: &Text,
) -> Result<Items<Output>, Memory>
    requires { covers all (sums (λ o. o.amount) outputs) ≡ true }
    ensures { IfOk result (λ made. made ≡ outputs ++ paid_to address.now (minus all (sums (λ o. o.amount) outputs))) }
{
    let change = rest(alloc, all, outputs.as_slice())?;
    put_paid(&mut outputs, address, change)?;
    Ok(outputs)
}
