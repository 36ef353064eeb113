//! The inputs of a layout.
ghost use Rattle.std.specs.Prelude.{◌≡◌, ◌++◌, map, IfOk, OnOk};
ghost use Rattle.builder_spec.specs.Laying.{by_key, by_step};

use builder_spec::{Redeemer, Spend, Unspent};
use coin_selection::OwnOutput;
use contract::{Input, Items, Memory, TryClone};
use std::alloc::Global;

fn by_key(unspent: &Unspent) -> Spend
    ensures { result ≡ by_key unspent.now }
{
    Spend {
        reference: unspent.reference,
        redeemer: Redeemer::None,
    }
}

/// The input that spends a thread's output, with a step.
pub(crate) fn by_step(alloc: Global, own: &OwnOutput<'_>, inputs: &[Input]) -> Result<Spend, Memory>
    ensures { IfOk result (λ spend. spend ≡ by_step inputs.now own.now) }
{
    Ok(Spend {
        reference: own.reference,
        redeemer: Redeemer::Step(copies_of(alloc, inputs)?),
    })
}

/// Puts the inputs that spend key outputs behind others.
pub(crate) fn put_keys(spends: &mut Items<Spend>, outputs: &[Unspent]) -> Result<(), Memory>
    ensures { OnOk result (spends.new ≡ spends.old ++ map by_key outputs.now) }
{
    for unspent in outputs {
        spends.push(by_key(unspent))?;
    }
    Ok(())
}

/// The inputs that spend key outputs.
pub(crate) fn key_inputs(alloc: Global, outputs: &[Unspent]) -> Result<Items<Spend>, Memory>
    ensures { IfOk result (λ spends. spends ≡ map by_key outputs.now) }
{
    let mut spends = Items::new(alloc);
    put_keys(&mut spends, outputs)?;
    Ok(spends)
}

/// Copies of all, in order.
pub(crate) fn copies_of<T: TryClone + Drop>(alloc: Global, items: &[T]) -> Result<Items<T>, Memory>
    ensures { IfOk result (λ copies. copies ≡ items.now) }
{
    let mut copies = Items::new(alloc);
    for item in items {
        copies.push(item.try_clone()?)?;
    }
    Ok(copies)
}
