//! What is found of what a transaction names.
ghost use Rattle.std.specs.Prelude.{◌≡◌, ◌++◌, IfOk, OnOk, map};
ghost use Rattle.roles.specs.Eutxo.Judgement.{with_script, made_names, found_names, scripts_found, outputs_found, found};
ghost use Rattle.roles.specs.EutxoTypes.Parts.{script_in};
ghost use Rattle.ledger.specs.ResolveSupport.{script_of, with_named};

use crate::ledger::Resolves;
use contract::{Items, Memory, TryClone};
use roles::{Output, Resolved, Scripts, Spend, Tx, copy_option};
use std::alloc::Global;

// For each input the unspent output that it names, or `None`.
pub(crate) fn outputs_found<V, L: Resolves<V>>(
    alloc: Global,
    ledger: &L,
    inputs: &[Spend],
) -> Result<Items<Option<Output>>, Memory>
    ensures { IfOk result (λ outputs. outputs ≡ map (λ x. (L.moment ledger.now).unspent x.reference) inputs.now) }
{
    let mut outputs = Items::new(alloc);
    for x in inputs {
        outputs.push(copy_option(ledger.unspent_at(&x.reference))?)?;
    }
    Ok(outputs)
}

fn put_script<V: Drop, L: Resolves<V>>(
    ledger: &L,
    script: &[u8; 32],
    scripts: &mut Scripts<V>,
) -> Result<(), Memory>
    ensures { OnOk result (scripts.new ≡ with_script script.now ((L.moment ledger.now).published script.now) scripts.old) }
{
    match ledger.published_at(script) {
        Some(object) => scripts.insert(*script, object.try_clone()?),
        None => Ok(()),
    }
}

// Puts the script that an output names, where it is published.
fn put_named<V: Drop, L: Resolves<V>>(
    ledger: &L,
    output: &Output,
    scripts: &mut Scripts<V>,
) -> Result<(), Memory>
    ensures { OnOk result (scripts.new ≡ with_named (L.moment ledger.now).published (script_in output.now.lock) scripts.old) }
{
    match output.lock.contract() {
        Some(lock) => put_script(ledger, lock.script, scripts),
        None => Ok(()),
    }
}

fn put_found<V: Drop, L: Resolves<V>>(
    ledger: &L,
    output: &Option<Output>,
    scripts: &mut Scripts<V>,
) -> Result<(), Memory>
    ensures { OnOk result (scripts.new ≡ with_named (L.moment ledger.now).published (script_of output.now) scripts.old) }
{
    match output {
        Some(output) => put_named(ledger, output, scripts),
        None => Ok(()),
    }
}

// The scripts that these outputs name, as far as they are published.
fn scripts_found<V: Drop, L: Resolves<V>>(
    alloc: Global,
    ledger: &L,
    outputs: &[Option<Output>],
) -> Result<Scripts<V>, Memory>
    ensures { IfOk result (λ scripts. scripts ≡ scripts_found (L.moment ledger.now).published (found_names outputs.now)) }
{
    let mut scripts = Scripts::new(alloc);
    for i in (0..outputs.len()).rev() {
        put_found(ledger, &outputs[i], &mut scripts)?;
    }
    Ok(scripts)
}

// .. and those that made outputs name.
fn put_made<V: Drop, L: Resolves<V>>(
    ledger: &L,
    outputs: &[Output],
    found: &[Option<Output>],
    scripts: &mut Scripts<V>,
) -> Result<(), Memory>
    requires { scripts.old ≡ scripts_found (L.moment ledger.now).published (found_names found.now) }
    ensures { OnOk result (scripts.new ≡ scripts_found (L.moment ledger.now).published (made_names outputs.now ++ found_names found.now)) }
{
    for i in (0..outputs.len()).rev() {
        put_named(ledger, &outputs[i], scripts)?;
    }
    Ok(())
}

// What is found of what a transaction names, where these outputs were found of its inputs.
pub(crate) fn with_scripts<V: Drop, L: Resolves<V>>(
    alloc: Global,
    ledger: &L,
    tx: &Tx,
    outputs: Items<Option<Output>>,
) -> Result<Resolved<V>, Memory>
    requires { outputs ≡ outputs_found (L.moment ledger.now) tx.now }
    ensures { IfOk result (λ resolved. resolved ≡ found (L.moment ledger.now) tx.now) }
{
    let mut scripts = scripts_found(alloc, ledger, outputs.as_slice())?;
    put_made(
        ledger,
        tx.outputs.as_slice(),
        outputs.as_slice(),
        &mut scripts,
    )?;
    Ok(Resolved { outputs, scripts })
}

/// What is found of what a transaction names: for each input the unspent output, where there is one, and of
/// the scripts that the transaction's outputs and those unspent outputs name the ones that are published.
/// Answers `Memory` only where a growth was refused.
pub fn resolve<V: Drop, L: Resolves<V>>(
    alloc: Global,
    ledger: &L,
    tx: &Tx,
) -> Result<Resolved<V>, Memory>
    ensures { IfOk result (λ resolved. resolved ≡ found (L.moment ledger.now) tx.now) }
{
    let outputs = outputs_found(alloc, ledger, tx.inputs.as_slice())?;
    with_scripts(alloc, ledger, tx, outputs)
}
