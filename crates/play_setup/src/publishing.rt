//! The contracts of a setup, published.
ghost use Rattle.std.specs.Prelude.{◌≡◌, [], ◌∷◌, true, map, None, IfOk, OnOk};
ghost use Rattle.contract.specs.Tree.{contract_tree};
ghost use Rattle.parties.specs.LedgerSpec.Compiler.Limits.{compile_fault};
ghost use Rattle.play_setup.specs.SetUp.{object_of, publishes};
ghost use Rattle.play_setup.specs.SetUpSupport.{WentOn};

use crate::fault::SetupFault;
use crate::refusals::{contract_in_use, contract_refused};
use contract::{Memory, TryClone};
use parties::{Call, Hub, NamedContract, Published, Reply, Seat, Session, Watch, publish};
use std::alloc::Global;
use std::sync::Wait;

/// Publishes the contracts in order: as they are published, in the same order.
pub(crate) fn publish_all<R: Wait, J: Session, W: Watch>(
    rt: &R,
    alloc: Global,
    hub: &Hub<J>,
    seat: &mut Seat<J>,
    watch: &W,
    contracts: &[NamedContract],
) -> Result<Vec<Published>, SetupFault>
    ensures objects { IfOk result (λ objects. objects.items ≡ map object_of contracts.now) }
    ensures seat { OnOk result (WentOn seat.old seat.new (map publishes contracts.now)) }
{
    let mut published = Vec::new(alloc);
    for contract in contracts {
        published.push(publish_one(rt, alloc, hub, seat, watch, contract)?)?;
    }
    Ok(published)
}

fn publish_one<R: Wait, J: Session, W: Watch>(
    rt: &R,
    alloc: Global,
    hub: &Hub<J>,
    seat: &mut Seat<J>,
    watch: &W,
    named: &NamedContract,
) -> Result<Published, SetupFault>
    ensures object { IfOk result (λ object. object ≡ object_of named.now) }
    ensures seat { OnOk result (WentOn seat.old seat.new (publishes named.now ∷ [])) }
{
    let published = match publish(alloc, &named.contract, named.currency.try_clone()?) {
        Ok(published) => published,
        Err(fault) => return Err(contract_refused(alloc, &named.name, fault)),
    };
    if is_published(rt, alloc, hub, seat, watch, named)? {
        Ok(published)
    } else {
        Err(contract_in_use(alloc, &named.name))
    }
}

// Publishes a contract that is compiled. Whether nothing else has its id.
fn is_published<R: Wait, J: Session, W: Watch>(
    rt: &R,
    alloc: Global,
    hub: &Hub<J>,
    seat: &mut Seat<J>,
    watch: &W,
    named: &NamedContract,
) -> Result<bool, Memory>
    requires { compile_fault (contract_tree named.now.contract) ≡ None }
    ensures { IfOk result (λ is. is ≡ true → WentOn seat.old seat.new (publishes named.now ∷ [])) }
{
    // dropped once: the contract is copied last, so no fault after it drops a tree
    let currency = named.currency.try_clone()?;
    let contract = named.contract.try_clone()?;
    let call = Call::Publish { contract, currency };
    let receipt = hub.call(rt, alloc, seat, call)?;
    watch.answered();
    match receipt.reply() {
        Reply::Published(_) => Ok(true),
        Reply::IdInUse => Ok(false),
        _ => unreachable!(),
    }
}
