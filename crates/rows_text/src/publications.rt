//! What is published, by name.
use crate::carried::both;
use crate::fault::RowFault;
use crate::identified::Identified;
use crate::known::Known;
use crate::words::{bytes, parts};
use contract::{Bytes, Contract, Memory, TryClone};
use contract_json::{JsonFault, read_contract};
use roles::{CompileFault, Cont, Published, Shared, publish};
use std::alloc::Global;
use std::sync::Arc;

/// A published contract, under the name that the rows give it.
pub struct Named {
    name: String,
    published: Shared<Published>,
}

// Dropped once: the drop is written, not derived.
impl Drop for Named {
    fn drop(self) {
        let Named {
            name: _,
            published: _,
        } = self;
    }
}

impl Identified for Named {
    fn name(&self) -> &str {
        self.name.as_str()
    }

    fn id(&self) -> [u8; 32] {
        self.published().id
    }
}

impl Named {
    /// What is published.
    pub fn published(&self) -> &Published {
        self.published.get()
    }

    /// The number of its root.
    pub fn root(&self) -> Cont {
        self.published().root
    }

    /// Its validator, owned once more.
    pub fn shared(&self) -> Result<Shared<Published>, Memory> {
        self.published.try_clone()
    }
}

/// Publishes, from `NAME CURRENCY CONTRACT`.
pub fn named_of(alloc: Global, known: &Known, rest: &str) -> Result<Named, RowFault> {
    let (name, rest) = parts(rest)?;
    let (currency, contract) = parts(rest)?;
    let contract = known.text_of(contract)?;
    let currency = bytes(alloc, currency)?;
    let published = published_of(alloc, read_contract(alloc, contract.as_bytes()), currency);
    let (name, published) = both(name_of(alloc, name), shared_of(alloc, published))?;
    Ok(Named { name, published })
}

fn name_of(alloc: Global, name: &str) -> Result<String, RowFault> {
    Ok(String::from_str(alloc, name)?)
}

// It is generic in what is shared, so that no proof walks through its drop.
fn shared_of<P: Drop>(
    alloc: Global,
    published: Result<P, RowFault>,
) -> Result<Shared<P>, RowFault> {
    let published = Arc::new(alloc, published?)?;
    Ok(Shared::new(published))
}

// What can be published. Dropped once: who owns it is generic in it, so that no proof walks through its drop.
trait Publishes: Drop {
    fn publish(&self, alloc: Global, currency: Bytes) -> Result<Published, CompileFault>;
}

impl Publishes for Contract {
    fn publish(&self, alloc: Global, currency: Bytes) -> Result<Published, CompileFault> {
        publish(alloc, self, currency)
    }
}

fn published_of<C: Publishes>(
    alloc: Global,
    contract: Result<C, JsonFault>,
    currency: Bytes,
) -> Result<Published, RowFault> {
    let contract = contract?;
    Ok(contract.publish(alloc, currency)?)
}
