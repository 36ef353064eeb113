//! The contracts that are named.
ghost use Rattle.std.specs.Prelude.{◌≡◌, [], true, false, OnOk, OnErr, Err, IfSome, option_map, Some, None};
ghost use Rattle.contract.specs.Tree.{contract_tree};
ghost use Rattle.json_write_contracts.specs.WrittenContract.{contract_fits};
ghost use Rattle.definitions.specs.Named.{named, put_named, without_named, has_room, is_there};
ghost use Rattle.definitions.specs.NamedSupport.{place_of};
ghost use Rattle.definitions.specs.declared.definitions.DefineFault.TheVariants as faults;

use crate::definition::Definition;
use contract::Contract;
use std::alloc::{AllocFailed, Global};
use std::marker::Model;
use std::mem;

/// The greatest number of contracts that are named.
pub const MOST: usize = 1_000;

/// The greatest number of bytes of all their texts together: 256 MiB.
pub const MOST_BYTES: usize = 268_435_456;

/// Why a contract isn't named. Nothing is changed then.
#[derive(Clone, Copy, Debug, PartialEq, Eq)]
pub enum DefineFault {
    /// There would be more than 1,000, or their texts would have more than 256 MiB together.
    Full = 1,
    /// Memory was refused.
    Memory = 2,
}

impl<T: Drop> From<AllocFailed<T>> for DefineFault {
    ghost from_gives = { λ _ fault. fault ≡ faults.Memory };

    fn from(_error: AllocFailed<T>) -> DefineFault {
        DefineFault::Memory
    }
}

/// Contracts by their names: at most 1,000, whose texts have at most 256 MiB together. Clauses see the list of them, in the order in
/// which their names came.
#[derive(Drop)]
pub struct Definitions {
    items: Vec<Definition>,
    // The bytes of all texts together.
    bytes: usize,
}

impl Model for Definitions {
    ghost use Rattle.std.specs.Prelude.{◌≡◌, List, true};
    ghost use Rattle.definitions.specs.declared.definition.Definition.{Definition};
    ghost use Rattle.std.specs.Coded.{codes};
    ghost use Rattle.definitions.specs.contracts.definition.Definition as one;
    ghost use Rattle.definitions.specs.Named.{bytes_of, has_room};

    ghost Value = { List Definition };

    ghost coded = { Prim.hlevel (codes, one.the_row.coded) };

    ghost view = { λ a. a.items.items };

    ghost invariant = { λ a. (a.bytes ≡ bytes_of a.items.items) × (has_room a.items.items ≡ true) };
}

impl Definitions {
    /// No contract is named yet.
    pub fn new(alloc: Global) -> Definitions
        ensures { result ≡ [] }
    {
        Definitions {
            items: Vec::new(alloc),
            bytes: 0,
        }
    }

    /// The contract of a name, where there is one. It can be written.
    #[tactic(auto, using(crate::proofs::NamedLemmas::named_steps))]
    pub fn contract(&self, name: &str) -> Option<&Contract>
        ensures named { option_map (λ contract. contract.now) result ≡ named name.now self.now }
        ensures fits { IfSome result (λ contract. contract_fits (contract_tree contract.now) ≡ true) }
    {
        match place(&self.items, name) {
            Some(place) => Some(&self.items[place].contract),
            None => None,
        }
    }

    /// Names a contract: of a name that was there it takes the place of the contract before.
    pub fn define(&mut self, definition: Definition) -> Result<(), DefineFault>
        ensures ok { OnOk result ((self.new ≡ put_named definition self.old) × (has_room (put_named definition self.old) ≡ true)) }
        ensures full { result ≡ Err DefineFault.Full → has_room (put_named definition self.old) ≡ false }
        ensures err { OnErr result (self.new ≡ self.old) }
    {
        match place(&self.items, definition.name.as_str()) {
            Some(place) => self.replace(place, definition),
            None => self.add(definition),
        }
    }

    // A contract takes the place of another.
    #[tactic(auto, using(crate::proofs::NamedLemmas::named_steps))]
    fn replace(&mut self, place: usize, definition: Definition) -> Result<(), DefineFault>
        requires { place_of definition.name self.old ≡ Some place }
        ensures ok { OnOk result ((self.new ≡ put_named definition self.old) × (has_room (put_named definition self.old) ≡ true)) }
        ensures full { result ≡ Err DefineFault.Full → has_room (put_named definition self.old) ≡ false }
        ensures err { OnErr result (self.new ≡ self.old) }
    {
        let others = self.bytes - self.items[place].bytes;
        if definition.bytes > MOST_BYTES - others {
            return Err(DefineFault::Full);
        }
        self.bytes = others + definition.bytes;
        drop(mem::replace(&mut self.items[place], definition));
        Ok(())
    }

    // A contract comes behind the others.
    #[tactic(auto, using(crate::proofs::NamedLemmas::named_steps))]
    fn add(&mut self, definition: Definition) -> Result<(), DefineFault>
        requires { place_of definition.name self.old ≡ None }
        ensures ok { OnOk result ((self.new ≡ put_named definition self.old) × (has_room (put_named definition self.old) ≡ true)) }
        ensures full { result ≡ Err DefineFault.Full → has_room (put_named definition self.old) ≡ false }
        ensures err { OnErr result (self.new ≡ self.old) }
    {
        if self.items.as_slice().len() == MOST || definition.bytes > MOST_BYTES - self.bytes {
            return Err(DefineFault::Full);
        }
        let bytes = definition.bytes;
        self.items.push(definition)?;
        self.bytes += bytes;
        Ok(())
    }

    /// Takes a contract out by its name, where there is one, and tells whether there was.
    #[tactic(auto, using(crate::proofs::NamedLemmas::named_steps))]
    pub fn forget(&mut self, name: &str) -> bool
        ensures forgotten { self.new ≡ without_named name.now self.old }
        ensures was { result ≡ is_there name.now self.old }
    {
        match place(&self.items, name) {
            Some(place) => {
                let definition = self.items.remove(place);
                self.bytes -= definition.bytes;
                drop(definition);
                true
            }
            None => false,
        }
    }
}

// The place of a name.
fn place(items: &[Definition], name: &str) -> Option<usize>
    ensures { result ≡ place_of name.now items.now }
{
    for place in 0..items.len() {
        if items[place].name.as_str() == name {
            return Some(place);
        }
    }
    None
}
