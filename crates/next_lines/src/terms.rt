//! Terms of the JSON: the index of a case, a flag, and why what follows is refused.
ghost use Rattle.std.specs.Prelude.{pos, OnOk, OnErr};
ghost use Rattle.serde_json.specs.Data.{Data, boolean};
ghost use Rattle.json_write_contracts.specs.Tokens.{Keeps, Puts};
ghost use Rattle.json_write_contracts.specs.WrittenNames.{number_json};
ghost use Rattle.next_lines.specs.Json.{refused_json};

use contract::{Memory, SemFault};
use json::Writer;
use json_write_contracts::Term;
use marlowe_refusals::sem_fault_name;
use std::alloc::Global;

/// The index of a case, from 0.
#[derive(Clone, Copy)]
pub(crate) struct Index(pub(crate) usize);

/// Whether something is so.
#[derive(Clone, Copy)]
pub(crate) struct Flag(pub(crate) bool);

/// Why what follows is refused, if it is.
#[derive(Clone, Copy)]
pub(crate) struct Refusal(pub(crate) Option<SemFault>);

impl Term for Index {
    ghost json = { λ index. number_json (pos index.0) };

    fn put(&self, _alloc: Global, out: &mut Writer) -> Result<(), Memory> {
        out.u64(self.0 as u64)
    }
}

impl Term for Flag {
    ghost json = { λ flag. boolean flag.0 };

    fn put(&self, _alloc: Global, out: &mut Writer) -> Result<(), Memory> {
        out.boolean(self.0)
    }
}

impl Term for Refusal {
    ghost json = { λ refusal. refused_json refusal.0 };

    fn put(&self, _alloc: Global, out: &mut Writer) -> Result<(), Memory> {
        match self.0 {
            Some(fault) => out.string(sem_fault_name(fault)),
            None => out.null(),
        }
    }
}
