//! Members for tools.
ghost use Rattle.std.specs.Prelude.{◌≡◌, IfOk, OnOk, OnErr};
ghost use Rattle.contract.specs.Tree.{contract_tree};
ghost use Rattle.json_write_contracts.specs.Tokens.{Keeps, Puts};
ghost use Rattle.places.specs.Texts.{place_json};
ghost use Rattle.explain_tables.specs.Lines as spec;

use analysis_spec::PathStep;
use contract::{Contract, Memory};
use json::Writer;
use json_members::{Count, put_first};
use json_write_contracts::Term;
use places::{Key, keys_of, put_place_json};
use std::alloc::Global;

/// Where a contract is too deep.
pub(crate) fn deep_member(
    alloc: Global,
    contract: &Contract,
    place: &[PathStep],
) -> Result<Vec<u8>, Memory>
    ensures { IfOk result (λ text. text.items ≡ spec.deep_member (contract_tree contract.now) place.now) }
{
    let keys = keys_of(alloc, contract, place)?;
    let mut out = Vec::new(alloc);
    put_first(alloc, &mut out, "place", &Place(keys.as_slice()))?;
    Ok(out)
}

/// How many nodes it has.
pub(crate) fn nodes_member(alloc: Global, count: u32) -> Result<Vec<u8>, Memory>
    ensures { IfOk result (λ text. text.items ≡ spec.nodes_member count) }
{
    let mut out = Vec::new(alloc);
    put_first(alloc, &mut out, "nodes", &Count(count as usize))?;
    Ok(out)
}

// Keys of a place.
#[derive(Clone, Copy)]
struct Place<'a>(&'a [Key]);

impl<'a> Term for Place<'a> {
    ghost json = { λ place. place_json place.0.now };

    fn put(&self, _alloc: Global, out: &mut Writer) -> Result<(), Memory> {
        put_place_json(out, self.0)
    }
}
