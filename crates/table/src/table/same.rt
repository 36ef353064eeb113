//! Copies of tables, whether two are the same, and what they feed a hasher.
ghost use Rattle.std.specs.Prelude.{◌≡◌, ◌↔◌, IsTrue, IfOk};

use crate::table::Table;
use contract::{Memory, Same, TryClone};
use std::hash::{Hash, Hasher};

impl TryClone for Table {
    fn try_clone(&self) -> Result<Table, Memory> {
        let values = copies_of(&self.values)?;
        let observations = copies_of(&self.observations)?;
        let cases = copies_of(&self.cases)?;
        let conts = copies_of(&self.conts)?;
        Ok(Table {
            values,
            observations,
            cases,
            conts,
        })
    }
}

fn copies_of<T: TryClone + Drop>(items: &Vec<T>) -> Result<Vec<T>, Memory>
    ensures { IfOk result (λ copies. copies.items ≡ items.now.items) }
{
    let mut copies = Vec::with_capacity(*items.allocator(), items.len())?;
    for item in items {
        copies.push(item.try_clone()?)?;
    }
    Ok(copies)
}

impl Same for Table {
    #[tactic(auto, using(crate::proofs::SameFlat::same_flat))]
    fn same(&self, other: &Table) -> bool {
        same_values(self, other)
            && same_observations(self, other)
            && same_cases(self, other)
            && same_conts(self, other)
    }
}

fn same_values(a: &Table, b: &Table) -> bool
    ensures { IsTrue result ↔ (a.now.values ≡ b.now.values) }
{
    same_all(&a.values, &b.values)
}

fn same_observations(a: &Table, b: &Table) -> bool
    ensures { IsTrue result ↔ (a.now.observations ≡ b.now.observations) }
{
    same_all(&a.observations, &b.observations)
}

fn same_cases(a: &Table, b: &Table) -> bool
    ensures { IsTrue result ↔ (a.now.cases ≡ b.now.cases) }
{
    same_all(&a.cases, &b.cases)
}

fn same_conts(a: &Table, b: &Table) -> bool
    ensures { IsTrue result ↔ (a.now.conts ≡ b.now.conts) }
{
    same_all(&a.conts, &b.conts)
}

fn same_all<T: Same>(xs: &[T], ys: &[T]) -> bool
    ensures { IsTrue result ↔ (xs.now ≡ ys.now) }
{
    if xs.len() != ys.len() {
        return false;
    }
    for i in 0..xs.len() {
        if !xs[i].same(&ys[i]) {
            return false;
        }
    }
    true
}

impl PartialEq for Table {
    ghost use Rattle.contract.specs.Collections.Same.{same_by};
    ghost use Rattle.contract.proofs.FromCollections.SameLaws.{same_by-partial};
    ghost use Rattle.table.specs.contracts.table.Table as it;

    ghost eq = { same_by it.the_row.coded };

    ghost laws = { same_by-partial it.the_row.coded };

    fn eq(&self, other: &Table) -> bool {
        self.same(other)
    }
}

impl Eq for Table {
    ghost use Rattle.contract.proofs.FromCollections.SameLaws.{same_by-equiv};
    ghost use Rattle.table.specs.contracts.table.Table as it;

    ghost laws = { same_by-equiv it.the_row.coded };
}

impl Hash for Table {
    ghost use Rattle.std.specs.Hash.{same_Alike};
    ghost use Rattle.contract.proofs.FromCollections.SameLaws.{same_by_decides};
    ghost use Rattle.table.specs.contracts.table.Table as it;
    ghost use Rattle.table.specs.Hashing.{flat_writes};

    ghost hash_input = { flat_writes };

    ghost respects_eq = { (same_Alike flat_writes (same_by_decides it.the_row.coded)).fed };

    fn hash<H: Hasher>(&self, hasher: &mut H) {
        self.values.hash(hasher);
        self.observations.hash(hasher);
        self.cases.hash(hasher);
        self.conts.hash(hasher);
    }
}
