//! Checked transactions.
ghost use Rattle.std.specs.Prelude.{◌≡◌, ◌↔◌, IsTrue, IfOk};
ghost use Rattle.eutxo_types.specs.Ids.{id_of};
ghost use Rattle.eutxo.specs.Local.{verdict_of};
ghost use Rattle.eutxo.specs.Checks.{check_of, IsCheck, IsOf};

use crate::judged::Judged;
use crate::local::judge_local;
use crate::places::Places;
use crate::resolved::Resolved;
use crate::validator::Validator;
use contract::{Memory, Same, TryClone};
use eutxo_types::{Tx, TxFault, Verdict, tx_id};
use std::alloc::Global;
use std::marker::Model;

/// A transaction with its id, its resolution, the verdict of rules 1 to 3 and 8 to 19 on these two, and where these
/// rules refuse nothing, the places in which its contracts go on: that all belong together is known of every value.
/// It is made by `check` alone.
#[derive(Drop)]
pub struct Checked<V: Validator> {
    tx: Tx,
    id: [u8; 32],
    found: Resolved<V>,
    verdict: Verdict,
    places: Places,
}

impl<V: Validator> Model for Checked<V> {
    ghost use Rattle.std.specs.Coded.{codes};
    ghost use Rattle.contract.specs.States.contracts.state.State as states;
    ghost use Rattle.eutxo_types.specs.Bundle.contracts.bundle.Bundle as bundles;
    ghost use Rattle.std.specs.FinMap.{code};
    ghost use Rattle.std.specs.Coded.{coded_list, coded_ℕ};
    ghost use Rattle.contract.specs.Names.Orders.{bytes_cmp};
    ghost use Rattle.eutxo.specs.Checks.{CheckOf, IsCheck};

    ghost Value = { CheckOf V };

    ghost coded = { Prim.hlevel (codes, states.the_row.coded, bundles.the_row.coded, code {R = bytes_cmp} (coded_list coded_ℕ) V.code) };

    ghost view = { λ a. record { tx = a.tx; id = a.id; found = a.found; verdict = a.verdict; places = a.places } };

    ghost invariant = { λ a. IsCheck V.judges (record { tx = a.tx; id = a.id; found = a.found; verdict = a.verdict; places = a.places }) };
}

/// The verdict by the fault of the first rule that refuses, if one does.
pub fn verdict_of(fault: Option<TxFault>) -> Verdict
    ensures { result ≡ verdict_of fault }
{
    match fault {
        Some(fault) => Verdict::Refused(fault),
        None => Verdict::Accepted,
    }
}

/// Judges a transaction by rules 1 to 3 and, where nothing is missing in its resolution, 8 to 19, and keeps
/// it with its id, the resolution and the verdict: that of the lowest rule that refuses, or Accepted, and then with the
/// places in which its contracts go on. The answer depends on the transaction and the resolution alone. `Memory` says
/// nothing of either: a growth was refused.
pub fn check<V: Validator + Drop>(
    alloc: Global,
    tx: &Tx,
    found: Resolved<V>,
) -> Result<Checked<V>, Memory>
    ensures { IfOk result (λ c. c ≡ check_of V.judges tx.now found) }
{
    let tx = tx.try_clone()?;
    check_owned(alloc, tx, found)
}

/// The same for a transaction that is handed over: it is kept without a copy. So a worker who checks what another
/// thread has made frees nothing of it.
pub fn check_owned<V: Validator + Drop>(
    alloc: Global,
    tx: Tx,
    found: Resolved<V>,
) -> Result<Checked<V>, Memory>
    ensures { IfOk result (λ c. c ≡ check_of V.judges tx found) }
{
    let id = tx_id(alloc, &tx)?;
    let Judged { fault, places } = judge_local(alloc, &tx, &found)?;
    Ok(Checked {
        tx,
        id,
        found,
        verdict: verdict_of(fault),
        places,
    })
}

impl<V: Validator + Drop> TryClone for Checked<V> {
    fn try_clone(&self) -> Result<Checked<V>, Memory> {
        let tx = self.tx.try_clone()?;
        let found = self.found.try_clone()?;
        let verdict = self.verdict.try_clone()?;
        Ok(Checked {
            tx,
            id: self.id,
            found,
            verdict,
            places: self.places.copy(),
        })
    }
}

impl<V: Validator + Same> Same for Checked<V> {
    fn same(&self, other: &Checked<V>) -> bool {
        self.tx.same(&other.tx) && self.found.same(&other.found)
    }
}

impl<V: Validator> Checked<V> {
    /// The transaction.
    pub fn tx(&self) -> &Tx
        ensures { result.now ≡ self.now.tx }
    {
        &self.tx
    }

    /// Its id: the SHA-256 of its spelling, which was made once, where it was checked.
    pub fn id(&self) -> &[u8; 32]
        ensures kept { result.now ≡ self.now.id }
        ensures id { result.now ≡ id_of self.now.tx }
    {
        &self.id
    }

    /// Its resolution, as it was handed in.
    pub fn found(&self) -> &Resolved<V>
        ensures { result.now ≡ self.now.found }
    {
        &self.found
    }

    /// Whether it is of this transaction, with an equal resolution. Then its verdict is that of the two. It takes no
    /// memory.
    pub fn is_of(&self, tx: &Tx, found: &Resolved<V>) -> bool
        ensures { IsTrue result ↔ IsOf V.eq tx.now found.now self.now }
    {
        self.tx.same(tx) && self.found.equals(found)
    }

    /// The verdict of the rules that the transaction and the resolution decide.
    pub fn verdict(&self) -> &Verdict
        ensures verdict { result.now ≡ self.now.verdict }
        ensures whole { IsCheck V.judges self.now }
    {
        &self.verdict
    }

    /// Where the verdict is Accepted and nothing is missing in the resolution, the places in which the transaction's
    /// contracts go on; else there are none.
    pub fn places(&self) -> &Places
        ensures { result.now ≡ self.now.places }
    {
        &self.places
    }

    /// The transaction, by value: what was checked is given back.
    pub fn into_tx(self) -> Tx
    where
        V: Drop,
        ensures { result ≡ self.tx }
    {
        let Checked { tx, .. } = self;
        tx
    }
}
