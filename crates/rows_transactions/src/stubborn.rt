//! A validator beside Marlowe's.
use contract::{Bytes, Input, Memory, Text};
use roles::{Bundle, Datum, Shared, Spent, StepAnswer, StepFault, Tx, Validator};
use std::alloc::Global;
use std::sync::Arc;
use std::sync::atomic::{AtomicU64, Ordering};

/// It refuses each step with WrongContinuation, takes every output for a start, and grants no payout; and it counts how often it is
/// asked. Two of one kind are equal, whatever they count.
#[derive(Drop)]
pub struct Stubborn {
    kind: u64,
    asked: Arc<AtomicU64, Global>,
}

impl Stubborn {
    /// One of a kind that counts here.
    pub fn new(kind: u64, asked: &Arc<AtomicU64, Global>) -> Result<Stubborn, Memory> {
        Ok(Stubborn {
            kind,
            asked: Arc::try_clone(asked)?,
        })
    }

    /// The same, with several owners.
    pub fn shared(
        alloc: Global,
        kind: u64,
        asked: &Arc<AtomicU64, Global>,
    ) -> Result<Shared<Stubborn>, Memory> {
        let stubborn = Stubborn::new(kind, asked)?;
        Ok(Shared::new(Arc::new(alloc, stubborn)?))
    }
}

impl PartialEq for Stubborn {
    ghost use Rattle.std.specs.Prelude.{nat_eq};
    ghost use Rattle.std.specs.Cmp.{partial_equiv_from_equiv, on_per};
    ghost use Rattle.std.proofs.lemmas.Cmp.{nat_eq_equiv};

    ghost eq = { λ x y. nat_eq x.kind y.kind };

    ghost laws = { on_per (λ c. c.kind) (partial_equiv_from_equiv nat_eq_equiv) };

    fn eq(&self, other: &Stubborn) -> bool {
        self.kind == other.kind
    }
}

impl Eq for Stubborn {
    ghost use Rattle.std.specs.Cmp.{on_equiv};
    ghost use Rattle.std.proofs.lemmas.Cmp.{nat_eq_equiv};

    ghost laws = { on_equiv (λ c. c.kind) nat_eq_equiv };
}

impl Validator for Stubborn {
    ghost use Rattle.std.specs.Prelude.{true, false, refl, Some};
    ghost use Rattle.roles.specs.Eutxo.declared.step_fault.StepFault.TheVariants.{WrongContinuation};
    ghost use Rattle.roles.specs.Eutxo.declared.validator.StepAnswer.TheVariants.{Takes};

    ghost judges = { record { step = λ s step. Takes (Some WrongContinuation) true 0; starts = λ s d held. true; claims = λ spent currency role. false } };

    ghost alike = { λ x y e. (λ s. refl, λ d held. refl) };

    fn step(
        &self,
        _alloc: Global,
        _script: &[u8; 32],
        _datum: &Datum,
        _inputs: &[Input],
        _from: usize,
        _tx: &Tx,
        _spent: &[Spent<'_>],
    ) -> Result<StepAnswer, Memory> {
        self.asked.fetch_add(1, Ordering::SeqCst);
        Ok(StepAnswer::Takes {
            fault: Some(StepFault::WrongContinuation),
            goes_on: true,
            payments: 0,
        })
    }

    fn start(&self, _alloc: Global, _datum: &Datum, _amount: &Bundle) -> Result<bool, Memory> {
        self.asked.fetch_add(1, Ordering::SeqCst);
        Ok(true)
    }

    fn claim(_spent: &[Spent<'_>], _currency: &Bytes, _role: &Text) -> bool {
        false
    }
}
