//! A script that isn't Marlowe's.
ghost use Rattle.std.specs.Prelude.{◌≡◌, IfOk};
ghost use Rattle.chain.specs.LedgerSpec.Eutxo.Local.{local, verdict_of};
ghost use Rattle.uses.specs.Resolutions.{resolution_of};
ghost use Rattle.uses.specs.TimeLocks.{time_locks, KeepsTheLock};

use chain::{
    Bundle, Datum, Output, Resolved, Scripts, Shared, Spent, StepAnswer, StepFault, Tx, Validator,
    Verdict, check, has_signed,
};
use contract::{Bytes, Input, Items, Memory, Party, Same, Text, TryClone};
use std::alloc::Global;
use std::sync::Arc;

/// A time lock: an output under it can be spent from a time on, in POSIX milliseconds, by its owner's signature. It
/// starts with any amount and datum, goes on with nothing, and grants no payouts.
#[derive(PartialEq, Eq, Drop)]
pub struct TimeLock {
    pub owner: Text,
    pub from: i64,
}

/// It judges a step by its owner's signature and the start of the transaction's interval.
impl Validator for TimeLock {
    ghost use Rattle.std.specs.Prelude.{refl};
    ghost use Rattle.uses.specs.TimeLocks.{time_locks};
    ghost use Rattle.uses.specs.TimeLocksSupport.{answers_alike};

    ghost judges = { time_locks };

    ghost alike = { λ x y e. (answers_alike x y e, λ d held. refl) };

    fn step(
        &self,
        _alloc: Global,
        _script: &[u8; 32],
        _datum: &Datum,
        _inputs: &[Input],
        _from: usize,
        tx: &Tx,
        _spent: &[Spent<'_>],
    ) -> Result<StepAnswer, Memory> {
        let opens = has_signed(tx.signers.as_slice(), &self.owner) && self.from <= tx.interval.from;
        let fault = if opens {
            None
        } else {
            Some(StepFault::NotAuthorised(Party::Address(self.owner.try_clone()?)))
        };
        Ok(StepAnswer::Takes {
            fault,
            goes_on: false,
            payments: 0,
        })
    }

    fn start(&self, _alloc: Global, _datum: &Datum, _amount: &Bundle) -> Result<bool, Memory> {
        Ok(true)
    }

    fn claim(_spent: &[Spent<'_>], _currency: &Bytes, _role: &Text) -> bool {
        false
    }
}

/// Judges one transaction on the outputs that its inputs spend, in order, and on a time lock under an id. The verdict
/// is that of the rules which these decide, with the lock's own answer among them. So what is accepted and spends an
/// output under the lock, and nothing of it is missing, is signed by the owner and starts no earlier than the lock
/// opens.
pub fn check_lock(
    alloc: Global,
    tx: &Tx,
    outputs: Items<Option<Output>>,
    id: [u8; 32],
    lock: TimeLock,
) -> Result<Verdict, Memory>
    ensures verdict { IfOk result (λ verdict. verdict
        ≡ verdict_of (local time_locks tx.now (resolution_of outputs id lock))) }
    ensures keeps { IfOk result (λ verdict. KeepsTheLock id lock tx.now outputs verdict) }
{
    let shared = Shared::new(Arc::new(alloc, lock)?);
    let mut scripts = Scripts::new(alloc);
    scripts.insert(id, shared)?;
    let checked = check(alloc, tx, Resolved { outputs, scripts })?;
    let verdict = checked.verdict().try_clone()?;
    Ok(verdict)
}
