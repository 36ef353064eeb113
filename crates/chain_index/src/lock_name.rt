//! Names under which outputs are looked up by their locks.
ghost use Rattle.std.specs.Prelude.{◌≡◌, IfOk};
ghost use Rattle.chain_index.specs.LocksSupport.{name_in, is_named};

use ledger_spec::{Bytes, Lock, Memory, Output, Text, TryClone};

/// What outputs are looked up by: the address of a key, or the currency symbol and the role of a payout.
#[derive(PartialEq, Eq, Hash, Drop)]
pub enum LockName {
    Address(Text),
    Role { currency: Bytes, role: Text },
}

/// The name of a lock, copied; a contract's has none.
pub(crate) fn name_of(lock: &Lock) -> Result<Option<LockName>, Memory>
    ensures { IfOk result (λ name. name ≡ name_in lock.now) }
{
    match lock {
        Lock::Key(address) => Ok(Some(LockName::Address(address.try_clone()?))),
        Lock::Payout { currency, role } => Ok(Some(LockName::Role {
            currency: currency.try_clone()?,
            role: role.try_clone()?,
        })),
        Lock::Contract { .. } => Ok(None),
    }
}

/// The name of the lock of an output, which is used up. Takes no memory.
pub(crate) fn into_name(output: Output) -> Option<LockName>
    ensures { result ≡ name_in output.lock }
{
    let Output {
        lock,
        amount: _amount,
    } = output;
    match lock {
        Lock::Key(address) => Some(LockName::Address(address)),
        Lock::Payout { currency, role } => Some(LockName::Role { currency, role }),
        Lock::Contract { .. } => None,
    }
}

/// Whether a lock has this name.
pub(crate) fn is_named(name: &LockName, lock: &Lock) -> bool
    ensures { result ≡ is_named name.now lock.now }
{
    match (name, lock) {
        (LockName::Address(a), Lock::Key(b)) => *a == *b,
        (
            LockName::Role {
                currency: c,
                role: r,
            },
            Lock::Payout {
                currency: d,
                role: s,
            },
        ) => *c == *d && *r == *s,
        (LockName::Address(_), Lock::Payout { .. }) => false,
        (LockName::Address(_), Lock::Contract { .. }) => false,
        (LockName::Role { .. }, Lock::Key(_)) => false,
        (LockName::Role { .. }, Lock::Contract { .. }) => false,
    }
}
