//! Locks.
ghost use Rattle.std.specs.Prelude.{◌≡◌};
ghost use Rattle.eutxo_types.specs.Parts.{is_key, is_payout, is_contract, contract_in, payout_in};

use contract::{Bytes, Memory, Same, Text, TryClone};
use std::marker::Model;

/// What guards the spending of an output: for a contract its validator and its datum, here by the datum's digest (The
/// Extended UTXO Model, "Extended UTXO model: EUTXO"); keys and payouts are this ledger's own.
#[derive(Drop)]
pub enum Lock {
    /// The signature of this address.
    Key(Text),
    /// The token of this currency symbol that is named as the role, held by another input.
    Payout { currency: Bytes, role: Text },
    /// The published contract with this id, which goes on from the datum with this digest (`datum_hash`).
    Contract { script: [u8; 32], datum: [u8; 32] },
}

/// What a contract lock holds, lent: its script, and the digest of the datum from which the contract goes on.
#[derive(Drop)]
pub struct ContractLock<'a> {
    pub script: &'a [u8; 32],
    pub digest: &'a [u8; 32],
}

impl<'a> Model for ContractLock<'a> {
    ghost use Rattle.eutxo_types.specs.Parts as parts;

    ghost Value = { parts.ContractLock };

    ghost view = { λ a. record { script = a.script.now; digest = a.digest.now } };
}

/// What a payout lock waits for, lent: the token of a currency symbol that is named as a role.
#[derive(Drop)]
pub struct PayoutRole<'a> {
    pub currency: &'a Bytes,
    pub role: &'a Text,
}

impl<'a> Model for PayoutRole<'a> {
    ghost use Rattle.eutxo_types.specs.Parts as parts;

    ghost Value = { parts.PayoutRole };

    ghost view = { λ a. record { currency = a.currency.now; role = a.role.now } };
}

impl Lock {
    /// Whether it is an address's.
    pub fn is_key(&self) -> bool
        ensures { result ≡ is_key self.now }
    {
        match self {
            Lock::Key(_) => true,
            Lock::Payout { .. } => false,
            Lock::Contract { .. } => false,
        }
    }

    /// Whether it is a payout's.
    pub fn is_payout(&self) -> bool
        ensures { result ≡ is_payout self.now }
    {
        match self {
            Lock::Key(_) => false,
            Lock::Payout { .. } => true,
            Lock::Contract { .. } => false,
        }
    }

    /// Whether it is a contract's.
    pub fn is_contract(&self) -> bool
        ensures { result ≡ is_contract self.now }
    {
        match self {
            Lock::Key(_) => false,
            Lock::Payout { .. } => false,
            Lock::Contract { .. } => true,
        }
    }

    /// The script and the digest of a contract lock; of another, none.
    pub fn contract(&self) -> Option<ContractLock<'_>>
        ensures { result ≡ contract_in self.now }
    {
        match self {
            Lock::Key(_) => None,
            Lock::Payout { .. } => None,
            Lock::Contract { script, datum } => Some(ContractLock {
                script,
                digest: datum,
            }),
        }
    }

    /// The role that a payout waits for; of another lock, none.
    pub fn payout(&self) -> Option<PayoutRole<'_>>
        ensures { result ≡ payout_in self.now }
    {
        match self {
            Lock::Key(_) => None,
            Lock::Payout { currency, role } => Some(PayoutRole { currency, role }),
            Lock::Contract { .. } => None,
        }
    }
}

impl TryClone for Lock {
    fn try_clone(&self) -> Result<Lock, Memory> {
        match self {
            Lock::Key(address) => Ok(Lock::Key(address.try_clone()?)),
            Lock::Payout { currency, role } => Ok(Lock::Payout {
                currency: currency.try_clone()?,
                role: role.try_clone()?,
            }),
            Lock::Contract { script, datum } => Ok(Lock::Contract {
                script: *script,
                datum: *datum,
            }),
        }
    }
}

impl Same for Lock {
    fn same(&self, other: &Lock) -> bool {
        match (self, other) {
            (Lock::Key(a), Lock::Key(b)) => a.same(b),
            (
                Lock::Payout {
                    currency: a,
                    role: r,
                },
                Lock::Payout {
                    currency: b,
                    role: s,
                },
            ) => a.same(b) && r.same(s),
            (
                Lock::Contract {
                    script: a,
                    datum: d,
                },
                Lock::Contract {
                    script: b,
                    datum: e,
                },
            ) => *a == *b && *d == *e,
            (Lock::Key(_), Lock::Payout { .. }) => false,
            (Lock::Key(_), Lock::Contract { .. }) => false,
            (Lock::Payout { .. }, Lock::Key(_)) => false,
            (Lock::Payout { .. }, Lock::Contract { .. }) => false,
            (Lock::Contract { .. }, Lock::Key(_)) => false,
            (Lock::Contract { .. }, Lock::Payout { .. }) => false,
        }
    }
}
