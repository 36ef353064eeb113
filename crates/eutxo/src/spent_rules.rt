//! The rules of what is spent, each one function.
ghost use Rattle.std.specs.Prelude.{◌≡◌, ℕ, position, not, option_map};
ghost use Rattle.eutxo_types.specs.Parts.{is_contract};
ghost use Rattle.eutxo.specs.Rules.{lacks_signer, not_signed, too_many_contracts, opens, wrong_redeemer, lacks_role, role_missing};

use crate::spent::Spent;
use crate::tx_rules::has_signed;
use crate::validator::Validator;
use contract::Text;
use eutxo_types::{Lock, Redeemer, TxFault};

fn lacks_signer(signers: &[Text], lock: &Lock) -> bool
    ensures { result ≡ lacks_signer signers.now lock.now }
{
    match lock {
        Lock::Key(address) => !has_signed(signers, address),
        Lock::Payout { .. } => false,
        Lock::Contract { .. } => false,
    }
}

fn not_signed_index(signers: &[Text], spent: &[Spent<'_>]) -> Option<usize>
    ensures { result ≡ position (λ x. lacks_signer signers.now x.1.lock) spent.now }
{
    spent
        .iter()
        .position(|x| lacks_signer(signers, &x.output().lock))
}

pub fn not_signed(signers: &[Text], spent: &[Spent<'_>]) -> Option<TxFault>
    ensures { result ≡ not_signed signers.now spent.now }
{
    match not_signed_index(signers, spent) {
        Some(i) => Some(TxFault::NotSigned(i as u64)),
        None => None,
    }
}

// How many contracts one transaction may step.
const MOST_CONTRACTS: usize = 8;

pub fn too_many_contracts(spent: &[Spent<'_>]) -> Option<TxFault>
    ensures { result ≡ too_many_contracts spent.now }
{
    let count = spent
        .iter()
        .filter(|x| x.output().lock.is_contract())
        .count();
    if count > MOST_CONTRACTS {
        Some(TxFault::TooManyContracts)
    } else {
        None
    }
}

fn opens(redeemer: &Redeemer, lock: &Lock) -> bool
    ensures { result ≡ opens redeemer.now lock.now }
{
    match (redeemer, lock) {
        (Redeemer::None, Lock::Key(_)) => true,
        (Redeemer::Claim, Lock::Payout { .. }) => true,
        (Redeemer::Step(_), Lock::Contract { .. }) => true,
        _ => false,
    }
}

fn wrong_redeemer_index(spent: &[Spent<'_>]) -> Option<usize>
    ensures { result ≡ position (λ x. not (opens x.0.redeemer x.1.lock)) spent.now }
{
    spent
        .iter()
        .position(|x| !opens(&x.spend().redeemer, &x.output().lock))
}

pub fn wrong_redeemer(spent: &[Spent<'_>]) -> Option<TxFault>
    ensures { result ≡ wrong_redeemer spent.now }
{
    match wrong_redeemer_index(spent) {
        Some(i) => Some(TxFault::WrongRedeemer(i as u64)),
        None => None,
    }
}

fn lacks_role<V: Validator>(spent: &[Spent<'_>], lock: &Lock) -> bool
    ensures { result ≡ lacks_role (V.judges.claims spent.now) lock.now }
{
    match lock.payout() {
        None => false,
        Some(payout) => !V::claim(spent, payout.currency, payout.role),
    }
}

fn role_missing_index<V: Validator>(spent: &[Spent<'_>]) -> Option<usize>
    ensures { result ≡ position (λ x. lacks_role (V.judges.claims spent.now) x.1.lock) spent.now }
{
    spent
        .iter()
        .position(|x| lacks_role::<V>(spent, &x.output().lock))
}

pub fn role_missing<V: Validator>(spent: &[Spent<'_>]) -> Option<TxFault>
    ensures { result ≡ role_missing V.judges spent.now }
{
    match role_missing_index::<V>(spent) {
        Some(i) => Some(TxFault::RoleMissing(i as u64)),
        None => None,
    }
}
