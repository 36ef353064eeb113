//! The outputs that a step owes: the one in which the contract goes on, and those that are due for its payments. Here
//! they are made, for who builds a step, and told from others, for who judges one, by the same definitions.
ghost use Rattle.std.specs.Prelude.{◌≡◌, ◌+◌, ◌++◌, ◌<ℤ◌, ◌↔◌, pos, ℕ, List, length, IsTrue, IfOk, OnOk, OnErr, drop, option_copied};
ghost use Rattle.eutxo.specs.ContractBytes.Writing.{AppendsFront};
ghost use Rattle.roles.specs.Sums.{sums_of};
ghost use Rattle.roles.specs.Steps.{same_output, same_datum, is_instance, holds_just, continuation, goes_on_in, lock_for, owed_output, due_to, due_outputs, first_unpaid};

use crate::amounts::{holds_sums, is_only, only};
use contract::{Bytes, Items, Memory, Party, Payee, Payment, Same, State, TryClone};
use eutxo::{Bundle, Cont, Datum, Instance, Lock, Output, Tx, datum_hash};
use std::alloc::Global;

/// The output in which a contract goes on from a datum, with the datum's digest and the sums of its accounts. Answers
/// `Memory` only where a growth was refused.
pub fn continuation(
    alloc: Global,
    script: &[u8; 32],
    datum: &Datum,
    sums: Bundle,
) -> Result<Output, Memory>
    requires { sums ≡ sums_of datum.now.state }
    ensures { IfOk result (λ output. output ≡ continuation script.now datum.now) }
{
    let digest = datum_hash(alloc, datum)?;
    let lock = Lock::Contract {
        script: *script,
        datum: digest,
    };
    Ok(Output { lock, amount: sums })
}

// Whether a contract is one of a script, at a number and a state.
fn is_instance(script: &[u8; 32], there: Cont, state: &State, made: Option<Instance<'_>>) -> bool
    ensures { result ≡ is_instance script.now (record { cont = there; state = state.now }) made.entry }
{
    match made {
        Some(c) => *c.script == *script && same_datum(c.datum, there, state),
        None => false,
    }
}

fn same_datum(datum: &Datum, there: Cont, state: &State) -> bool
    ensures { result ≡ same_datum datum.now (record { cont = there; state = state.now }) }
{
    is_datum(datum, there, state)
}

fn is_datum(datum: &Datum, there: Cont, state: &State) -> bool
    ensures { IsTrue result ↔ (datum.now ≡ (record { cont = there; state = state.now })) }
{
    datum.cont.same(&there) && datum.state.same(state)
}

fn holds_just(alloc: Global, state: &State, output: Option<&Output>) -> Result<bool, Memory>
    ensures { IfOk result (λ answer. answer ≡ holds_just (sums_of state.now) (option_copied output.entry)) }
{
    match output {
        Some(output) => holds_sums(alloc, &output.amount, state),
        None => Ok(false),
    }
}

/// Whether a contract goes on from a number, in a state, in the output at a place: by the datum that is brought for it,
/// not by its digest.
pub fn goes_on_in(
    alloc: Global,
    tx: &Tx,
    place: usize,
    script: &[u8; 32],
    there: Cont,
    state: &State,
) -> Result<bool, Memory>
    ensures { IfOk result (λ answer. answer ≡ goes_on_in tx.now place script.now (record { cont = there; state = state.now })) }
{
    if is_instance(script, there, state, tx.contract_at(place as u64)) {
        holds_just(alloc, state, tx.outputs.as_slice().get(place))
    } else {
        Ok(false)
    }
}

// What is owed to a party is under its key, or for whoever holds its role's token.
fn lock_for(currency: &Bytes, party: &Party) -> Result<Lock, Memory>
    ensures { IfOk result (λ lock. lock ≡ lock_for currency.now party.now) }
{
    match party {
        Party::Address(address) => Ok(Lock::Key(address.try_clone()?)),
        Party::Role(role) => Ok(Lock::Payout {
            currency: currency.try_clone()?,
            role: role.try_clone()?,
        }),
    }
}

fn is_under(currency: &Bytes, party: &Party, lock: &Lock) -> bool
    ensures { IsTrue result ↔ (lock.now ≡ lock_for currency.now party.now) }
{
    match (party, lock) {
        (Party::Address(a), Lock::Key(b)) => b.same(a),
        (
            Party::Role(r),
            Lock::Payout {
                currency: c,
                role: s,
            },
        ) => c.same(currency) && s.same(r),
        (Party::Address(_), Lock::Payout { .. }) => false,
        (Party::Address(_), Lock::Contract { .. }) => false,
        (Party::Role(_), Lock::Key(_)) => false,
        (Party::Role(_), Lock::Contract { .. }) => false,
    }
}

// The output for a payment to a party.
fn owed_output(
    alloc: Global,
    currency: &Bytes,
    party: &Party,
    payment: &Payment,
) -> Result<Output, Memory>
    requires { pos 0 <ℤ payment.now.amount }
    ensures { IfOk result (λ output. output ≡ owed_output currency.now party.now payment.now) }
{
    let lock = lock_for(currency, party)?;
    let amount = only(alloc, &payment.token, payment.amount)?;
    Ok(Output { lock, amount })
}

fn is_owed(currency: &Bytes, party: &Party, payment: &Payment, output: &Output) -> bool
    ensures { IsTrue result ↔ (output.now ≡ owed_output currency.now party.now payment.now) }
{
    is_under(currency, party, &output.lock)
        && is_only(&output.amount, &payment.token, payment.amount)
}

fn pays(currency: &Bytes, party: &Party, payment: &Payment, output: &Output) -> bool
    ensures { result ≡ same_output output.now (owed_output currency.now party.now payment.now) }
{
    is_owed(currency, party, payment, output)
}

// The party to which a payment is due: none where it goes to an account, or is of 0.
fn due_to(payment: &Payment) -> Option<&Party>
    ensures { option_copied result ≡ due_to payment.now }
{
    match &payment.to {
        Payee::Account(_) => None,
        Payee::Party(party) => {
            if 0 < payment.amount {
                Some(party)
            } else {
                None
            }
        }
    }
}

/// Puts the outputs that are due for payments, in order, behind others. On a refusal the first of them may stand there.
pub fn put_due(
    alloc: Global,
    outputs: &mut Items<Output>,
    currency: &Bytes,
    payments: &[Payment],
) -> Result<(), Memory>
    ensures due { OnOk result (outputs.new ≡ outputs.old ++ due_outputs currency.now payments.now) }
    ensures err { OnErr result (AppendsFront (due_outputs currency.now payments.now) outputs.old outputs.new) }
{
    for payment in payments {
        if let Some(party) = due_to(payment) {
            outputs.push(owed_output(alloc, currency, party, payment)?)?;
        }
    }
    Ok(())
}

/// How many payments are due in an output: as many under each currency.
#[tactic(auto, using(crate::proofs::DueLemmas::due_more))]
pub fn due_count(payments: &[Payment]) -> usize
    ensures { (currency : List ℕ) → result ≡ length (due_outputs currency payments.now) }
{
    let mut count = 0;
    for payment in payments {
        if due_to(payment).is_some() {
            count += 1;
        }
    }
    count
}

/// The lowest place from `from` on that isn't the payment that is due there.
pub fn unpaid_index(
    currency: &Bytes,
    from: usize,
    payments: &[Payment],
    outputs: &[Output],
) -> Option<usize>
    ensures { result ≡ first_unpaid from (due_outputs currency.now payments.now) (drop from outputs.now) }
{
    let mut place = from;
    for payment in payments {
        if let Some(party) = due_to(payment) {
            if place >= outputs.len() {
                return Some(place);
            }
            if !pays(currency, party, payment, &outputs[place]) {
                return Some(place);
            }
            place += 1;
        }
    }
    None
}
