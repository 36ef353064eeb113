//! Faults as they are printed: the name, and after a space the place, the party, the token or the name of the inner fault.
ghost use Rattle.std.specs.Prelude.{◌≡◌, IfOk, string_bytes};
ghost use Rattle.serde_json.specs.Written.{compact_text};
ghost use Rattle.play_lines.specs.PlayLines.{at_place, beside, tx_fault_text, build_fault_text};

use builder_spec::{BuildFault, Memory, TxFault};
use json_write_contracts::{Term, term_text};
use marlowe_refusals::sem_fault_name;
use std::alloc::Global;

/// The text of a transaction's fault. Answers `Memory` only where a growth was refused.
pub fn tx_fault_text(alloc: Global, fault: &TxFault) -> Result<String, Memory>
    ensures { IfOk result (λ text. string_bytes text ≡ tx_fault_text fault.now) }
{
    match fault {
        TxFault::NoInputs => String::from_str(alloc, "NoInputs"),
        TxFault::TooMany => String::from_str(alloc, "TooMany"),
        TxFault::RepeatedInput(place) => at_place(alloc, "RepeatedInput", *place),
        TxFault::NotUnspent(place) => at_place(alloc, "NotUnspent", *place),
        TxFault::IdInUse => String::from_str(alloc, "IdInUse"),
        TxFault::OutsideInterval => String::from_str(alloc, "OutsideInterval"),
        TxFault::UnknownScript(place) => at_place(alloc, "UnknownScript", *place),
        TxFault::NotSigned(place) => at_place(alloc, "NotSigned", *place),
        TxFault::TooManyContracts => String::from_str(alloc, "TooManyContracts"),
        TxFault::WrongRedeemer(place) => at_place(alloc, "WrongRedeemer", *place),
        TxFault::RoleMissing(place) => at_place(alloc, "RoleMissing", *place),
        TxFault::Semantics(inner) => beside(alloc, "Semantics", sem_fault_name(*inner)),
        TxFault::NotAuthorised(party) => of_term(alloc, "NotAuthorised", party),
        TxFault::WrongContinuation => String::from_str(alloc, "WrongContinuation"),
        TxFault::WrongPayment(place) => at_place(alloc, "WrongPayment", *place),
        TxFault::StrayContract(place) => at_place(alloc, "StrayContract", *place),
        TxFault::WrongStart(place) => at_place(alloc, "WrongStart", *place),
        TxFault::NotPreserved(token) => of_term(alloc, "NotPreserved", token),
        TxFault::WrongDatum(place) => at_place(alloc, "WrongDatum", *place),
    }
}

/// The text of a builder's fault. Answers `Memory` only where a growth was refused.
pub fn build_fault_text(alloc: Global, fault: &BuildFault) -> Result<String, Memory>
    ensures { IfOk result (λ text. string_bytes text ≡ build_fault_text fault.now) }
{
    match fault {
        BuildFault::NoThread => String::from_str(alloc, "NoThread"),
        BuildFault::Semantics(inner) => beside(alloc, "Semantics", sem_fault_name(*inner)),
        BuildFault::NotSigned => String::from_str(alloc, "NotSigned"),
        BuildFault::NotAuthorised(party) => of_term(alloc, "NotAuthorised", party),
        BuildFault::NoFunds(token) => of_term(alloc, "NoFunds", token),
        BuildFault::TooMany => String::from_str(alloc, "TooMany"),
        BuildFault::Repeated => String::from_str(alloc, "Repeated"),
        BuildFault::Memory => String::from_str(alloc, "Memory"),
    }
}

fn at_place(alloc: Global, name: &str, place: u64) -> Result<String, Memory>
    ensures { IfOk result (λ text. string_bytes text ≡ at_place name.now place) }
{
    format!(in alloc; "{name} {place}")
}

fn beside(alloc: Global, name: &str, inner: &str) -> Result<String, Memory>
    ensures { IfOk result (λ text. string_bytes text ≡ beside name.now inner.now) }
{
    format!(in alloc; "{name} {inner}")
}

fn of_term<T: Term>(alloc: Global, name: &str, term: &T) -> Result<String, Memory>
    ensures { IfOk result (λ text. string_bytes text ≡ beside name.now (compact_text (T.json term.now))) }
{
    let term = term_text(alloc, term)?;
    beside(alloc, name, term.as_str())
}
