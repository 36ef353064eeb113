//! The rules of a ledger.
ghost use Rattle.std.specs.Prelude.{◌≡◌, IfOk, string_bytes};
ghost use Rattle.fault_words.specs.Words.{rule_words};

use crate::words::{around, beside, missing_among, words};
use builder_spec::TxFault;
use contract::Memory;
use marlowe_refusals::sem_fault_name;
use places::token_text;
use std::alloc::Global;

/// Which of the 19 rules a transaction breaks, in words.
pub fn rule_words(alloc: Global, fault: &TxFault) -> Result<String, Memory>
    ensures { IfOk result (λ text. string_bytes text ≡ rule_words fault.now) }
{
    match fault {
        TxFault::NoInputs => words(alloc, "rule 1: nothing is spent"),
        TxFault::TooMany => words(
            alloc,
            "rule 2: there are more than 256 inputs, or more than 256 are brought to one contract",
        ),
        TxFault::RepeatedInput(place) => around(
            alloc,
            "rule 3: input ",
            *place,
            " spends what an earlier input spends",
        ),
        TxFault::NotUnspent(place) => around(
            alloc,
            "rule 4: what input ",
            *place,
            " spends was spent before, or never was",
        ),
        TxFault::IdInUse => words(alloc, "rule 5: an accepted transaction has the same id"),
        TxFault::OutsideInterval => {
            words(alloc, "rule 6: the ledger's tick isn't in the interval")
        }
        TxFault::UnknownScript(place) => around(
            alloc,
            "rule 7: the contract of output ",
            *place,
            " isn't published",
        ),
        TxFault::NotSigned(place) => around(
            alloc,
            "rule 8: input ",
            *place,
            " spends an output of an address that isn't among the signers",
        ),
        TxFault::TooManyContracts => words(alloc, "rule 9: more than 8 contracts are stepped"),
        TxFault::WrongRedeemer(place) => around(
            alloc,
            "rule 10: what is brought to spend the output of input ",
            *place,
            " isn't of its kind",
        ),
        TxFault::RoleMissing(place) => around(
            alloc,
            "rule 11: input ",
            *place,
            " claims a payout, and no output of an address that is spent holds the role's token",
        ),
        TxFault::Semantics(inner) => beside(
            alloc,
            "rule 12: the contract refuses its inputs: ",
            sem_fault_name(*inner),
        ),
        TxFault::NotAuthorised(party) => {
            let missing = missing_among(alloc, party, "output of an address that is spent")?;
            beside(alloc, "rule 13: ", missing.as_str())
        }
        TxFault::WrongContinuation => words(
            alloc,
            "rule 14: the contract goes on, and the first output of its block isn't the one in which it does",
        ),
        TxFault::WrongPayment(place) => around(
            alloc,
            "rule 15: output ",
            *place,
            " isn't the payment that is due there",
        ),
        TxFault::StrayContract(place) => around(
            alloc,
            "rule 16: output ",
            *place,
            " is a contract's, and no contract goes on in it",
        ),
        TxFault::WrongStart(place) => around(
            alloc,
            "rule 17: output ",
            *place,
            " doesn't start its contract",
        ),
        TxFault::NotPreserved(token) => {
            let token = token_text(alloc, token)?;
            format!(in alloc; "rule 18: another sum of {token} is spent than made")
        }
        TxFault::WrongDatum(place) => around(
            alloc,
            "rule 19: datum ",
            *place,
            " isn't the one whose digest its output holds",
        ),
    }
}
