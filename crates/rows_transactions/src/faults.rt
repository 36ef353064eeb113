//! The values of faults, one after another: their texts and their copies.
use contract::{Bytes, Memory, Party, SemFault, Text, Token};
use roles::{BundleFault, StepAnswer, StepFault, TxFault};
use rows_text::{RowFault, Values, value_copies, value_texts, values_apart};
use std::alloc::Global;

const COUNT_OF_TX_FAULTS: u32 = 19;

struct TxFaults;

struct BundleFaults;

struct StepFaults;

struct StepAnswers;

/// A line of the text of each fault of that name.
pub fn texts_row(alloc: Global, name: &str) -> Result<String, RowFault> {
    let texts = match name {
        "TxFault" => value_texts::<TxFault, TxFaults>(alloc, COUNT_OF_TX_FAULTS),
        "BundleFault" => value_texts::<BundleFault, BundleFaults>(alloc, 3),
        _ => return Err(RowFault::NoSuchRow),
    };
    Ok(texts?)
}

/// Whether the values of that name are told apart.
pub fn apart_row(alloc: Global, name: &str) -> Result<String, RowFault> {
    let line = match name {
        "StepFault" => values_apart::<StepFault, StepFaults>(alloc, 3),
        "StepAnswer" => values_apart::<StepAnswer, StepAnswers>(alloc, 5),
        _ => return Err(RowFault::NoSuchRow),
    };
    Ok(line?)
}

/// Whether a copy of each fault of a transaction is the same.
pub fn copies_row(alloc: Global) -> Result<String, Memory> {
    value_copies::<TxFault, TxFaults>(alloc, COUNT_OF_TX_FAULTS)
}

impl Values<BundleFault> for BundleFaults {
    fn at(alloc: Global, place: u32) -> BundleFault {
        match place {
            0 => BundleFault::Short(ada(alloc)),
            1 => BundleFault::TooLarge,
            _ => BundleFault::Memory,
        }
    }
}

impl Values<StepFault> for StepFaults {
    fn at(alloc: Global, place: u32) -> StepFault {
        match place {
            0 => StepFault::NotAuthorised(Party::Role(no_text(alloc))),
            1 => StepFault::WrongContinuation,
            _ => StepFault::WrongPayment(7),
        }
    }
}

/// Each differs from the one before in one of its parts.
impl Values<StepAnswer> for StepAnswers {
    fn at(_alloc: Global, place: u32) -> StepAnswer {
        match place {
            0 => StepAnswer::Refused(SemFault::NoMatch),
            1 => takes(None, false, 0),
            2 => takes(None, true, 0),
            3 => takes(None, true, 1),
            _ => takes(Some(StepFault::WrongContinuation), true, 1),
        }
    }
}

fn takes(fault: Option<StepFault>, goes_on: bool, payments: usize) -> StepAnswer {
    StepAnswer::Takes {
        fault,
        goes_on,
        payments,
    }
}

/// Places count on, so that each text shows its own.
impl Values<TxFault> for TxFaults {
    fn at(alloc: Global, place: u32) -> TxFault {
        match place {
            0 => TxFault::NoInputs,
            1 => TxFault::TooMany,
            2 => TxFault::RepeatedInput(1),
            3 => TxFault::NotUnspent(2),
            4 => TxFault::IdInUse,
            5 => TxFault::OutsideInterval,
            6 => TxFault::UnknownScript(3),
            7 => TxFault::NotSigned(4),
            8 => TxFault::TooManyContracts,
            9 => TxFault::WrongRedeemer(5),
            10 => TxFault::RoleMissing(6),
            11 => TxFault::Semantics(SemFault::NoMatch),
            12 => TxFault::NotAuthorised(Party::Role(no_text(alloc))),
            13 => TxFault::WrongContinuation,
            14 => TxFault::WrongPayment(7),
            15 => TxFault::StrayContract(8),
            16 => TxFault::WrongStart(9),
            17 => TxFault::NotPreserved(ada(alloc)),
            _ => TxFault::WrongDatum(10),
        }
    }
}

// Takes no memory.
fn ada(alloc: Global) -> Token {
    Token {
        symbol: Bytes::from_vec(Vec::new(alloc)),
        name: no_text(alloc),
    }
}

// Takes no memory.
fn no_text(alloc: Global) -> Text {
    Text::from_string(String::new(alloc))
}
