//! The values of faults, one after another: their texts and their copies.
use builder::BuildFault;
use chain::GenesisFault;
use contract::{Bytes, Party, SemFault, Text, Token};
use rows_text::{RowFault, Values, texts_of, value_copies, value_texts};
use std::alloc::Global;

const GENESIS_FAULTS: [GenesisFault; 3] = [
    GenesisFault::NotKey,
    GenesisFault::TooLarge,
    GenesisFault::Memory,
];

const COUNT_OF_BUILD_FAULTS: u32 = 8;

struct BuildFaults;

/// A line of the text of each fault of that name.
pub fn texts_row(alloc: Global, name: &str) -> Result<String, RowFault> {
    let texts = match name {
        "BuildFault" => value_texts::<BuildFault, BuildFaults>(alloc, COUNT_OF_BUILD_FAULTS),
        "GenesisFault" => texts_of(alloc, GENESIS_FAULTS.as_slice()),
        _ => return rows_transactions::texts_row(alloc, name),
    };
    Ok(texts?)
}

/// Whether a copy of each fault of a builder is the same.
pub fn fault_copies_line(alloc: Global) -> Result<String, RowFault> {
    Ok(value_copies::<BuildFault, BuildFaults>(alloc, COUNT_OF_BUILD_FAULTS)?)
}

impl Values<BuildFault> for BuildFaults {
    fn at(alloc: Global, place: u32) -> BuildFault {
        match place {
            0 => BuildFault::NoThread,
            1 => BuildFault::Semantics(SemFault::NoMatch),
            2 => BuildFault::NotSigned,
            3 => BuildFault::NotAuthorised(Party::Role(no_text(alloc))),
            4 => BuildFault::NoFunds(ada(alloc)),
            5 => BuildFault::TooMany,
            6 => BuildFault::Repeated,
            _ => BuildFault::Memory,
        }
    }
}

// Takes no memory.
fn no_text(alloc: Global) -> Text {
    Text::from_string(String::new(alloc))
}

// Takes no memory.
fn ada(alloc: Global) -> Token {
    Token {
        symbol: Bytes::from_vec(Vec::new(alloc)),
        name: no_text(alloc),
    }
}
