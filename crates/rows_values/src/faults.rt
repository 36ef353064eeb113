//! The values of faults, one after another.
use contract::{SemFault, StateFault};
use marlowe_cli::WordsFault;
use marlowe_io::LoadFault;
use marlowe_run::{CompileFault, Fault, JsonFault, RunFault, TableFault, WriteFault, refusal};
use rows_text::{RowFault, apart_of, texts_of};
use std::alloc::{AllocError, Global};

const SEM_FAULTS: [SemFault; 7] = [
    SemFault::InvalidInterval,
    SemFault::IntervalInPast,
    SemFault::Ambiguous,
    SemFault::NoMatch,
    SemFault::Useless,
    SemFault::Leaves128,
    SemFault::Memory,
];

const JSON_FAULTS: [JsonFault; 9] = [
    JsonFault::NotJson,
    JsonFault::TooLong,
    JsonFault::NoForm,
    JsonFault::NotWhole,
    JsonFault::OutOfRange,
    JsonFault::BadHex,
    JsonFault::Merkleized,
    JsonFault::BadState,
    JsonFault::Memory,
];

const STATE_FAULTS: [StateFault; 3] = [
    StateFault::NotPositive,
    StateFault::Repeated,
    StateFault::Memory,
];

const COMPILE_FAULTS: [CompileFault; 3] = [
    CompileFault::TooManyNodes,
    CompileFault::TooDeep,
    CompileFault::Memory,
];

const WRITE_FAULTS: [WriteFault; 2] = [WriteFault::OutOfRange, WriteFault::Memory];

const RUN_FAULTS: [RunFault; 6] = [
    RunFault::Contract(JsonFault::NoForm),
    RunFault::State(JsonFault::BadState),
    RunFault::Transaction(JsonFault::NotWhole),
    RunFault::Semantics(SemFault::Useless),
    RunFault::Write(WriteFault::OutOfRange),
    RunFault::Memory,
];

const TABLE_FAULTS: [TableFault; 3] = [
    TableFault::Contract(JsonFault::NoForm),
    TableFault::Compile(CompileFault::TooDeep),
    TableFault::Memory,
];

const LOAD_FAULTS: [LoadFault; 2] = [LoadFault::Unreadable, LoadFault::Memory];

const WORDS_FAULTS: [WordsFault; 2] = [WordsFault::NoText, WordsFault::Memory];

const FAULTS: [Fault; 2] = [
    Fault::Run(RunFault::Memory),
    Fault::Table(TableFault::Memory),
];

/// A line of the text of each fault of that name.
pub fn texts_row(alloc: Global, name: &str) -> Result<Vec<u8>, RowFault> {
    let texts = match name {
        "SemFault" => texts_of(alloc, SEM_FAULTS.as_slice()),
        "StateFault" => texts_of(alloc, STATE_FAULTS.as_slice()),
        "CompileFault" => texts_of(alloc, COMPILE_FAULTS.as_slice()),
        "JsonFault" => texts_of(alloc, JSON_FAULTS.as_slice()),
        "WriteFault" => texts_of(alloc, WRITE_FAULTS.as_slice()),
        "RunFault" => texts_of(alloc, RUN_FAULTS.as_slice()),
        "TableFault" => texts_of(alloc, TABLE_FAULTS.as_slice()),
        _ => return Err(RowFault::NoSuchRow),
    };
    Ok(texts?.into_bytes())
}

/// Whether the values of that name are told apart.
pub fn apart_row(alloc: Global, name: &str) -> Result<Vec<u8>, RowFault> {
    let line = match name {
        "LoadFault" => apart_of(alloc, LOAD_FAULTS.as_slice()),
        "WordsFault" => apart_of(alloc, WORDS_FAULTS.as_slice()),
        "Fault" => apart_of(alloc, FAULTS.as_slice()),
        _ => return Err(RowFault::NoSuchRow),
    };
    Ok(line?.into_bytes())
}

/// The line of the refusal for each fault of that name.
pub fn refused_row(alloc: Global, name: &str) -> Result<Vec<u8>, RowFault> {
    let mut lines = Vec::new(alloc);
    match name {
        "RunFault" => {
            for fault in RUN_FAULTS {
                put_refusal(alloc, &mut lines, Fault::Run(fault))?;
            }
        }
        "TableFault" => {
            for fault in TABLE_FAULTS {
                put_refusal(alloc, &mut lines, Fault::Table(fault))?;
            }
        }
        _ => return Err(RowFault::NoSuchRow),
    }
    lines.pop();
    Ok(lines)
}

fn put_refusal(alloc: Global, lines: &mut Vec<u8>, fault: Fault) -> Result<(), AllocError> {
    lines.extend_from_slice(refusal(alloc, &fault)?.as_slice())?;
    lines.push(b'\n')?;
    Ok(())
}
