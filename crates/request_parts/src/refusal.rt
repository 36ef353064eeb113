//! Why a line isn't answered by what it asks.
ghost use Rattle.std.specs.Prelude.{◌≡◌};
ghost use Rattle.request_parts.specs.Refusals.{run_refused, trace_refused, table_refused, part_refused};
ghost use Rattle.request_parts.specs.declared.refusal.Refusal.TheVariants as refusals;

use marlowe_run::{Fault, JsonFault, RunFault, TableFault, TraceFault};
use std::alloc::{AllocError, AllocFailed};

/// Why a line is no request.
#[derive(Clone, Copy, Debug, PartialEq, Eq)]
pub enum LineFault {
    /// It has more than 4 MiB.
    TooLong = 1,
    /// It is no JSON in UTF-8, or nests too deep.
    NotJson = 2,
    /// It is no object.
    NoObject = 3,
    /// It has no key that asks something.
    NoRequest = 4,
}

/// What stands in a request beside contracts, states and transactions.
#[derive(Clone, Copy, Debug, PartialEq, Eq)]
pub enum Part {
    /// What is to be read.
    Read = 1,
    /// What is to be encoded.
    Bytes = 2,
    /// A name and its contract.
    Define = 3,
    /// A name.
    Forget = 4,
    /// The time at which the next transaction may begin.
    From = 5,
    /// The time at which it may end.
    To = 6,
    /// An input.
    Input = 7,
    /// A party.
    Party = 8,
    /// A token.
    Token = 9,
    /// The currency of a contract's role tokens.
    Currency = 10,
}

/// Why there is no answer to a line. Want of memory is `Memory`, and never inside another.
#[derive(Clone, Copy, Debug, PartialEq, Eq)]
pub enum Refusal {
    /// The line of this number, from 1, is no request.
    Line(LineFault, u64),
    /// As the command refuses it.
    Command(Fault),
    /// A part of the request isn't read.
    Part(Part, JsonFault),
    /// No contract has that name.
    Undefined,
    /// There would be more than 1,000 names, or more than 256 MiB of contracts.
    Full,
    /// A play isn't to be had here.
    NoPlay,
    /// Memory was refused.
    Memory,
}

impl Refusal {
    /// A fault of a part.
    pub fn of_part(part: Part, fault: JsonFault) -> Refusal
        ensures { result ≡ part_refused part fault }
    {
        match fault {
            JsonFault::Memory => Refusal::Memory,
            other => Refusal::Part(part, other),
        }
    }
}

impl From<RunFault> for Refusal {
    ghost from_gives = { λ inner refusal. refusal ≡ run_refused inner };

    fn from(fault: RunFault) -> Refusal {
        match fault {
            RunFault::Memory => Refusal::Memory,
            other => Refusal::Command(Fault::Run(other)),
        }
    }
}

impl From<TraceFault> for Refusal {
    ghost from_gives = { λ inner refusal. refusal ≡ trace_refused inner };

    fn from(fault: TraceFault) -> Refusal {
        match fault {
            TraceFault::Run(fault) => Refusal::from(fault),
            other => Refusal::Command(Fault::Trace(other)),
        }
    }
}

impl From<TableFault> for Refusal {
    ghost from_gives = { λ inner refusal. refusal ≡ table_refused inner };

    fn from(fault: TableFault) -> Refusal {
        match fault {
            TableFault::Memory => Refusal::Memory,
            other => Refusal::Command(Fault::Table(other)),
        }
    }
}

impl From<AllocError> for Refusal {
    ghost from_gives = { λ _ refusal. refusal ≡ refusals.Memory };

    fn from(_error: AllocError) -> Refusal {
        Refusal::Memory
    }
}

impl<T: Drop> From<AllocFailed<T>> for Refusal {
    ghost from_gives = { λ _ refusal. refusal ≡ refusals.Memory };

    fn from(_error: AllocFailed<T>) -> Refusal {
        Refusal::Memory
    }
}
