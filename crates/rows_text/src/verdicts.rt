//! Verdicts as they are printed.
use crate::amounts::word_of;
use contract::{Party, Token};
use roles::{TxFault, Verdict};
use std::alloc::{AllocError, Global};

/// The line for a verdict: `accepted`, or the refusal's.
pub fn verdict_line(alloc: Global, verdict: &Verdict) -> Result<String, AllocError> {
    match verdict {
        Verdict::Accepted => String::from_str(alloc, "accepted"),
        Verdict::Refused(fault) => refusal_line(alloc, fault),
    }
}

/// The line for a refusal: `refused` and the fault with its place, party, token or inner fault.
pub fn refusal_line(alloc: Global, fault: &TxFault) -> Result<String, AllocError> {
    match fault {
        TxFault::NotAuthorised(party) => not_authorised(alloc, party),
        TxFault::NotPreserved(token) => not_preserved(alloc, token),
        fault => format!(in alloc; "refused {fault:?}"),
    }
}

fn not_authorised(alloc: Global, party: &Party) -> Result<String, AllocError> {
    match party {
        Party::Address(address) => {
            let address = address.as_str();
            format!(in alloc; "refused NotAuthorised(address {address})")
        }
        Party::Role(role) => {
            let role = role.as_str();
            format!(in alloc; "refused NotAuthorised(role {role})")
        }
    }
}

fn not_preserved(alloc: Global, token: &Token) -> Result<String, AllocError> {
    let token = word_of(alloc, token)?;
    format!(in alloc; "refused NotPreserved({token})")
}
