//! Builders.
ghost use Rattle.std.specs.Prelude.{◌≡◌, IfOk, string_bytes};
ghost use Rattle.builder_spec.specs.declared.fault.BuildFault.TheVariants as causes;
ghost use Rattle.fault_words.specs.Words.{build_words, lacking_words};

use crate::words::{beside, missing_among, words};
use builder_spec::BuildFault;
use contract::{Memory, Token};
use marlowe_refusals::sem_fault_name;
use places::token_text;
use std::alloc::Global;

/// Why a transaction isn't built, in words.
pub fn build_words(alloc: Global, fault: &BuildFault) -> Result<String, Memory>
    ensures { IfOk result (λ text. string_bytes text ≡ build_words fault.now) }
{
    match fault {
        BuildFault::NoThread => words(alloc, "there is no thread to step, or no payout to claim"),
        BuildFault::Semantics(inner) => beside(
            alloc,
            "the contract refuses its inputs: ",
            sem_fault_name(*inner),
        ),
        BuildFault::NotSigned => words(
            alloc,
            "an output is offered whose address isn't among the signers",
        ),
        BuildFault::NotAuthorised(party) => missing_among(alloc, party, "offered output"),
        BuildFault::NoFunds(token) => too_little_words(alloc, token),
        BuildFault::TooMany => words(
            alloc,
            "there are too many contracts, inputs or outputs for one transaction, or they hold too much",
        ),
        BuildFault::Repeated => words(
            alloc,
            "an output is offered twice, or a thread is stepped twice",
        ),
        BuildFault::Memory => words(alloc, "memory was refused"),
    }
}

/// That the offered outputs hold too little of a token, in words. Answers `Memory` only where a growth was refused.
pub fn too_little_words(alloc: Global, token: &Token) -> Result<String, Memory>
    ensures { IfOk result (λ text. string_bytes text ≡ build_words (causes.NoFunds token.now)) }
{
    let token = token_text(alloc, token)?;
    beside(
        alloc,
        "the offered outputs hold too little of ",
        token.as_str(),
    )
}

/// How much of a token the offered outputs lack, in its smallest unit, in words: for a caller who knows that.
pub fn lacking_words(alloc: Global, amount: i128, token: &Token) -> Result<String, Memory>
    ensures { IfOk result (λ text. string_bytes text ≡ lacking_words amount token.now) }
{
    let token = token_text(alloc, token)?;
    format!(in alloc; "the offered outputs lack {amount} {token}")
}
