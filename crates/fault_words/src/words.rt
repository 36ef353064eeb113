//! Words around a place, a party, a token or a name.
ghost use Rattle.std.specs.Prelude.{◌≡◌, ◌++◌, IfOk, codes, string_bytes};
ghost use Rattle.fault_words.specs.Words.{around, party_text, missing_among};

use contract::{Memory, Party};
use json_write_contracts::term_text;
use std::alloc::Global;

pub(crate) fn words(alloc: Global, words: &str) -> Result<String, Memory>
    ensures { IfOk result (λ text. string_bytes text ≡ words.now) }
{
    String::from_str(alloc, words)
}

pub(crate) fn around(
    alloc: Global,
    before: &str,
    place: u64,
    behind: &str,
) -> Result<String, Memory>
    ensures { IfOk result (λ text. string_bytes text ≡ around before.now place behind.now) }
{
    format!(in alloc; "{before}{place}{behind}")
}

pub(crate) fn beside(alloc: Global, before: &str, name: &str) -> Result<String, Memory>
    ensures { IfOk result (λ text. string_bytes text ≡ before.now ++ name.now) }
{
    format!(in alloc; "{before}{name}")
}

fn no_token(alloc: Global, kind: &str, role: &str) -> Result<String, Memory>
    ensures { IfOk result (λ text. string_bytes text ≡ codes "no " ++ (kind.now ++ (codes " holds the token of " ++ role.now))) }
{
    format!(in alloc; "no {kind} holds the token of {role}")
}

/// A party that doesn't act, where its token would be among outputs of a kind.
pub(crate) fn missing_among(alloc: Global, party: &Party, kind: &str) -> Result<String, Memory>
    ensures { IfOk result (λ text. string_bytes text ≡ missing_among party.now kind.now) }
{
    let text = term_text(alloc, party)?;
    match party {
        Party::Address(_) => format!(in alloc; "{text} isn't among the signers"),
        Party::Role(_) => no_token(alloc, kind, text.as_str()),
    }
}
