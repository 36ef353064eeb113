//! The members of a refusal.
ghost use Rattle.std.specs.Prelude.{◌≡◌, ◌++◌, codes, IfOk, string_bytes};
ghost use Rattle.setup_refusals.specs.SetupRefusals.{cause_members, named_members, quoted, refused_setup, setup_members};

use crate::refusal::{Cause, SetupRefusal};
use collections::{Memory, Text};
use json_write_contracts::term_text;
use std::alloc::Global;

/// The members that tell a refusal: `of`, which is `setup`, and `name`, which is `Refused`; the name of the contract or of the thread as `contract` or
/// `thread`; `fault`, as the line has it; and `why`, in words.
pub fn setup_members(alloc: Global, refusal: &SetupRefusal) -> Result<Vec<u8>, Memory>
    ensures { IfOk result (λ members. members.items ≡ setup_members refusal.now) }
{
    let members = members_text(alloc, refusal)?;
    Ok(members.into_bytes())
}

fn members_text(alloc: Global, refusal: &SetupRefusal) -> Result<String, Memory>
    ensures { IfOk result (λ members. string_bytes members ≡ setup_members refusal.now) }
{
    match refusal {
        SetupRefusal::Genesis(cause) => unnamed(alloc, cause),
        SetupRefusal::Contract(name, cause) => named(alloc, "contract", name, cause),
        SetupRefusal::Thread(name, cause) => named(alloc, "thread", name, cause),
    }
}

fn unnamed(alloc: Global, cause: &Cause) -> Result<String, Memory>
    ensures { IfOk result (λ members. string_bytes members ≡ refused_setup ++ cause_members cause.now) }
{
    let told = cause_members(alloc, cause)?;
    format!(in alloc; "\"of\":\"setup\",\"name\":\"Refused\"{told}")
}

fn named(alloc: Global, key: &str, name: &Text, cause: &Cause) -> Result<String, Memory>
    ensures { IfOk result (λ members. string_bytes members ≡ named_members key.now name.now cause.now) }
{
    let told = cause_members(alloc, cause)?;
    let name = quoted(alloc, name)?;
    format!(in alloc; "\"of\":\"setup\",\"name\":\"Refused\",\"{key}\":{name}{told}")
}

fn cause_members(alloc: Global, cause: &Cause) -> Result<String, Memory>
    ensures { IfOk result (λ members. string_bytes members ≡ cause_members cause.now) }
{
    let fault = quoted(alloc, &cause.fault)?;
    let why = quoted(alloc, &cause.words)?;
    format!(in alloc; ",\"fault\":{fault},\"why\":{why}")
}

fn quoted(alloc: Global, text: &Text) -> Result<String, Memory>
    ensures { IfOk result (λ made. string_bytes made ≡ quoted text.now) }
{
    term_text(alloc, text)
}
