//! The line of a refusal.
ghost use Rattle.std.specs.Prelude.{◌≡◌, ◌++◌, codes, IfOk, string_bytes};
ghost use Rattle.setup_refusals.specs.SetupRefusals.{refused_named, setup_line};

use crate::refusal::SetupRefusal;
use collections::{Memory, Text};
use std::alloc::Global;

/// The line that tells a refusal, without its line feed: `refused genesis FAULT`, `refused contract NAME FAULT` or `refused thread NAME FAULT`, where
/// NAME is the name in the scenario, as it is.
pub fn setup_line(alloc: Global, refusal: &SetupRefusal) -> Result<String, Memory>
    ensures { IfOk result (λ line. string_bytes line ≡ setup_line refusal.now) }
{
    match refusal {
        SetupRefusal::Genesis(cause) => refused_genesis(alloc, &cause.fault),
        SetupRefusal::Contract(name, cause) => {
            refused_named(alloc, "contract", name, &cause.fault)
        }
        SetupRefusal::Thread(name, cause) => refused_named(alloc, "thread", name, &cause.fault),
    }
}

fn refused_genesis(alloc: Global, fault: &Text) -> Result<String, Memory>
    ensures { IfOk result (λ line. string_bytes line ≡ codes "refused genesis " ++ fault.now) }
{
    let fault = fault.as_str();
    format!(in alloc; "refused genesis {fault}")
}

fn refused_named(alloc: Global, what: &str, name: &Text, fault: &Text) -> Result<String, Memory>
    ensures { IfOk result (λ line. string_bytes line ≡ refused_named what.now name.now fault.now) }
{
    let name = name.as_str();
    let fault = fault.as_str();
    format!(in alloc; "refused {what} {name} {fault}")
}
