//! Names of alarms and of warnings, and tokens, as they are printed.
ghost use Rattle.std.specs.Prelude.{◌≡◌, IfOk, string_bytes};
ghost use Rattle.contract.specs.Names.Equal.{is_ada};
ghost use Rattle.analysis_spec.specs.Promises.{kind_of};
ghost use Rattle.places.specs.Texts.{kind_name, token_text};

use analysis_spec::AlarmKind;
use contract::{Memory, Token, Warning};
use json_write_contracts::term_text;
use replay::kind_of;
use std::alloc::Global;

/// The name of a kind of alarm.
pub fn kind_name(kind: AlarmKind) -> &'static str
    ensures { result.now ≡ kind_name kind }
{
    match kind {
        AlarmKind::NonPositiveDeposit => "NonPositiveDeposit",
        AlarmKind::NonPositivePay => "NonPositivePay",
        AlarmKind::PartialPay => "PartialPay",
        AlarmKind::Shadowing => "Shadowing",
        AlarmKind::AssertionFailed => "AssertionFailed",
        AlarmKind::Leaves128 => "Leaves128",
    }
}

/// The name of a warning's kind.
pub fn warning_name(warning: &Warning) -> &'static str
    ensures { result.now ≡ kind_name (kind_of warning.now) }
{
    kind_name(kind_of(warning))
}

/// A token as people read it: `ADA` for ada, and each other token as compact JSON, which begins with `{`.
pub fn token_text(alloc: Global, token: &Token) -> Result<String, Memory>
    ensures { IfOk result (λ text. string_bytes text ≡ token_text token.now) }
{
    if is_ada(token) {
        format!(in alloc; "ADA")
    } else {
        term_text(alloc, token)
    }
}

fn is_ada(token: &Token) -> bool
    ensures { result ≡ is_ada token.now }
{
    token.symbol.as_slice().is_empty() && token.name.as_str().is_empty()
}
