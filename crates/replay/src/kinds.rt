//! The kinds of warnings.
ghost use Rattle.std.specs.Prelude.{◌≡◌, true};
ghost use Rattle.analysis_spec.specs.declared.kind.AlarmKind.TheVariants.{Leaves128};
ghost use Rattle.analysis_spec.specs.Promises.{kind_of, HasKind};

use analysis_spec::AlarmKind;
use contract::Warning;

/// The kind of a warning.
pub fn kind_of(warning: &Warning) -> AlarmKind
    ensures { result ≡ kind_of warning.now }
{
    match warning {
        Warning::NonPositiveDeposit(_, _, _, _) => AlarmKind::NonPositiveDeposit,
        Warning::NonPositivePay(_, _, _, _) => AlarmKind::NonPositivePay,
        Warning::PartialPay(_, _, _, _, _) => AlarmKind::PartialPay,
        Warning::Shadowing(_, _, _) => AlarmKind::Shadowing,
        Warning::AssertionFailed => AlarmKind::AssertionFailed,
    }
}

/// Whether a warning of the kind is among these.
pub(crate) fn has_kind(warnings: &[Warning], kind: AlarmKind) -> bool
    ensures { result ≡ true → HasKind kind warnings.now }
{
    match warnings {
        [] => false,
        [first, rest @ ..] => kind_of(first) == kind || has_kind(rest, kind),
    }
}

/// Whether warnings tell of an alarm of a kind.
pub(crate) fn warns(warnings: &[Warning], kind: AlarmKind) -> bool
    ensures { result ≡ true → (kind ≡ Leaves128 → ⊥) × HasKind kind warnings.now }
{
    kind != AlarmKind::Leaves128 && has_kind(warnings, kind)
}

/// Whether a kind is the one of numbers that leave 128 bits.
pub(crate) fn is_leaving(kind: AlarmKind) -> bool
    ensures { result ≡ true → kind ≡ Leaves128 }
{
    kind == AlarmKind::Leaves128
}
