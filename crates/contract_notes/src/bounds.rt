//! Choices of more than one number.
ghost use Rattle.std.specs.Prelude.{◌≡◌};
ghost use Rattle.std.specs.List.{list_all};
ghost use Rattle.contract_notes.specs.Notes.{holds_only, first_number, is_varied};

use contract::Bound;

/// Whether bounds have more than one number.
pub(crate) fn is_varied(bounds: &[Bound]) -> bool
    ensures { result ≡ is_varied bounds.now }
{
    match first_number(bounds) {
        Some(number) => !all_hold_only(bounds, number),
        None => false,
    }
}

fn first_number(bounds: &[Bound]) -> Option<i128>
    ensures { result ≡ first_number bounds.now }
{
    for bound in bounds {
        if bound.from <= bound.to {
            return Some(bound.from);
        }
    }
    None
}

fn all_hold_only(bounds: &[Bound], number: i128) -> bool
    ensures { result ≡ list_all (holds_only number) bounds.now }
{
    for bound in bounds {
        if !holds_only(bound, number) {
            return false;
        }
    }
    true
}

fn holds_only(bound: &Bound, number: i128) -> bool
    ensures { result ≡ holds_only number bound.now }
{
    bound.to < bound.from || (bound.from == number && bound.to == number)
}
