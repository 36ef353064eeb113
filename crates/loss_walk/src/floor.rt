//! A floor for what one party is paid of one token, less what it brings.
ghost use Rattle.std.specs.Prelude.{◌≡◌, ℤ};
ghost use Rattle.loss_walk.specs.Floors.{IsUnder, least_of};

/// At no close so far is it less than `least`; if that is none, it isn't known. And whether the party brings something.
#[derive(Clone, Copy, Debug)]
pub(crate) struct Floor {
    pub(crate) least: Option<i128>,
    pub(crate) brings: bool,
}

/// The floor of a row: 0 where there is none.
pub(crate) fn least_of(row: Option<Floor>) -> Option<i128>
    ensures { result ≡ least_of row }
{
    match row {
        Some(floor) => floor.least,
        None => Some(0),
    }
}

/// A row that nothing has lowered yet: of a contract that is never closed anything is true.
pub(crate) fn raised() -> Floor {
    Floor {
        least: Some(i128::MAX),
        brings: false,
    }
}

/// Whether the party of a row brings something.
pub(crate) fn brings(row: Option<Floor>) -> bool {
    match row {
        Some(floor) => floor.brings,
        None => false,
    }
}

// The lesser of two floors, where there are two.
fn lesser(a: Option<i128>, b: Option<i128>) -> Option<i128>
    ensures own { (n : ℤ) → IsUnder result n → IsUnder a n }
    ensures other { (n : ℤ) → IsUnder result n → IsUnder b n }
{
    match (a, b) {
        (Some(m), Some(n)) => Some(m.min(n)),
        _ => None,
    }
}

/// The row after one more close, at which this is the least.
pub(crate) fn lowered(row: Option<Floor>, least: Option<i128>) -> Floor
    ensures own { (n : ℤ) → IsUnder result.least n → IsUnder (least_of row) n }
    ensures other { (n : ℤ) → IsUnder result.least n → IsUnder least n }
{
    let before = least_of(row);
    let brings = brings(row);
    Floor {
        least: lesser(before, least),
        brings,
    }
}

/// The row of a party that brings something.
pub(crate) fn noted(row: Option<Floor>) -> Floor
    ensures { result.least ≡ least_of row }
{
    Floor {
        least: least_of(row),
        brings: true,
    }
}
