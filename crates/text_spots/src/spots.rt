//! Lines and columns.
ghost use Rattle.std.specs.Prelude.{◌≡◌, ◌<◌, ◌≤◌, ◌+◌, ◌^◌, length, take};
ghost use Rattle.text_spots.specs.Spots.{begins_scalar, spot_at, spot_behind, without_mark};
ghost use Rattle.text_spots.specs.SpotsSupport.{next_spot};

/// Where something stands in a text.
#[derive(Clone, Copy, Debug)]
pub struct Spot {
    /// The line, from 1. A line ends at a line feed.
    pub line: usize,
    /// The column, from 1, in Unicode scalar values. A tab is one.
    pub column: usize,
}

/// The spot of the byte at an offset of a text in UTF-8, from 0. An offset behind the text is its end. A byte order mark at the
/// beginning of the text takes no column.
pub fn spot_at(text: &[u8], offset: usize) -> Spot
    ensures { result ≡ spot_at text.now offset }
{
    spot_behind(without_mark(before(text, offset)))
}

/// The same, where the spot of the byte at another offset is known: if that comes first, only what lies between the two is counted.
pub fn spot_from(text: &[u8], known: usize, spot: Spot, offset: usize) -> Spot
    requires { spot ≡ spot_at text.now known }
    ensures { result ≡ spot_at text.now offset }
{
    if known < 3 || offset < known || text.len() < offset {
        spot_at(text, offset)
    } else {
        spot_on(text, known, spot, offset)
    }
}

// .. from one that stands behind a mark that there may be, and not behind the other.
fn spot_on(text: &[u8], known: usize, spot: Spot, offset: usize) -> Spot
    requires spot { spot ≡ spot_at text.now known }
    requires behind { 3 ≤ known }
    requires before { known ≤ offset }
    requires inside { offset ≤ length text.now }
    ensures { result ≡ spot_at text.now offset }
{
    let mut here = spot;
    for at in known..offset {
        here = past(here, text[at]);
    }
    here
}

// The bytes before an offset.
#[tactic(auto, using(std::proofs::lemmas::List::take_all))]
fn before(text: &[u8], offset: usize) -> &[u8]
    ensures { result.now ≡ take offset text.now }
{
    if offset < text.len() {
        &text[..offset]
    } else {
        text
    }
}

// The byte order mark of UTF-8.
const MARK: [u8; 3] = [0xef, 0xbb, 0xbf];

fn without_mark(bytes: &[u8]) -> &[u8]
    ensures { result.now ≡ without_mark bytes.now }
{
    if bytes.starts_with(&MARK) {
        &bytes[3..]
    } else {
        bytes
    }
}

// Where what comes behind these bytes stands.
fn spot_behind(bytes: &[u8]) -> Spot
    ensures { result ≡ spot_behind bytes.now }
{
    let mut spot = Spot { line: 1, column: 1 };
    for byte in bytes {
        spot = past(spot, *byte);
    }
    spot
}

// Behind one byte more. It is asked for each byte of a text.
#[inline(always)]
fn past(spot: Spot, byte: u8) -> Spot
    requires line { spot.line < 2 ^ 63 }
    requires column { spot.column < 2 ^ 63 }
    ensures next { result ≡ next_spot spot byte }
    ensures line { result.line ≤ spot.line + 1 }
    ensures column { result.column ≤ spot.column + 1 }
{
    if byte == b'\n' {
        Spot {
            line: spot.line + 1,
            column: 1,
        }
    } else if begins_scalar(byte) {
        Spot {
            line: spot.line,
            column: spot.column + 1,
        }
    } else {
        spot
    }
}

#[inline(always)]
fn begins_scalar(byte: u8) -> bool
    ensures { result ≡ begins_scalar byte }
{
    byte < 128 || byte >= 192
}
