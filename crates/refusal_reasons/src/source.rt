//! The texts of a command, and the paths by which they are told.
ghost use Rattle.std.specs.Prelude.{◌≡◌, option_map};

/// A text, and the path by which it is told.
#[derive(Clone, Copy)]
pub struct Source<'a> {
    pub path: &'a str,
    pub text: &'a [u8],
}

/// The text of a source, if there is one.
pub fn text_if<'a>(source: Option<Source<'a>>) -> Option<&'a [u8]>
    ensures { option_map (λ text. text.now) result ≡ option_map (λ source. source.text.now) source.entry }
{
    match source {
        Some(source) => Some(source.text),
        None => None,
    }
}

/// Texts one behind the other, and the path by which each is told.
#[derive(Clone, Copy)]
pub struct Sources<'a> {
    pub paths: &'a [&'a str],
    pub texts: &'a [Vec<u8>],
}

/// The interval of a transaction that may come: without a start from the minimum time on, and without an end at the first moment alone.
/// Times are POSIX milliseconds.
#[derive(Clone, Copy)]
pub struct Over {
    pub from: Option<i64>,
    pub to: Option<i64>,
}

/// What a command reads and computes behind a contract and a state.
#[derive(Clone, Copy)]
pub enum Behind<'a> {
    /// Nothing: an analysis.
    Nothing,
    /// One transaction: a run.
    One(Source<'a>),
    /// Transactions one after another: a trace.
    Many(Sources<'a>),
    /// Transactions, and then what can be done over an interval.
    Next(Sources<'a>, Over),
}
