//! What a party is paid of a token.
ghost use Rattle.std.specs.Prelude.{◌≡◌};
ghost use Rattle.analysis_walk.specs.Spans.{Contains, IsNoGreater, IsNoLess, nothing};

/// How much of a token, in its smallest unit, a party is paid in all: at least `least`, and at most `most`. A bound
/// that is none isn't known.
#[derive(Clone, Copy, Debug)]
pub struct Span {
    pub least: Option<i128>,
    pub most: Option<i128>,
}

impl Span {
    /// Nothing is paid.
    pub fn nothing() -> Span
        ensures { result ≡ nothing }
    {
        Span {
            least: Some(0),
            most: Some(0),
        }
    }

    /// A span with all numbers of this one and of another.
    pub fn joined(self, other: Span) -> Span
        ensures own { Contains result self }
        ensures other { Contains result other }
    {
        Span {
            least: lesser(self.least, other.least),
            most: greater(self.most, other.most),
        }
    }
}

// The lesser of two bounds, where there are two.
fn lesser(a: Option<i128>, b: Option<i128>) -> Option<i128>
    ensures own { IsNoGreater result a }
    ensures other { IsNoGreater result b }
{
    match (a, b) {
        (Some(m), Some(n)) => Some(m.min(n)),
        _ => None,
    }
}

// The greater of two bounds, where there are two.
fn greater(a: Option<i128>, b: Option<i128>) -> Option<i128>
    ensures own { IsNoLess result a }
    ensures other { IsNoLess result b }
{
    match (a, b) {
        (Some(m), Some(n)) => Some(m.max(n)),
        _ => None,
    }
}
