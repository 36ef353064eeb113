//! Where a line ends.
ghost use Rattle.std.specs.Prelude.{◌≡◌, ◌<◌, length, IfSome};
ghost use Rattle.lines_in.specs.LinesSupport.{first_feed};

use memchr::memchr;

// The place of the first line feed.
#[tactic(auto, using(crate::proofs::FeedLemmas::is_first_feed))]
pub(crate) fn first_feed(bytes: &[u8]) -> Option<usize>
    ensures first { result ≡ first_feed bytes.now }
    ensures within { IfSome result (λ place. place < length bytes.now) }
{
    memchr(b'\n', bytes)
}
