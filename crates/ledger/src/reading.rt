//! What a reply says.
ghost use Rattle.std.specs.Prelude.{◌≡◌};
ghost use Rattle.ledger.specs.Replies.{is_advanced, is_accepted, ticket_in, verdicts_in, accepts};

use crate::call::{Reply, Ticketed};
use roles::Verdict;

/// Whether it says that the tick was moved on.
pub fn is_advanced(reply: &Reply) -> bool
    ensures { result ≡ is_advanced reply.now }
{
    matches!(reply, Reply::Advanced)
}

/// Whether it says that a transaction was accepted.
pub fn is_accepted(reply: &Reply) -> bool
    ensures { result ≡ is_accepted reply.now }
{
    matches!(reply, Reply::Accepted(_))
}

/// The ticket that it gives, of a transaction that waits for a round.
pub fn ticket_in(reply: &Reply) -> Option<u64>
    ensures { result ≡ ticket_in reply.now }
{
    match reply {
        Reply::Ticket(ticket) => Some(*ticket),
        _ => None,
    }
}

/// The verdicts of a round with their tickets, in the order in which they were judged: none, where it is no reply to a
/// round.
pub fn verdicts_in(reply: &Reply) -> &[Ticketed]
    ensures { result.now ≡ verdicts_in reply.now }
{
    match reply {
        Reply::Round(places) => places.as_slice(),
        _ => &[],
    }
}

/// Whether a verdict accepts.
pub fn accepts(verdict: &Verdict) -> bool
    ensures { result ≡ accepts verdict.now }
{
    matches!(verdict, Verdict::Accepted)
}
