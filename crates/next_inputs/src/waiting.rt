//! Until when a contract waits.
ghost use Rattle.std.specs.Prelude.{◌≡◌, ◌^◌, pos, ◌<ℤ◌, IfSome};
ghost use Rattle.next_inputs.specs.Opening.{waits_until};

use semantics::evaluation::{Form, Parts};

/// The last moment at which the contract at a place waits, in POSIX milliseconds: none where it isn't a When. From the
/// next on, its timeout continuation is gone on with.
pub fn waits_until<S: Parts>(parts: &S, place: S::Place) -> Option<i128>
    requires { S.contains parts.now place }
    ensures until { result ≡ waits_until (S.tree parts.now place) }
    ensures below { IfSome result (λ last. last <ℤ pos (2 ^ 63)) }
{
    match parts.form(place) {
        Form::When(timeout, _) => Some(i128::from(timeout) - 1),
        _ => None,
    }
}
