//! Who plays the scenarios of requests.
ghost use Rattle.std.specs.Prelude.{ℕ, List, Result, IfOk};
ghost use Rattle.json_tree.specs.View.{view};
ghost use Rattle.serde_json.specs.Data.{Data};
ghost use Rattle.request_answers.specs.Playing.{answer_seen, no_play};

use contract::Memory;
use json_tree::Json;
use refusal_objects::named_members;
use std::alloc::Global;

/// What is told of what stands at `play`.
#[derive(Drop)]
pub enum PlayAnswer {
    /// It was played: JSON values, one a line, each with a line feed.
    Told(Vec<u8>),
    /// It wasn't: the members of the object that says why, and those that explain it, which may be none.
    Refused(Vec<u8>, Vec<u8>),
}

/// Who plays the scenarios of requests. Of a player the stream asks nothing but that a call tells what may be told of its request: a
/// call that waits is waited for.
pub trait Player {
    /// What a call rests on, which whoever makes the player knows.
    ghost may: { Self → Type 0 };

    /// What may be told of what stands at `play`: lines, or the members of a refusal and those that explain it.
    ghost tells: { Data → Result (List ℕ) (List ℕ × List ℕ) → Type 0 };

    /// Plays what stands at `play`. Only a growth that was refused gives `Memory`.
    fn play(&self, alloc: Global, body: &Json<'_>) -> Result<PlayAnswer, Memory>
        requires { may self.now }
        ensures { IfOk result (λ answer. tells (view body.now) (answer_seen answer)) };
}

/// The player that plays nothing: each scenario is refused.
#[derive(Clone, Copy, Debug)]
pub struct NoPlayer;

impl Player for NoPlayer {
    ghost may = { λ _. Unit {0} };

    ghost tells = { no_play };

    fn play(&self, alloc: Global, _body: &Json<'_>) -> Result<PlayAnswer, Memory> {
        let members = named_members(alloc, "play", "Unsupported")?;
        Ok(PlayAnswer::Refused(members, Vec::new(alloc)))
    }
}
