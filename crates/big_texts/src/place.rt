//! Where a token stands.
ghost use Rattle.std.specs.Prelude.{◌≡◌, ◌||◌, codes, IfSome, IfOk};
ghost use Rattle.json.specs.Reads.{token_of};
ghost use Rattle.big_texts.specs.BigTexts.{stays};
ghost use Rattle.big_texts.specs.Lines.{behind, behind_key, behind_one, closed, less, opened};

use contract::Memory;
use json::Token;
use std::alloc::AllocError;

/// Where a token stands.
#[derive(Clone, Copy)]
pub(crate) enum Place {
    // Outside of the members that stay.
    Outside,
    // Before the value of one.
    Before,
    // Inside so many lists and objects of such a value, and one.
    Inside(usize),
}

// Where the next token stands.
pub(crate) fn behind(place: Place, token: Token<'_>) -> Result<Place, Memory>
    ensures { IfOk result (λ next. next ≡ behind place (token_of token.entry)) }
{
    match token {
        Token::BeginObject | Token::BeginArray => opened(place),
        Token::EndObject | Token::EndArray => Ok(closed(place)),
        Token::Key(key) => Ok(behind_key(key, place)),
        _ => Ok(behind_one(place)),
    }
}

fn opened(place: Place) -> Result<Place, Memory>
    ensures { IfOk result (λ next. next ≡ opened place) }
{
    match place {
        Place::Outside => Ok(Place::Outside),
        Place::Before => Ok(Place::Inside(0)),
        Place::Inside(level) => match level.checked_add(1) {
            Some(more) => Ok(Place::Inside(more)),
            None => Err(AllocError),
        },
    }
}

fn closed(place: Place) -> Place
    ensures { result ≡ closed place }
{
    match place {
        Place::Outside | Place::Before => Place::Outside,
        Place::Inside(level) => less(level),
    }
}

fn less(level: usize) -> Place
    ensures { result ≡ less level }
{
    if level == 0 {
        Place::Outside
    } else {
        Place::Inside(level - 1)
    }
}

fn behind_key(key: &str, place: Place) -> Place
    ensures { result ≡ behind_key key.now place }
{
    match place {
        Place::Outside => {
            if stays(key) {
                Place::Before
            } else {
                Place::Outside
            }
        }
        Place::Before => Place::Outside,
        Place::Inside(level) => Place::Inside(level),
    }
}

fn behind_one(place: Place) -> Place
    ensures { result ≡ behind_one place }
{
    match place {
        Place::Outside | Place::Before => Place::Outside,
        Place::Inside(level) => Place::Inside(level),
    }
}

// Whether the member of a key stays as it is.
fn stays(key: &str) -> bool
    ensures { result ≡ stays key.now }
{
    key == "contract" || key == "minTime"
}
