//! Which request a line is.
ghost use Rattle.std.specs.Prelude.{◌≡◌, IfSome, option_map};
ghost use Rattle.json_tree.specs.View.{view};
ghost use Rattle.requests.specs.Requests.{request_of, other_request, is_object, IsMember};

use json_tree::{Json, JsonValue};

/// What is asked.
#[derive(Clone, Copy, Debug, PartialEq, Eq)]
pub enum Kind {
    /// One transaction.
    Run = 1,
    /// Transactions one after another.
    Trace = 2,
    /// What can be done next.
    Next = 3,
    /// The table of a contract.
    Table = 4,
    /// What a contract can warn of and pay.
    Analyse = 5,
    /// A scenario.
    Play = 6,
    /// The canonical text of a value.
    Read = 7,
    /// The one encoding of a value, and its digest.
    Bytes = 8,
    /// A contract gets a name.
    Define = 9,
    /// A name is taken away.
    Forget = 10,
}

/// Whether a value is an object.
pub fn is_object(json: &Json<'_>) -> bool
    ensures { result ≡ is_object (view json.now) }
{
    match json {
        Json::Object(_) => true,
        _ => false,
    }
}

/// What a line asks, and what stands at its key. Of several keys the first one counts, in the order of `Kind`. The others, and
/// those of no request, are passed over.
#[tactic(auto, unfolding(crate::specs::Requests::request_of))]
pub fn request<'j, 'a>(line: &'j Json<'a>) -> Option<(Kind, &'j Json<'a>)>
    ensures first { option_map (λ r. (r.0, view r.1.now)) result ≡ request_of (view line.now) }
    ensures member { IfSome result (λ r. IsMember (view line.now) (view r.1.now)) }
{
    if let Some(body) = line.member("run") {
        return Some((Kind::Run, body));
    }
    if let Some(body) = line.member("trace") {
        return Some((Kind::Trace, body));
    }
    if let Some(body) = line.member("next") {
        return Some((Kind::Next, body));
    }
    if let Some(body) = line.member("table") {
        return Some((Kind::Table, body));
    }
    if let Some(body) = line.member("analyse") {
        return Some((Kind::Analyse, body));
    }
    if let Some(body) = line.member("play") {
        return Some((Kind::Play, body));
    }
    other_request(line)
}

// What a line asks that none of the commands answers.
fn other_request<'j, 'a>(line: &'j Json<'a>) -> Option<(Kind, &'j Json<'a>)>
    ensures first { option_map (λ r. (r.0, view r.1.now)) result ≡ other_request (view line.now) }
    ensures member { IfSome result (λ r. IsMember (view line.now) (view r.1.now)) }
{
    if let Some(body) = line.member("read") {
        return Some((Kind::Read, body));
    }
    if let Some(body) = line.member("bytes") {
        return Some((Kind::Bytes, body));
    }
    if let Some(body) = line.member("define") {
        return Some((Kind::Define, body));
    }
    if let Some(body) = line.member("forget") {
        return Some((Kind::Forget, body));
    }
    None
}
