//! Notes.
use analysis_spec::PathStep;
use contract::{ChoiceId, Items, Text};

/// Where a number comes from that values read: a Let binds it to a name, or a choice is made.
#[derive(Debug, Drop)]
pub enum Source {
    /// A name.
    Name(Text),
    /// A choice.
    Choice(ChoiceId),
}

/// What is noted of a name or a choice.
#[derive(Debug, Drop)]
pub enum Remark {
    /// It is read, and nothing on the way binds or makes it, so it reads 0.
    Unbound(Source),
    /// It is bound or made, and nothing behind reads its number.
    Unread(Source),
}

/// A note, and its place: of what a case waits for the action.
#[derive(Debug, Drop)]
pub struct Note {
    pub place: Items<PathStep>,
    pub remark: Remark,
}
