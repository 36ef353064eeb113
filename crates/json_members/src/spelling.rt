//! For whom an explanation is written.

/// How an explanation is written.
#[derive(Clone, Copy, Debug)]
pub enum Spelling {
    /// Lines for people, each behind two blanks and ended by a line feed.
    Lines,
    /// The members of a JSON object for tools, without the braces around them and without a comma before the first.
    Members,
}
