//! Spellings.

/// How what is told of a play is spelled.
#[derive(Clone, Copy, Debug, Drop)]
pub enum Spelling {
    /// Lines for people.
    Lines,
    /// An object of JSON a line, for tools.
    Objects,
}
