//! How a text is explained.
use json_members::Spelling;

/// How deep lists and objects may nest in a text, and how its explanation is written.
#[derive(Clone, Copy, Debug)]
pub struct How {
    /// A text is read as JSON where they nest no deeper.
    pub depth: usize,
    /// Lines for people, or members for tools.
    pub spelling: Spelling,
}
