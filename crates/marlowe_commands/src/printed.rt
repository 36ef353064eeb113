//! What is printed.

/// What a command prints, and its status: 0 for a text on standard output, 3 for an analysis there that has alarms, and 2 for a file that
/// can't be read or a fault of the command line. For people a refusal is on standard error, with status 1, maybe behind outcomes on standard
/// output and before lines that explain it. For tools it is the last line of standard output, with status 1, or 4 where a text isn't read.
#[derive(Drop)]
pub struct Printed {
    pub output: Vec<u8>,
    pub errors: Vec<u8>,
    pub status: u8,
    /// Whether a text isn't read: then there are no notes on the others.
    pub unread: bool,
}
