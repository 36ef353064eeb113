//! What becomes of a command line.
use crate::printed::Printed;
use marlowe_run::Readable;

/// What becomes of a command line.
#[derive(Drop)]
pub enum Command {
    /// This is printed.
    Printed(Printed),
    /// Requests that come on standard input are answered on standard output: lists and objects of a contract may nest so deep, and numbers of
    /// states may be texts where this says so.
    Serve(Readable),
}
