//! Texts that come in and go out.
//!
//! A `Source` gives bytes and a `Sink` takes them, some at a call, until a call fails. `load` reads a text from any source, and
//! `emit` writes a text to any sink. Both are proved for every source and sink: a short read or write loses nothing, and a
//! fault is answered exactly where a call has failed. What a file holds or a terminal shows no clause can say, so files and
//! standard output are a source and a sink of bytes that aren't known.
#![tactic(auto)]

mod emitting;
mod file;
mod loading;
mod printed;
mod short;
mod sink;
mod source;

pub use emitting::{Unwritable, emit};
pub use file::{ReaderSource, load_file, open};
pub use loading::{LONGEST, LoadFault, load};
pub use printed::{WriterSink, emit_output, output};
pub use short::{ShortSink, ShortSource};
pub use sink::{Sink, SinkFault};
pub use source::{Source, SourceFault};
