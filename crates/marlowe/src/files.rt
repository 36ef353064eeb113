//! What paths hold where the program runs.
use marlowe_commands::Texts;
use marlowe_io::{LoadFault, ReaderSource, load, load_file};
use std::alloc::Global;
use std::rt::Files;

/// The files of the machine, and standard input, whose path is `-`.
#[derive(Drop)]
pub struct HostFiles<'r, R> {
    pub rt: &'r R,
}

impl<R: Files + Input + AllocGlobal> Texts for HostFiles<'_, R> {
    fn text(&self, alloc: Global, path: &str) -> Result<Vec<u8>, LoadFault> {
        match path {
            "-" => load(alloc, &mut ReaderSource::new(self.rt.reader())),
            _ => load_file(self.rt, path),
        }
    }
}
