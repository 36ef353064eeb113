//! What the paths of a command line lead to.
use marlowe_commands::Texts;
use marlowe_io::{LoadFault, load_file};
use rows_given::Given;
use std::alloc::Global;
use std::rt::Files;

/// The files that are given, and those that lie where the program runs.
#[derive(Drop)]
pub struct Folder<'g, R> {
    pub rt: &'g R,
    pub given: &'g Given,
}

impl<R: Files + AllocGlobal> Texts for Folder<'_, R> {
    fn text(&self, alloc: Global, path: &str) -> Result<Vec<u8>, LoadFault> {
        match self.given.file(path) {
            Some(text) => Ok(Vec::from_slice(alloc, text)?),
            None => load_file(self.rt, path),
        }
    }
}
