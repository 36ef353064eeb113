//! The texts that a task is about.
ghost use Rattle.std.specs.Prelude.{IfOk};
ghost use Rattle.marlowe_commands.specs.Streams.{Shows, streams_of};

use crate::face::Face;
use crate::printed::Printed;
use crate::said::Said;
use crate::texts::Texts;
use marlowe_play::Memory;
use serve::LoadFault;
use std::alloc::{AllocError, Global};

/// Why a task has no text to be about.
#[derive(Clone, Copy)]
pub enum Stop<'a> {
    Unreadable(&'a str),
    Memory,
}

impl From<AllocError> for Stop<'_> {
    fn from(_error: AllocError) -> Self {
        Stop::Memory
    }
}

/// What a path leads to.
pub fn text_of<'a, T: Texts>(alloc: Global, texts: &T, path: &'a str) -> Result<Vec<u8>, Stop<'a>> {
    match texts.text(alloc, path) {
        Ok(text) => Ok(text),
        Err(LoadFault::Unreadable) => Err(Stop::Unreadable(path)),
        Err(LoadFault::Memory) => Err(Stop::Memory),
    }
}

/// What a path leads to, if there is one.
pub fn text_if<'a, T: Texts>(
    alloc: Global,
    texts: &T,
    path: Option<&'a str>,
) -> Result<Option<Vec<u8>>, Stop<'a>> {
    match path {
        Some(path) => Ok(Some(text_of(alloc, texts, path)?)),
        None => Ok(None),
    }
}

/// What each path leads to, in their order.
pub fn texts_of<'a, T: Texts>(
    alloc: Global,
    texts: &T,
    paths: &[&'a str],
) -> Result<Vec<Vec<u8>>, Stop<'a>> {
    let mut found = Vec::new(alloc);
    for path in paths {
        put(&mut found, text_of(alloc, texts, path)?)?;
    }
    Ok(found)
}

/// One text more.
pub fn put(found: &mut Vec<Vec<u8>>, text: Vec<u8>) -> Result<(), Memory> {
    found.push(text)?;
    Ok(())
}

/// What is printed for a file that can't be read.
#[tactic(auto, using(crate::proofs::ShownLemmas::unreadable_shows))]
pub fn unreadable(alloc: Global, path: &str, face: Face) -> Result<Printed, Memory>
    ensures { IfOk result (λ printed. Shows face ⊥ ⊥ (streams_of printed)) }
{
    let said = Said::unreadable(alloc, path)?;
    said.shown(alloc, face, &Vec::new(alloc))
}
