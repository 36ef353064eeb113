//! The contracts of a scenario that are files of their own.
ghost use Rattle.std.specs.Prelude.{◌≡◌, ◌⊎◌, ◌<◌, [], IfOk, IfSome, length, map};
ghost use Rattle.marlowe_commands.specs.Files.{IsFaultShown, IsJoined, TellsFile, files_refused};
ghost use Rattle.marlowe_commands.specs.Streams.{refusal_of, refuses, saying_of, spelling_of, streams_of};

use crate::face::Face;
use crate::printed::Printed;
use crate::said::{Refusal, Said};
use crate::stops::put;
use crate::texts::Texts;
use marlowe_play::Memory;
use scenario_files::{
    FileName, FilesFault, files_members, files_refusal, files_status, first_unread, path_beside,
    with_files,
};
use serve::{LoadFault, Source, Spelling, table_reasons};
use std::alloc::{AllocError, Global};

/// What the files of a scenario hold.
#[derive(Drop)]
pub enum Gathered {
    /// A text for each, in their order.
    Texts(Vec<Vec<u8>>),
    /// The first that can't be read is at this path.
    Unreadable(String),
}

/// What these files hold, which the scenario at a path names.
pub fn gather<T: Texts>(
    alloc: Global,
    texts: &T,
    scenario: &str,
    files: &[FileName],
) -> Result<Gathered, Memory> {
    let mut found = Vec::new(alloc);
    for file in files {
        let path = path_beside(alloc, scenario, file.path.as_str())?;
        match texts.text(alloc, path.as_str()) {
            Ok(text) => put(&mut found, text)?,
            Err(LoadFault::Unreadable) => return Ok(Gathered::Unreadable(path)),
            Err(LoadFault::Memory) => return Err(AllocError),
        }
    }
    Ok(Gathered::Texts(found))
}

/// A scenario with its files, or what is printed where there is none.
#[derive(Drop)]
pub enum Joined {
    /// The scenario's text, with the text of each file in the place of what names it.
    Text(Vec<u8>),
    /// A file is no contract.
    Refused(Printed),
}

/// A scenario's text with the text of each file in the place of what names it, where lists and objects nest no deeper than `depth`; or what is
/// printed of the first file that is no contract. The files are beside their texts.
pub fn scenario_joined(
    alloc: Global,
    scenario: Source<'_>,
    depth: usize,
    files: &[FileName],
    texts: &[Vec<u8>],
    face: Face,
) -> Result<Joined, Memory>
    ensures { IfOk result (IsJoined face depth scenario.entry files.now (map (λ t. t.items) texts.now)) }
{
    match with_files(alloc, scenario.text, depth, files, texts) {
        Ok(text) => Ok(Joined::Text(text)),
        Err(FilesFault::Memory) => Err(AllocError),
        Err(fault) => {
            let told = told_if(alloc, scenario.path, depth, files, texts, face);
            Ok(Joined::Refused(fault_shown(alloc, &fault, face, &told)?))
        }
    }
}

// What is printed of a fault, with what explains it.
fn fault_shown(
    alloc: Global,
    fault: &FilesFault,
    face: Face,
    told: &Vec<u8>,
) -> Result<Printed, Memory>
    ensures { IfOk result (λ printed. IsFaultShown face fault.now told.now.items (streams_of printed)) }
{
    let said = fault_said(alloc, fault)?;
    said.shown(alloc, face, told)
}

fn fault_said(alloc: Global, fault: &FilesFault) -> Result<Said, Memory>
    ensures { IfOk result (λ said. saying_of said ≡ refuses [] (files_refused fault.now)) }
{
    let refusal = refusal_of_files(alloc, fault)?;
    Ok(Said::Refused(Vec::new(alloc), refusal))
}

fn refusal_of_files(alloc: Global, fault: &FilesFault) -> Result<Refusal, Memory>
    ensures { IfOk result (λ refusal. refusal_of refusal ≡ files_refused fault.now) }
{
    Ok(Refusal {
        line: files_refusal(alloc, fault)?,
        status: 1,
        members: files_members(alloc, fault)?,
        tool_status: files_status(fault),
    })
}

// What explains the first file that is no contract, if it is to be explained, and nothing for want of memory.
fn told_if(
    alloc: Global,
    scenario: &str,
    depth: usize,
    files: &[FileName],
    texts: &[Vec<u8>],
    face: Face,
) -> Vec<u8>
    ensures { (result.items ≡ []) ⊎ TellsFile scenario.now depth files.now (map (λ t. t.items) texts.now) (spelling_of face) result.items }
{
    let Some(at) = wanted_at(alloc, depth, files, texts, face) else {
        return Vec::new(alloc);
    };
    match told_at(alloc, scenario, depth, files, texts, at, face.spelling()) {
        Ok(told) => told,
        Err(_) => Vec::new(alloc),
    }
}

// Which file is to be explained, if one is.
fn wanted_at(
    alloc: Global,
    depth: usize,
    files: &[FileName],
    texts: &[Vec<u8>],
    face: Face,
) -> Option<usize>
    ensures { IfSome result (λ at. (at < length files.now) × (at < length texts.now)) }
{
    if face == Face::Plain {
        return None;
    }
    match first_unread(alloc, depth, texts) {
        Some(at) if at < files.len() => Some(at),
        _ => None,
    }
}

// What explains that the file there is no contract.
fn told_at(
    alloc: Global,
    scenario: &str,
    depth: usize,
    files: &[FileName],
    texts: &[Vec<u8>],
    at: usize,
    spelling: Spelling,
) -> Result<Vec<u8>, Memory>
    requires file { at < length files.now }
    requires text { at < length texts.now }
    ensures { IfOk result (λ told. TellsFile scenario.now depth files.now (map (λ t. t.items) texts.now) spelling told.items) }
{
    let path = path_beside(alloc, scenario, files[at].path.as_str())?;
    let source = Source {
        path: path.as_str(),
        text: texts[at].as_slice(),
    };
    table_reasons(alloc, source, depth.saturating_sub(3), spelling)
}
