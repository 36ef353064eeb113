//! The files of a scenario.
ghost use Rattle.std.specs.Prelude.{◌≡◌, ◌≢◌, ◌<◌, None, Some, length, map, IfOk, IfErr, IfSome, MatchResult};
ghost use Rattle.file_parts.specs.Files.{HasFiles, seen, text_of};
ghost use Rattle.json_read_names.specs.declared.fault.JsonFault.TheVariants as json;
ghost use Rattle.json_read_names.specs.ReadsText.{of_text_within};
ghost use Rattle.json_read_contracts.specs.ReadsContract as reads;
ghost use Rattle.scenario_files.specs.ScenarioFiles.{IsFaultOf, IsNoContract, IsWithFiles, beside, fault_of, fault_or, file_fault, first_fault, named_files};
ghost use Rattle.scenario_files.specs.declared.fault.FilesFault.TheVariants as faults;

use crate::fault::FilesFault;
use contract::{Memory, TryClone};
use contract_json::read_contract_within;
use file_parts::{FileName, FileText};
use json_read_names::JsonFault;
use std::alloc::Global;

/// The contracts of a scenario's text that are given as files, in the order of the text, where lists and objects nest no deeper than `depth`. What isn't
/// read has none: the reader of scenarios tells why.
pub fn files_of(alloc: Global, scenario: &[u8], depth: usize) -> Result<Vec<FileName>, Memory>
    ensures { IfOk result (λ files. map seen files.items ≡ named_files depth scenario.now) }
{
    match simdutf8::compat::from_utf8(scenario) {
        Ok(text) => file_parts::files_of(alloc, text, depth),
        Err(_) => Ok(Vec::new(alloc)),
    }
}

/// A scenario's text with the text of each file in the place of what names it, line feeds as blanks. The files are beside their texts. Each is
/// a contract, which nests at most `depth` - 3 deep; of several that aren't the first is told. A scenario that isn't UTF-8 is `NotJoined`. Behind
/// a want of memory only `Memory` is.
#[tactic(auto, using(crate::proofs::FileLemmas::is_fault))]
pub fn with_files(
    alloc: Global,
    scenario: &[u8],
    depth: usize,
    files: &[FileName],
    texts: &[Vec<u8>],
) -> Result<Vec<u8>, FilesFault>
    ensures ok { IfOk result (λ text. IsWithFiles depth scenario.now files.now (map (λ t. t.items) texts.now) text.items) }
    ensures err { IfErr result (IsFaultOf depth files.now (map (λ t. t.items) texts.now)) }
{
    match each_is_contract(alloc, depth, files, texts) {
        Ok(()) => joined(alloc, scenario, depth, files, texts),
        Err(fault) => Err(fault),
    }
}

// Each file is a contract.
#[tactic(auto, using(crate::proofs::FileLemmas::fault_here, crate::proofs::FileLemmas::fault_out))]
fn each_is_contract(
    alloc: Global,
    depth: usize,
    files: &[FileName],
    texts: &[Vec<u8>],
) -> Result<(), FilesFault>
    ensures { MatchResult result (λ _. first_fault depth files.now (map (λ t. t.items) texts.now) ≡ None)
        (λ fault. fault ≢ faults.Memory → first_fault depth files.now (map (λ t. t.items) texts.now) ≡ Some fault) }
{
    for (index, file) in files.iter().enumerate() {
        if index >= texts.len() {
            return Ok(());
        }
        is_contract(alloc, depth, file, &texts[index])?;
    }
    Ok(())
}

fn is_contract(
    alloc: Global,
    depth: usize,
    file: &FileName,
    text: &Vec<u8>,
) -> Result<(), FilesFault>
    ensures { MatchResult result (λ _. file_fault depth text.now.items ≡ None)
        (λ fault. fault ≢ faults.Memory → fault_or file.now.contract (file_fault depth text.now.items) None ≡ Some fault) }
{
    match fault_in(alloc, text.as_slice(), depth.saturating_sub(3)) {
        None => Ok(()),
        Some(JsonFault::Memory) => Err(FilesFault::Memory),
        Some(fault) => Err(FilesFault::Contract(file.contract.try_clone()?, fault)),
    }
}

// The fault of a text that is no contract.
#[tactic(auto, using(crate::proofs::FileLemmas::fault_aside))]
fn fault_in(alloc: Global, text: &[u8], depth: usize) -> Option<JsonFault>
    ensures { result ≢ Some json.Memory → fault_of (of_text_within depth reads.contract text.now) ≡ result }
{
    fault_of(read_contract_within(alloc, text, depth))
}

// dropped once: what was read is dropped here alone, as it may be a tree
fn fault_of<T: Drop>(reading: Result<T, JsonFault>) -> Option<JsonFault>
    ensures { result ≡ fault_of reading }
{
    match reading {
        Ok(_) => None,
        Err(fault) => Some(fault),
    }
}

/// Where the first of these texts is that is no contract, for who says why; none where each is one, or for want of memory.
pub fn first_unread(alloc: Global, depth: usize, texts: &[Vec<u8>]) -> Option<usize>
    ensures { IfSome result (λ at. at < length texts.now) }
{
    for (at, text) in texts.iter().enumerate() {
        let fault = fault_in(alloc, text.as_slice(), depth.saturating_sub(3));
        if fault.is_some() {
            return Some(at);
        }
    }
    None
}

fn joined(
    alloc: Global,
    scenario: &[u8],
    depth: usize,
    files: &[FileName],
    texts: &[Vec<u8>],
) -> Result<Vec<u8>, FilesFault>
    ensures ok { IfOk result (λ text. HasFiles depth scenario.now (beside files.now (map (λ t. t.items) texts.now)) text.items) }
    ensures err { IfErr result IsNoContract }
{
    let Ok(text) = simdutf8::compat::from_utf8(scenario) else {
        return Err(FilesFault::NotJoined);
    };
    let texts = placed(alloc, files, texts)?;
    Ok(file_parts::with_files(alloc, text, depth, texts.as_slice())?)
}

// The texts with their paths.
#[tactic(auto, using(crate::proofs::FileLemmas::placed_out, crate::proofs::FileLemmas::placed_past))]
fn placed<'a>(
    alloc: Global,
    files: &'a [FileName],
    texts: &'a [Vec<u8>],
) -> Result<Vec<FileText<'a>>, FilesFault>
    ensures ok { IfOk result (λ placed. map text_of placed.items ≡ beside files.now (map (λ t. t.items) texts.now)) }
    ensures err { IfErr result IsNoContract }
{
    let mut placed = Vec::new(alloc);
    for (index, file) in files.iter().enumerate() {
        if index >= texts.len() {
            return Ok(placed);
        }
        placed.push(file_text(file, &texts[index])?)?;
    }
    Ok(placed)
}

// The text of a file with its path.
fn file_text<'a>(file: &'a FileName, text: &'a Vec<u8>) -> Result<FileText<'a>, FilesFault>
    ensures ok { IfOk result (λ placed. text_of placed ≡ (file.now.path, text.now.items)) }
    ensures err { IfErr result (λ fault. fault ≡ faults.NotJoined) }
{
    match simdutf8::compat::from_utf8(text.as_slice()) {
        Ok(text) => Ok(FileText {
            path: file.path.as_str(),
            text,
        }),
        Err(_) => Err(FilesFault::NotJoined),
    }
}
