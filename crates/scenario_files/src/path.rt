//! Where paths lead.
ghost use Rattle.std.specs.Prelude.{◌≡◌, ◌++◌, ◌==◌, IfOk, slice_index, string_bytes};
ghost use Rattle.scenario_files.specs.Paths.{IsBeside, IsFolder, slash};

use contract::Memory;
use std::alloc::Global;

/// Where a path leads that a scenario at another path names: from the folder of the scenario, unless it begins with `/`. Beside `-`, which is standard input,
/// it is the path itself.
pub fn path_beside(alloc: Global, scenario: &str, path: &str) -> Result<String, Memory>
    ensures { IfOk result (λ joined. IsBeside scenario.now path.now (string_bytes joined)) }
{
    let folder = folder_of(alloc, scenario)?;
    if is_absolute(path) {
        String::from_str(alloc, path)
    } else {
        behind(folder, path)
    }
}

fn is_absolute(path: &str) -> bool
    ensures { result ≡ (slice_index path.now 0 == slash) }
{
    let bytes = path.as_bytes();
    !bytes.is_empty() && bytes[0] == b'/'
}

fn behind(folder: String, path: &str) -> Result<String, Memory>
    ensures { IfOk result (λ joined. string_bytes joined ≡ string_bytes folder ++ path.now) }
{
    let mut joined = folder;
    joined.push_str(path)?;
    Ok(joined)
}

// What is up to the last slash.
fn folder_of(alloc: Global, path: &str) -> Result<String, Memory>
    ensures { IfOk result (λ folder. IsFolder path.now (string_bytes folder)) }
{
    match path.rsplit_once('/') {
        Some((front, _)) => format!(in alloc; "{front}/"),
        None => Ok(String::new(alloc)),
    }
}
