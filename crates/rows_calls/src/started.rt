//! How a chain begins.
use chain::GenesisFault;
use rows_text::RowFault;
use std::alloc::Global;

/// Keeps a chain that was begun: the line that says so, or the fault. It is generic in it, so that no proof walks through its
/// drop.
pub fn started<C: Drop>(
    alloc: Global,
    place: &mut Option<C>,
    chain: Result<C, GenesisFault>,
) -> Result<String, RowFault> {
    match chain {
        Ok(chain) => {
            *place = Some(chain);
            Ok(String::from_str(alloc, "begun")?)
        }
        Err(GenesisFault::Memory) => Err(RowFault::Memory),
        Err(fault) => Ok(format!(in alloc; "refused {fault:?}")?),
    }
}
