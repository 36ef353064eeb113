//! The values of the fault of `play`, one after another.
use collections::Text;
use marlowe_commands::{Cause, PlayFault, SetupRefusal};
use marlowe_run::JsonFault;
use rows_text::{RowFault, texts_of};
use std::alloc::Global;

/// A line of the text of each fault of `play`.
pub fn play_faults(alloc: Global) -> Result<Vec<u8>, RowFault> {
    let faults = [
        PlayFault::Scenario(JsonFault::NoForm),
        PlayFault::Setup(SetupRefusal::Genesis(Cause {
            fault: Text::from_string(String::new(alloc)),
            words: Text::from_string(String::new(alloc)),
        })),
        PlayFault::Memory,
    ];
    let texts = texts_of(alloc, faults.as_slice())?;
    Ok(texts.into_bytes())
}
