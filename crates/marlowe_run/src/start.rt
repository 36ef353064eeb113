//! The state in which transactions start.
ghost use Rattle.std.specs.Prelude.{◌≡◌, option_map};
ghost use Rattle.contract.specs.Collections.Answers.{Aside};
ghost use Rattle.json_read_names.specs.ReadsText.{of_text};
ghost use Rattle.marlowe_run.specs.Start.{start_of, state_reading};

use contract::State;
use contract_json::{JsonFault, read_state, read_state_with_texts};
use std::alloc::Global;

/// Reads the state in which transactions start, of a text of at most 1,048,576 bytes. With `texts` a number of an account, a
/// choice or a bound value may also be a text of its digits, as `read_state_with_texts` has it. Without a text it is the state
/// without entries, at time 0.
pub fn read_start(alloc: Global, state: Option<&[u8]>, texts: bool) -> Result<State, JsonFault>
    ensures reading { Aside JsonFault.Memory result (start_of texts (option_map (λ text. text.now) state.entry)) }
{
    match state {
        Some(text) => read_state_by(alloc, text, texts),
        None => Ok(State::new(alloc, 0)),
    }
}

// The state of a text.
pub(crate) fn read_state_by(alloc: Global, text: &[u8], texts: bool) -> Result<State, JsonFault>
    ensures { Aside JsonFault.Memory result (of_text (state_reading texts) text.now) }
{
    if texts {
        read_state_with_texts(alloc, text)
    } else {
        read_state(alloc, text)
    }
}
