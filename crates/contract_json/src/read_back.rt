//! States that were written are read as they were, where texts may be numbers.
ghost use Rattle.std.specs.Prelude.{◌≡◌, true, All, FitsSigned, Ok};
ghost use Rattle.std.specs.FinMap.{entries};
ghost use Rattle.std.specs.Int.{w128};
ghost use Rattle.contract.specs.States.States.{AllPositive};
ghost use Rattle.json_read_inputs.specs.ReadsState as state_reads;
ghost use Rattle.json_write_contracts.specs.WrittenNames.{time_fits};
ghost use Rattle.json_write_outcomes.specs.Each.{HasBytes};
ghost use Rattle.json_write_outcomes.specs.WrittenOutcome.{state_json};
ghost use Rattle.contract_json.specs.Readable.{HasBits};

use contract::{Account, ChoiceId, State, Text};
use json_write_contracts::symbol_is_bytes;

fn see_number(number: i128)
    ensures { FitsSigned w128 number }
{
    let _ = number;
}

fn see_time(time: i64)
    ensures { time_fits time ≡ true }
{
    let _ = time;
}

// An entry of a map, with a number.
trait Numbered {
    // What is known of it.
    ghost Bits: { Self → Type 0 };

    // It is so. This only reads it.
    fn see(&self)
        ensures { Bits self.now };
}

impl Numbered for (Account, i128) {
    ghost Bits = { HasBits };

    fn see(&self) {
        let (_, number) = self;
        see_number(*number)
    }
}

impl Numbered for (ChoiceId, i128) {
    ghost Bits = { HasBits };

    fn see(&self) {
        let (_, number) = self;
        see_number(*number)
    }
}

impl Numbered for (Text, i128) {
    ghost Bits = { HasBits };

    fn see(&self) {
        let (_, number) = self;
        see_number(*number)
    }
}

// touch of each: its number has 128 bits
fn see_numbers<E: Numbered>(entries: &[E])
    ensures { All E.Bits entries.now }
{
    for entry in entries {
        entry.see();
    }
}

// touch of each: its symbol is bytes
fn see_symbols(accounts: &[(Account, i128)])
    ensures { All HasBytes accounts.now }
{
    for entry in accounts {
        symbol_is_bytes(&entry.0.token);
    }
}

fn see_accounts(state: &State)
    ensures bytes { All HasBytes (entries state.now.accounts) }
    ensures bits { All HasBits (entries state.now.accounts) }
    ensures positive { AllPositive (entries state.now.accounts) }
{
    let accounts = state.accounts();
    see_symbols(accounts);
    see_numbers(accounts);
}

fn see_choices(state: &State)
    ensures { All HasBits (entries state.now.choices) }
{
    see_numbers(state.choices())
}

fn see_bound_values(state: &State)
    ensures { All HasBits (entries state.now.bound_values) }
{
    see_numbers(state.bound_values())
}

fn see_min_time(state: &State)
    ensures { time_fits state.now.min_time ≡ true }
{
    see_time(state.min_time())
}

/// It does nothing: its clause says that the JSON value that is written for a state is read as this state, where a number may
/// be a text of its digits. It goes over the state twice, and takes no memory.
#[tactic(auto, using(crate::proofs::Returned::texts_returned))]
pub fn state_is_read_back(state: &State)
    ensures { state_reads.state_with_texts (state_json state.now) ≡ Ok state.now }
{
    see_accounts(state);
    see_choices(state);
    see_bound_values(state);
    see_min_time(state);
}
