//! Why a command refuses: a second look at its texts, made only once something is refused. The first text that isn't read is explained;
//! where all are read it is the transaction that is refused, or the contract that has no table. It is written as lines for people, which
//! stand behind the line of the refusal, each behind two blanks and ended by a line feed; or as members of a JSON object for tools.
//! A run and a table can be explained as they are made, so that no text is read twice.
#![tactic(auto)]

mod looks;
mod pieces;
mod readers;
mod reasoned;
mod second_look;
mod sequences;
mod source;
mod texts;

pub use explanations::{
    Json, JsonValue, Numbers, ScenarioSort, Sort, Spelling, Spot, Stop, Told, first_stop,
    from_slice, has, json_of, keys_in, part_members, put_next, scenario_stop,
};
pub use marlowe_explain::{Asked, Fault, Readable, TraceFault, beside_dropped, next, next_after};
pub use reasoned::{Reasoned, run_reasoned, table_reasoned};
pub use second_look::{reasons, table_reasons, table_told, transaction_told};
pub use sequences::read_told;
pub use source::{Behind, Over, Source, Sources, text_if};
pub use texts::{party_reasons, scenario_reasons};
