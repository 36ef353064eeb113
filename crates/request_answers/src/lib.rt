//! What a request is answered, by its kind: what the command of that name prints of the request's parts, under the request's id; or
//! what is refused, and why. A request is read by `request_parts`, and why it is refused is told by `request_reasons`. Names of
//! contracts are looked up here and never changed: `serve` defines and forgets them. Scenarios are played by a `Player`.
#![tactic(auto)]

mod analysing;
mod asking;
mod commands;
mod definition;
mod encoding;
mod kinds;
mod player;
mod reading;
mod refusing;

pub use definition::definition_at;
pub use kinds::{
    analysis_answer, bytes_answer, next_answer, play_answer, read_answer, run_answer, table_answer,
    trace_answer,
};
pub use line_objects::lines_object;
pub use marlowe_analyse::{Analysed, Telling, analyse_text};
pub use marlowe_trace::{
    Asked, JsonFault, Readable, Traced, beside_dropped, run_within, table_text_within, trace,
    what_is_read_of_parts_can_be_written,
};
pub use player::{NoPlayer, PlayAnswer, Player};
pub use refusal_objects::{members, named_members, refused_line, status};
pub use refusing::refused;
pub use request_reasons::{
    Behind, DefineFault, Definitions, Json, JsonValue, Kind, LineFault, Numbers, Over, Part,
    Refusal, ScenarioSort, Sort, Source, Sources, Spelling, from_slice, id_text, is_object,
    line_json, next, ok_answer, put_next, reasons, refused_answer, request, scenario_reasons,
    scenario_told, table_reasons, text_if,
};
