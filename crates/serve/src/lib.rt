//! Requests that come one a line, and their answers, one a line too.
//!
//! `answer` has the answer to one line: it is a function of the line, its number and the contracts that are named, as
//! `specs/Answers.antt` says, and what it tells is what the commands print. `serve` reads lines from a source and writes their answers to a
//! sink. Scenarios are played by a `Player` that is given to `answer_with` and `serve_with`; the other two have none.
#![tactic(auto)]

mod defining;
mod line_answers;
mod stream;

pub use line_answers::{answer, answer_too_long, answer_with};
pub use lines_in::LONGEST_LINE;
pub use marlowe_io::{
    LoadFault, ReaderSource, ShortSink, ShortSource, Sink, WriterSink, emit, output,
};
pub use request_answers::{
    Analysed, Asked, Behind, Definitions, Json, JsonValue, NoPlayer, Numbers, Over, PlayAnswer,
    Player, Readable, ScenarioSort, Sort, Source, Sources, Spelling, Telling, Traced, analyse_text,
    beside_dropped, from_slice, lines_object, members, named_members, next, put_next, reasons,
    refused_line, run_within, scenario_reasons, scenario_told, status, table_reasons,
    table_text_within, text_if, trace,
};
pub use stream::{Ended, serve, serve_with};
