//! What a contract can warn of and pay, as `analyse` prints it as JSON.
ghost use Rattle.std.specs.Prelude.{◌≡◌};
ghost use Rattle.contract.specs.Tree.{contract_tree};
ghost use Rattle.json_tree.specs.View.{view};
ghost use Rattle.request_reasons.specs.RequestParts.Answered.{without_feed};
ghost use Rattle.request_reasons.specs.RequestParts.PartsSupport.{AllFit};
ghost use Rattle.request_answers.specs.Asking.{AnalysisPrints, TellsAnalysis, TellsAnalysisFrom, TellsAnalysisOf, is_true_at, telling_of};
ghost use Rattle.request_answers.specs.AskingSupport.{Told};

use contract::{Contract, Party, State};
use json_tree::{Json, JsonValue};
use marlowe_analyse::{Analysed, Telling, analysis_for};
use marlowe_trace::{beside_dropped, has};
use request_reasons::{Definitions, Refusal, contract_at, party_if, state_at, without_feed};
use std::alloc::Global;

// The analysis of a contract from a state, as JSON, on a line of so many bytes.
#[tactic(auto, using(crate::proofs::AskingLemmas::part_steps))]
pub(crate) fn analysis(
    alloc: Global,
    texts: bool,
    definitions: &Definitions,
    bytes: usize,
    body: &Json<'_>,
) -> Result<Vec<u8>, Refusal>
    requires { AllFit (view body.now) }
    ensures { Told (TellsAnalysis texts definitions.now (view body.now)) result }
{
    match contract_at(alloc, definitions, body) {
        Ok(given) => {
            let told = analysis_of(alloc, texts, given.contract(), bytes, body);
            beside_dropped(given, told)
        }
        Err(refusal) => Err(refusal),
    }
}

// .. of this contract.
#[tactic(auto, using(crate::proofs::AskingLemmas::part_steps))]
fn analysis_of(
    alloc: Global,
    texts: bool,
    contract: &Contract,
    bytes: usize,
    body: &Json<'_>,
) -> Result<Vec<u8>, Refusal>
    ensures { Told (TellsAnalysisOf texts (view body.now) (contract_tree contract.now)) result }
{
    match state_at(alloc, texts, body) {
        Ok(state) => {
            let told = analysis_from(alloc, contract, &state, bytes, body);
            beside_dropped(state, told)
        }
        Err(refusal) => Err(refusal),
    }
}

// .. from this state, which may be given, and told so.
#[tactic(auto, using(crate::proofs::AskingLemmas::part_steps))]
fn analysis_from(
    alloc: Global,
    contract: &Contract,
    state: &State,
    bytes: usize,
    body: &Json<'_>,
) -> Result<Vec<u8>, Refusal>
    ensures { Told (TellsAnalysisFrom (view body.now) (contract_tree contract.now) state.now) result }
{
    let given = has(body, "state");
    let telling = telling_of(body);
    match party_if(alloc, body) {
        Ok(party) => {
            let told = analysis_told(alloc, contract, state, given, bytes, telling, &party);
            beside_dropped(party, told)
        }
        Err(refusal) => Err(refusal),
    }
}

// .. for this party, if there is one.
fn analysis_told(
    alloc: Global,
    contract: &Contract,
    state: &State,
    given: bool,
    bytes: usize,
    telling: Telling,
    party: &Option<Party>,
) -> Result<Vec<u8>, Refusal>
    ensures { Told (AnalysisPrints telling given (contract_tree contract.now) state.now party.now) result }
{
    match analysis_for(alloc, contract, state, given, bytes, telling, party) {
        Ok(told) => Ok(line_of(told)),
        Err(_) => Err(Refusal::Memory),
    }
}

// What is printed, without its line feed.
fn line_of(told: Analysed) -> Vec<u8>
    ensures { result.items ≡ without_feed told.text.items }
{
    let Analysed { text, .. } = told;
    without_feed(text)
}

// How it is told: to tools, with all alarms; without runs where `no_runs` is true, and with notes where `notes` is.
fn telling_of(body: &Json<'_>) -> Telling
    ensures { result ≡ telling_of (view body.now) }
{
    Telling {
        tools: true,
        runs: !is_true_at("no_runs", body),
        all: true,
        notes: is_true_at("notes", body),
    }
}

// Whether `true` stands at a key.
fn is_true_at(key: &str, body: &Json<'_>) -> bool
    ensures { result ≡ is_true_at key.now (view body.now) }
{
    match body.member(key) {
        Some(json) => match json.truth() {
            Some(truth) => truth,
            None => false,
        },
        None => false,
    }
}
