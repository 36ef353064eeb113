//! Which form an intent has: the first whose keys are all there.
ghost use Rattle.std.specs.Prelude.{◌≡◌};
ghost use Rattle.json_read_scenarios.specs.ReadsPlan.{intent_form};

use json_read_names::{has, has_two};
use json_tree::JsonValue;

/// The forms of intents, in the order in which they are sought.
#[derive(Clone, Copy, Debug)]
pub enum IntentForm {
    Step,
    Steps,
    Claim,
    Round,
    Advance,
    Nothing,
}

/// The first form of an intent whose keys are all there.
#[tactic(auto, unfolding(crate::specs::ReadsPlan::intent_form))]
pub fn intent_form<J: JsonValue>(json: &J) -> IntentForm
    ensures { result ≡ intent_form (J.json json.now) }
{
    if has_two(json, "step", "inputs") && has_two(json, "from", "to") {
        IntentForm::Step
    } else if has(json, "steps") && has_two(json, "from", "to") {
        IntentForm::Steps
    } else if has_two(json, "claim", "role") && has_two(json, "from", "to") {
        IntentForm::Claim
    } else if has_two(json, "round", "workers") {
        IntentForm::Round
    } else if has(json, "advance") {
        IntentForm::Advance
    } else {
        IntentForm::Nothing
    }
}
