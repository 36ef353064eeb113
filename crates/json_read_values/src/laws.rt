//! Laws of readings, each the contract of a function that does nothing.
ghost use Rattle.std.specs.Prelude.{◌≡◌};
ghost use Rattle.serde_json.specs.Data.{Data};
ghost use Rattle.json_read_names.specs.Forms.{value_form, observation_form};
ghost use Rattle.json_read_values.specs.ReadsValue.{value, observation, value_as, observation_as};

/// A value is read by its form, from what the members at the form's keys stand for; so is an observation. The
/// order in which the members of an object stand plays no part.
#[tactic(auto, using(crate::proofs::ValueSteps::value_steps))]
pub fn values_are_read_by_form()
    ensures values { (d : Data) → value d ≡ value_as (value_form d) d }
    ensures observations { (d : Data) → observation d ≡ observation_as (observation_form d) d }
{}
