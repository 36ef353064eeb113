//! Laws of readings, each the contract of a function that does nothing.
ghost use Rattle.std.specs.Prelude.{◌≡◌};
ghost use Rattle.serde_json.specs.Data.{Data};
ghost use Rattle.json_read_names.specs.Forms.{contract_form, case_form};
ghost use Rattle.json_read_names.specs.Parts.{reading_at};
ghost use Rattle.json_read_contracts.specs.ReadsContract.{contract, case, contract_as, case_by};

/// A contract is read by its form, from what the members at the form's keys stand for; so is a case. The order in
/// which the members of an object stand plays no part.
#[tactic(auto, using(crate::proofs::ContractSteps::contract_steps))]
pub fn contracts_are_read_by_form()
    ensures contracts { (d : Data) → contract d ≡ contract_as (contract_form d) d }
    ensures cases { (d : Data) → case d ≡ case_by (case_form d) d (reading_at contract d) }
{}
