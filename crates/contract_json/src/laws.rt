//! Laws of texts, each the contract of a function that does nothing.
ghost use Rattle.std.specs.Prelude.{◌≡◌, ℕ, List, true, Some, Ok};
ghost use Rattle.serde_json.specs.Data.{Data};
ghost use Rattle.json_tree.specs.View.{read_within};
ghost use Rattle.contract.specs.declared.tree.Contract.{Contract};
ghost use Rattle.contract.specs.Tree.{contract_tree};
ghost use Rattle.contract_json.specs.PartAt.{part_at};
ghost use Rattle.json_read_contracts.specs.ReadsContract.{contract};
ghost use Rattle.json_read_names.specs.ReadsText.{of_text, of_text_within};
ghost use Rattle.json_write_contracts.specs.WrittenContract.{contract_fits};

/// A contract that was read can be written: JSON has all its numbers.
#[tactic(auto, using(crate::proofs::ReadContractsFit::contracts_read_fit))]
pub fn what_is_read_can_be_written()
    ensures contracts { (text : List ℕ) (c : Contract) → of_text contract text ≡ Ok c → contract_fits (contract_tree c) ≡ true }
{}

/// So can one of any depth.
#[tactic(auto, using(crate::proofs::ReadContractsFit::deep_contracts_fit))]
pub fn what_is_read_within_can_be_written()
    ensures contracts { (n : ℕ) (text : List ℕ) (c : Contract) → of_text_within n contract text ≡ Ok c
        → contract_fits (contract_tree c) ≡ true }
{}

/// So can one that is read of a part of a text's value.
#[tactic(auto, using(crate::proofs::ReadContractsFit::parts_fit))]
pub fn what_is_read_of_parts_can_be_written()
    ensures contracts { (n : ℕ) (text : List ℕ) (whole part : Data) (names : List (List ℕ)) (c : Contract)
        → read_within n text ≡ Some whole → part_at names whole ≡ Some part → contract part ≡ Ok c
        → contract_fits (contract_tree c) ≡ true }
{}

/// A contract that nests no deeper than 127 is read as by every other reader.
#[tactic(auto, using(crate::proofs::ReadContractsFit::at_127))]
pub fn contracts_within_127()
    ensures same { (text : List ℕ) → of_text_within 127 contract text ≡ of_text contract text }
{}
