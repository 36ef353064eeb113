//! What holds of every contract that can be written, and of contracts that nest no deeper than 127: laws of the definitions, each
//! the contract of a function that does nothing.
ghost use Rattle.std.specs.Prelude.{◌≡◌, ℕ, Bool, List, true, Some};
ghost use Rattle.contract.specs.Tree.{ContractTree};
ghost use Rattle.semantics.specs.Evaluation.Path.{Turn, along};
ghost use Rattle.json_write_contracts.specs.WrittenContract.{contract_fits};
ghost use Rattle.marlowe_run.specs.Run.{run_by, run_within, within_127};
ghost use Rattle.marlowe_run.specs.Start.{state_reading};
ghost use Rattle.marlowe_run.specs.TableText.{table_text, table_text_within};

/// A part of a contract that can be written can be written: JSON has all its numbers. So a contract that was read is
/// written again wherever a transaction leaves it.
#[tactic(auto, using(crate::proofs::PartsFit::parts_fit))]
pub fn parts_can_be_written()
    ensures { (c : ContractTree) (turns : List Turn) (d : ContractTree)
        → contract_fits c ≡ true → along c turns ≡ Some d → contract_fits d ≡ true }
{}

/// Contracts that nest no deeper than 127 are run as `run` and `run_with_texts` have it, and have the table of `table_text`.
#[tactic(auto, using(crate::proofs::WithinLaws::runs_127, crate::proofs::WithinLaws::tables_127))]
pub fn runs_within_127()
    ensures runs { (texts : Bool) (c s t : List ℕ) → run_within (within_127 texts) c s t ≡ run_by (state_reading texts) c s t }
    ensures tables { (text : List ℕ) → table_text_within 127 text ≡ table_text text }
{}
