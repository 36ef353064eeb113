//! What each form is written as.
ghost use Rattle.std.specs.Prelude.{◌≡◌, true, ⊤, Ok};
ghost use Rattle.contract.specs.Tree.{value_tree, observation_tree, action_tree, case_tree, contract_tree};
ghost use Rattle.json_read_names.specs.ReadsNames as reads;
ghost use Rattle.json_read_values.specs.ReadsValue as value_reads;
ghost use Rattle.json_read_values.specs.ReadsAction.{action};
ghost use Rattle.json_read_contracts.specs.ReadsContract as contract_reads;
ghost use Rattle.json_read_inputs.specs.ReadsInput as input_reads;
ghost use Rattle.json_read_inputs.specs.ReadsState as state_reads;
ghost use Rattle.json_write_contracts.specs.WrittenNames as written_names;
ghost use Rattle.json_write_contracts.specs.WrittenValues as written_values;
ghost use Rattle.json_write_contracts.specs.WrittenContract as written_contracts;
ghost use Rattle.json_write_contracts.specs.WrittenValues.{value_fits, observation_fits};
ghost use Rattle.json_write_contracts.specs.WrittenContract.{bound_fits, action_fits, case_fits, contract_fits};
ghost use Rattle.json_write_outcomes.specs.WrittenOutcome.{payment_json, warning_json, state_json, state_fits, outcome_json};
ghost use Rattle.contract_json.specs.WrittenInput.{input_json, input_fits, transaction_json, transaction_fits};

use crate::inputs::{put_input, put_transaction};
use crate::put_json::PutJson;
use contract::{
    Action, Bound, Case, ChoiceId, Contract, Input, Observation, Outcome, Party, Payee, Payment,
    State, Token, Transaction, Value, Warning,
};
use json::Writer;
use json_write_contracts::{
    WriteFault, put_action, put_bound, put_case, put_choice_id, put_contract, put_observation,
    put_party, put_payee, put_token, put_value,
};
use json_write_outcomes::{put_outcome, put_payment, put_state, put_warning};
use std::alloc::Global;

/// A party.
impl PutJson for Party {
    ghost json = { written_names.party_json };

    ghost fits = { λ _. true };

    ghost reads_as = { λ p d. reads.party d ≡ Ok p };

    #[tactic(auto, using(crate::proofs::ReadableLemmas::readable, crate::proofs::Returned::names_returned))]
    fn put(&self, alloc: Global, out: &mut Writer) -> Result<(), WriteFault> {
        put_party(out, self)?;
        Ok(())
    }
}

/// A token: its currency symbol in lower-case hexadecimal.
impl PutJson for Token {
    ghost json = { written_names.token_json };

    ghost fits = { λ _. true };

    ghost reads_as = { λ t d. reads.token d ≡ Ok t };

    #[tactic(auto, using(crate::proofs::ReadableLemmas::readable))]
    fn put(&self, alloc: Global, out: &mut Writer) -> Result<(), WriteFault> {
        put_token(alloc, out, self)?;
        Ok(())
    }
}

/// A choice id.
impl PutJson for ChoiceId {
    ghost json = { written_names.choice_id_json };

    ghost fits = { λ _. true };

    ghost reads_as = { λ id d. reads.choice_id d ≡ Ok id };

    #[tactic(auto, using(crate::proofs::ReadableLemmas::readable, crate::proofs::Returned::names_returned))]
    fn put(&self, alloc: Global, out: &mut Writer) -> Result<(), WriteFault> {
        put_choice_id(out, self)?;
        Ok(())
    }
}

/// A payee.
impl PutJson for Payee {
    ghost json = { written_names.payee_json };

    ghost fits = { λ _. true };

    ghost reads_as = { λ p d. reads.payee d ≡ Ok p };

    #[tactic(auto, using(crate::proofs::ReadableLemmas::readable, crate::proofs::Returned::names_returned))]
    fn put(&self, alloc: Global, out: &mut Writer) -> Result<(), WriteFault> {
        put_payee(out, self)?;
        Ok(())
    }
}

/// A bound. An end that doesn't lie from -2^63 to 2^64 - 1 is out of range.
impl PutJson for Bound {
    ghost json = { written_contracts.bound_json };

    ghost fits = { bound_fits };

    ghost reads_as = { λ b d. reads.bound d ≡ Ok b };

    #[tactic(auto, using(crate::proofs::ReadableLemmas::readable, crate::proofs::Returned::names_returned))]
    fn put(&self, alloc: Global, out: &mut Writer) -> Result<(), WriteFault> {
        put_bound(out, self)
    }
}

/// A value (Marlowe specification version 3, "Values and observations"): a constant as a number, and each other form
/// as an object or a word of its own. A constant that doesn't lie from -2^63 to 2^64 - 1 is out of range.
impl PutJson for Value {
    ghost json = { λ v. written_values.value_json (value_tree v) };

    ghost fits = { λ v. value_fits (value_tree v) };

    ghost reads_as = { λ v d. value_reads.value d ≡ Ok v };

    #[tactic(auto, using(crate::proofs::ReadableLemmas::readable, crate::proofs::Returned::values_returned))]
    fn put(&self, alloc: Global, out: &mut Writer) -> Result<(), WriteFault> {
        put_value(alloc, out, self)
    }
}

/// An observation (Marlowe specification version 3, "Values and observations"): `true`, `false`, or an object. A constant
/// in it that doesn't lie from -2^63 to 2^64 - 1 is out of range.
impl PutJson for Observation {
    ghost json = { λ o. written_values.observation_json (observation_tree o) };

    ghost fits = { λ o. observation_fits (observation_tree o) };

    ghost reads_as = { λ o d. value_reads.observation d ≡ Ok o };

    #[tactic(auto, using(crate::proofs::ReadableLemmas::readable, crate::proofs::Returned::values_returned))]
    fn put(&self, alloc: Global, out: &mut Writer) -> Result<(), WriteFault> {
        put_observation(alloc, out, self)
    }
}

/// An action (Marlowe specification version 3, "Actions and inputs"). A number in it that doesn't lie from -2^63 to
/// 2^64 - 1 is out of range.
impl PutJson for Action {
    ghost json = { λ a. written_contracts.action_json (action_tree a) };

    ghost fits = { λ a. action_fits (action_tree a) };

    ghost reads_as = { λ a d. action d ≡ Ok a };

    #[tactic(auto, using(crate::proofs::ReadableLemmas::readable, crate::proofs::Returned::contracts_returned))]
    fn put(&self, alloc: Global, out: &mut Writer) -> Result<(), WriteFault> {
        put_action(alloc, out, self)
    }
}

/// A case: its action, and the contract that is gone on with. A number in them that doesn't lie from -2^63 to 2^64 - 1
/// is out of range.
impl PutJson for Case {
    ghost json = { λ k. written_contracts.case_json (case_tree k) };

    ghost fits = { λ k. case_fits (case_tree k) };

    ghost reads_as = { λ k d. contract_reads.case d ≡ Ok k };

    #[tactic(auto, using(crate::proofs::ReadableLemmas::readable, crate::proofs::Returned::contracts_returned))]
    fn put(&self, alloc: Global, out: &mut Writer) -> Result<(), WriteFault> {
        put_case(alloc, out, self)
    }
}

/// A contract (Marlowe specification version 3, "Contracts"). A number in it that doesn't lie from -2^63 to 2^64 - 1
/// is out of range.
impl PutJson for Contract {
    ghost json = { λ c. written_contracts.contract_json (contract_tree c) };

    ghost fits = { λ c. contract_fits (contract_tree c) };

    ghost reads_as = { λ c d. contract_reads.contract d ≡ Ok c };

    #[tactic(auto, using(crate::proofs::ReadableLemmas::readable, crate::proofs::Returned::contracts_returned))]
    fn put(&self, alloc: Global, out: &mut Writer) -> Result<(), WriteFault> {
        put_contract(alloc, out, self)
    }
}

/// An input (Marlowe specification version 3, "Actions and inputs"). An amount or a choice that doesn't lie from -2^63
/// to 2^64 - 1 is out of range.
impl PutJson for Input {
    ghost json = { input_json };

    ghost fits = { input_fits };

    ghost reads_as = { λ i d. input_reads.input d ≡ Ok i };

    #[tactic(auto, using(crate::proofs::ReadableLemmas::readable, crate::proofs::Returned::inputs_returned))]
    fn put(&self, alloc: Global, out: &mut Writer) -> Result<(), WriteFault> {
        put_input(alloc, out, self)
    }
}

/// A transaction: its interval, and its inputs in order. A number of an input that doesn't lie from -2^63 to 2^64 - 1
/// is out of range.
impl PutJson for Transaction {
    ghost json = { transaction_json };

    ghost fits = { transaction_fits };

    ghost reads_as = { λ t d. input_reads.transaction d ≡ Ok t };

    #[tactic(auto, using(crate::proofs::ReadableLemmas::readable, crate::proofs::Returned::inputs_returned))]
    fn put(&self, alloc: Global, out: &mut Writer) -> Result<(), WriteFault> {
        put_transaction(alloc, out, self)?;
        Ok(())
    }
}

/// A payment. An amount that JSON doesn't have is a text of its decimal digits.
impl PutJson for Payment {
    ghost json = { payment_json };

    ghost fits = { λ _. true };

    ghost reads_as = { λ _ _. ⊤ };

    #[tactic(auto, using(crate::proofs::ReadableLemmas::readable))]
    fn put(&self, alloc: Global, out: &mut Writer) -> Result<(), WriteFault> {
        put_payment(alloc, out, self)?;
        Ok(())
    }
}

/// A warning (Marlowe specification version 3, "Compute transaction"): an object with its name under the key `warning`,
/// beside what it says. A number that JSON doesn't have is a text of its decimal digits.
impl PutJson for Warning {
    ghost json = { warning_json };

    ghost fits = { λ _. true };

    ghost reads_as = { λ _ _. ⊤ };

    #[tactic(auto, using(crate::proofs::ReadableLemmas::readable))]
    fn put(&self, alloc: Global, out: &mut Writer) -> Result<(), WriteFault> {
        put_warning(alloc, out, self)?;
        Ok(())
    }
}

/// A state, the rows of each map in the order of their keys. A number that JSON doesn't have is a text of its decimal
/// digits; such a state is read again where texts may be numbers (`state_is_read_back`).
impl PutJson for State {
    ghost json = { state_json };

    ghost fits = { λ _. true };

    ghost reads_as = { λ s d. state_fits s ≡ true → state_reads.state d ≡ Ok s };

    #[tactic(auto, using(crate::proofs::ReadableLemmas::readable, crate::proofs::Returned::state_returned))]
    fn put(&self, alloc: Global, out: &mut Writer) -> Result<(), WriteFault> {
        // touch: the accounts are above 0
        let _accounts = self.accounts();
        put_state(alloc, out, self)?;
        Ok(())
    }
}

/// An outcome: the contract that remains, the payments and the warnings in order, and the state. A number of the contract
/// that doesn't lie from -2^63 to 2^64 - 1 is out of range.
impl<'a> PutJson for Outcome<&'a Contract> {
    ghost json = { λ o. outcome_json o.warnings o.payments o.state (contract_tree o.place.now) };

    ghost fits = { λ o. contract_fits (contract_tree o.place.now) };

    ghost reads_as = { λ _ _. ⊤ };

    #[tactic(auto, using(crate::proofs::ReadableLemmas::readable))]
    fn put(&self, alloc: Global, out: &mut Writer) -> Result<(), WriteFault> {
        put_outcome(alloc, out, self)
    }
}
