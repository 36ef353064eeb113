//! What reads contracts, states and transactions.
ghost use Rattle.std.specs.Prelude.{◌≡◌};
ghost use Rattle.contract.specs.Collections.Answers.{Aside};
ghost use Rattle.json_tree.specs.View.{view};
ghost use Rattle.marlowe_explain.specs.JsonReadContracts.ReadsContract as contract_reads;
ghost use Rattle.marlowe_explain.specs.JsonReadInputs.ReadsInput as input_reads;
ghost use Rattle.explanations.specs.JsonForms.declared.sort.Sort.TheVariants as sorts;
ghost use Rattle.marlowe_explain.specs.MarloweRun.Start.{state_reading};
ghost use Rattle.refusal_reasons.specs.Reasons.{numbers_of};

use crate::looks::TextReader;
use contract::{Contract, State, Transaction};
use explanations::{Numbers, Sort};
use json_tree::Json;
use marlowe_explain::{
    JsonFault, contract_from_json, state_from_json, state_with_texts_from_json,
    transaction_from_json,
};
use std::alloc::Global;

/// Reads contracts.
#[derive(Clone, Copy)]
pub(crate) struct Contracts;

impl TextReader<Contract> for Contracts {
    ghost reading = { λ _. contract_reads.contract };

    ghost sort = { λ _. sorts.Contract };

    fn sort(&self) -> Sort {
        Sort::Contract
    }

    fn read(&self, alloc: Global, json: &Json<'_>) -> Result<Contract, JsonFault> {
        contract_from_json(alloc, json)
    }
}

/// Reads states.
#[derive(Clone, Copy)]
pub(crate) struct States {
    /// Whether a number may also be a text of its digits.
    pub(crate) texts: bool,
}

impl TextReader<State> for States {
    ghost reading = { λ states. state_reading states.texts };

    ghost sort = { λ states. sorts.State (numbers_of states.texts) };

    fn sort(&self) -> Sort {
        if self.texts {
            Sort::State(Numbers::OrTexts)
        } else {
            Sort::State(Numbers::Whole)
        }
    }

    fn read(&self, alloc: Global, json: &Json<'_>) -> Result<State, JsonFault> {
        if self.texts {
            state_with_texts_from_json(alloc, json)
        } else {
            state_from_json(alloc, json)
        }
    }
}

/// Reads transactions.
#[derive(Clone, Copy)]
pub(crate) struct Transactions;

impl TextReader<Transaction> for Transactions {
    ghost reading = { λ _. input_reads.transaction };

    ghost sort = { λ _. sorts.Transaction };

    fn sort(&self) -> Sort {
        Sort::Transaction
    }

    fn read(&self, alloc: Global, json: &Json<'_>) -> Result<Transaction, JsonFault> {
        transaction_from_json(alloc, json)
    }
}
