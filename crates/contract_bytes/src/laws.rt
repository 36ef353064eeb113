//! Laws of the spelling, each the contract of a function that does nothing.
ghost use Rattle.contract_bytes.specs.Names.{party_bytes, token_bytes, choice_id_bytes, payee_bytes, PartyFits, TokenFits, ChoiceIdFits, PayeeFits};
ghost use Rattle.contract_bytes.specs.Values.{value_bytes, observation_bytes, ValueFits, ObservationFits};
ghost use Rattle.contract_bytes.specs.Trees.{action_bytes, contract_bytes, ActionFits, ContractFits};
ghost use Rattle.contract_bytes.specs.Inputs.{input_bytes, InputFits};
ghost use Rattle.contract_bytes.specs.States.{state_bytes, StateFits};
ghost use Rattle.contract_bytes.specs.Unambiguous.{ReadsOneWay, BeginsNoOther};
ghost use Rattle.contract_bytes.specs.Worked.{Closes, Waits, Addresses, AdaIsZeros, Notifies, EmptyIsZeros, MinusOneIsOnes, GreatestNumber, LeastTime};

/// Among values whose numbers fit 16 bytes, whose times fit 8 and whose lengths are below 2^64, what
/// begins with a spelling begins with that of one value of its sort alone, and what follows is
/// determined.
#[tactic(auto, using(crate::proofs::ApartNames::parties_read_one_way, crate::proofs::ApartNames::tokens_read_one_way, crate::proofs::ApartNames::choice_ids_read_one_way, crate::proofs::ApartNames::payees_read_one_way, crate::proofs::ApartNames::inputs_read_one_way, crate::proofs::ApartNames::states_read_one_way, crate::proofs::ApartTrees::values_read_one_way, crate::proofs::ApartTrees::observations_read_one_way, crate::proofs::ApartTrees::actions_read_one_way, crate::proofs::ApartTrees::contracts_read_one_way))]
pub fn spellings_read_one_way()
    ensures parties { ReadsOneWay PartyFits party_bytes }
    ensures tokens { ReadsOneWay TokenFits token_bytes }
    ensures choice_ids { ReadsOneWay ChoiceIdFits choice_id_bytes }
    ensures payees { ReadsOneWay PayeeFits payee_bytes }
    ensures values { ReadsOneWay ValueFits value_bytes }
    ensures observations { ReadsOneWay ObservationFits observation_bytes }
    ensures actions { ReadsOneWay ActionFits action_bytes }
    ensures contracts { ReadsOneWay ContractFits contract_bytes }
    ensures inputs { ReadsOneWay InputFits input_bytes }
    ensures states { ReadsOneWay StateFits state_bytes }
{}

/// Among such values, no spelling begins the spelling of another value of its sort; two values with one
/// spelling are the same.
pub fn no_spelling_begins_another()
    ensures parties { BeginsNoOther PartyFits party_bytes }
    ensures tokens { BeginsNoOther TokenFits token_bytes }
    ensures choice_ids { BeginsNoOther ChoiceIdFits choice_id_bytes }
    ensures payees { BeginsNoOther PayeeFits payee_bytes }
    ensures values { BeginsNoOther ValueFits value_bytes }
    ensures observations { BeginsNoOther ObservationFits observation_bytes }
    ensures actions { BeginsNoOther ActionFits action_bytes }
    ensures contracts { BeginsNoOther ContractFits contract_bytes }
    ensures inputs { BeginsNoOther InputFits input_bytes }
    ensures states { BeginsNoOther StateFits state_bytes }
{}

/// Worked spellings, each computed on the definitions.
pub fn worked_spellings()
    ensures close { Closes }
    ensures when { Waits }
    ensures address { Addresses }
    ensures ada { AdaIsZeros }
    ensures notify { Notifies }
    ensures empty_state { EmptyIsZeros }
    ensures minus_one { MinusOneIsOnes }
    ensures greatest_number { GreatestNumber }
    ensures least_time { LeastTime }
{}
