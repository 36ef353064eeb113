//! Laws of the spelling, each the contract of a function that does nothing.
ghost use Rattle.machine.specs.ContractBytes.Unambiguous.{ReadsOneWay, BeginsNoOther};
ghost use Rattle.eutxo_types.specs.Spelling.{output_bytes, spend_bytes, tx_bytes};
ghost use Rattle.eutxo_types.specs.Fitting.{OutputFits, SpendFits, TxFits};
ghost use Rattle.eutxo_types.specs.Worked.{BeginsTheLedger, MadeByOneTransaction, NoneIsZero, ClaimIsOne, StepIsTwo, KeyOfX, PayoutOfB, ContractOfZeros, ThirtySixZeros, NothingHeld, FiveAda, OneTransaction};

/// Among transactions whose times fit 8 bytes, whose numbers fit 16, whose lengths and places are below 2^64 and
/// whose ids and digests are of 32 bytes, what begins with a spelling begins with that of one transaction alone, and what
/// follows is determined: so no spelling begins another's, and two transactions with one spelling are the same.
/// The same holds of the inputs and of the outputs among themselves.
#[tactic(auto, using(crate::proofs::SpellingLemmas::inputs_read_one_way, crate::proofs::SpellingLemmas::outputs_read_one_way, crate::proofs::SpellingLemmas::transactions_read_one_way, crate::proofs::SpellingLemmas::transactions_begin_no_other))]
pub fn no_transaction_begins_another()
    ensures inputs { ReadsOneWay SpendFits spend_bytes }
    ensures outputs { ReadsOneWay OutputFits output_bytes }
    ensures one_way { ReadsOneWay TxFits tx_bytes }
    ensures no_other { BeginsNoOther TxFits tx_bytes }
{}

/// Worked spellings, each computed on the definitions.
pub fn worked_transactions()
    ensures genesis { BeginsTheLedger }
    ensures made { MadeByOneTransaction }
    ensures none { NoneIsZero }
    ensures claim { ClaimIsOne }
    ensures step { StepIsTwo }
    ensures key { KeyOfX }
    ensures payout { PayoutOfB }
    ensures contract { ContractOfZeros }
    ensures datum { ThirtySixZeros }
    ensures nothing { NothingHeld }
    ensures five_ada { FiveAda }
    ensures moves { OneTransaction }
{}
