//! Laws of judgements, each the contract of a function that does nothing.
ghost use Rattle.eutxo.specs.Laws.{EqualResolutionsAgree, EqualResolutionsDecideAlike, EqualResolutionsGoOnAlike, ChecksDecide, FoundIsEnough, FoundTellsPlaces, SumsAreTheSame, TheLeastIsNamed};
ghost use Rattle.eutxo.specs.BlockLaws.{BlocksTell, BlocksAreAlike, BlocksStay};
ghost use Rattle.eutxo.specs.OneContract.{OneIsJudgedAlone};
ghost use Rattle.eutxo.specs.Worked.{NothingIsNotUnspent, UsedIsInUse, TenIsOutside, UnpublishedIsUnknown, OverIsNotFollowed, NineAreTooMany, TheLowestAnswers};
ghost use Rattle.eutxo_types.specs.Machine.declared.datum.Datum.{Datum};

use crate::checked::Checked;
use crate::resolved::Resolved;
use crate::validator::Validator;
use eutxo_types::Tx;

/// Resolutions with the same outputs and equal scripts agree on every transaction, and decide it alike, and in them its
/// contracts go on in the same places.
pub fn equal_resolutions_decide_alike<V: Validator>()
    ensures agree { EqualResolutionsAgree V.judges V.eq }
    ensures alike { EqualResolutionsDecideAlike V.judges V.eq }
    ensures places { EqualResolutionsGoOnAlike V.judges V.eq }
{}

/// At every moment, the judgement of a transaction is that of rules 1 to 7, and then the verdict of any check of
/// it whose resolution agrees with what is found at that moment.
#[tactic(auto, using(crate::proofs::JudgementLemmas::checks_decide))]
pub fn checks_decide<V: Validator>()
    ensures { ChecksDecide V.judges }
{}

/// What is found at a moment has all that the rules of a transaction and what it spends read of the ledger.
#[tactic(auto, using(crate::proofs::JudgementLemmas::found_is_enough))]
pub fn found_is_enough<V: Validator>()
    ensures { FoundIsEnough V.judges }
{}

/// What is found at a moment tells in which places the contracts go on that a transaction spends.
#[tactic(auto, using(crate::proofs::JudgementLemmas::found_tells_places))]
pub fn found_tells_places<V: Validator>()
    ensures { FoundTellsPlaces V.judges }
{}

/// Where the rules of steps refuse nothing, no two contracts go on in one output, and in each contract output one does.
/// Blocks depend on what the scripts answer alone that are named, and stay where more is published.
pub fn blocks_tell_contracts_apart<V: Validator>()
    ensures tell { BlocksTell V.judges }
    ensures alike { BlocksAreAlike V.judges }
    ensures stay { BlocksStay V.judges }
{}

/// Where at most one contract is spent, a transaction is judged as if there were no blocks: the contract goes on in
/// output 0, and its payments follow.
pub fn one_contract_is_judged_alone<V: Validator>()
    ensures { OneIsJudgedAlone V.judges }
{}

/// Where the rule on sums refuses nothing, the sums of every token are preserved; and else the token that it
/// names is the least whose sums aren't.
#[tactic(auto, using(crate::proofs::PreservedLemmas::same_totals, crate::proofs::PreservedLemmas::the_least_is_named))]
pub fn sums_are_preserved()
    ensures same { SumsAreTheSame }
    ensures least { TheLeastIsNamed }
{}

/// Worked judgements by the rules that read the ledger, whatever the scripts.
#[tactic(auto, using(crate::proofs::WorkedLemmas::nothing, crate::proofs::WorkedLemmas::used, crate::proofs::WorkedLemmas::ten, crate::proofs::WorkedLemmas::unpublished))]
pub fn worked_judgements<V: Validator>()
    ensures unspent { NothingIsNotUnspent V.judges }
    ensures used { UsedIsInUse V.judges }
    ensures tick { TenIsOutside V.judges }
    ensures published { UnpublishedIsUnknown V.judges }
{}

/// Worked blocks: a contract that is over isn't followed into the next block, eight contracts may be spent and nine may
/// not, and of several faults the lowest number answers, and then the first contract.
pub fn worked_blocks()
    ensures over { (d : Datum) → OverIsNotFollowed d }
    ensures nine { NineAreTooMany }
    ensures lowest { TheLowestAnswers }
{}

// What can be handed to another thread, and lent to several.
fn crosses<T: Send + Sync>() {}

/// Transactions, resolutions and checks can be handed to other threads, and lent to several. It does nothing: it asks
/// here, once, what is needed wherever checks run at once.
pub fn checks_cross_threads<V: Validator + Send + Sync>() {
    crosses::<Tx>();
    crosses::<Resolved<V>>();
    crosses::<Checked<V>>();
}
