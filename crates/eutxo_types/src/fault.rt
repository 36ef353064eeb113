//! Why a transaction is refused.
ghost use Rattle.std.specs.Prelude.{◌≡◌};
ghost use Rattle.eutxo_types.specs.Numbers.{number};

use contract::{Memory, Party, Same, SemFault, Token, TryClone};
use thiserror::Error;

/// Why the ledger refuses a transaction. Where several faults stand, the one of the lowest number answers (`number`),
/// and among equals the one at the lowest place, of 12 to 15 that of the first contract input; but 12 to 17 are judged
/// only where 19 doesn't stand. Places count inputs, outputs or data from 0. A block is what one contract input makes:
/// blocks of outputs stand one behind another from place 0, in the order of the contract inputs.
#[derive(Debug, PartialEq, Eq, Drop, Error)]
pub enum TxFault {
    /// 1: there is no input.
    #[error("there is no input")]
    NoInputs,
    /// 2: there are more than 256 inputs, or a redeemer has more than 256. The text says inputs of both.
    #[error("there are more than 256 inputs")]
    TooMany,
    /// 3: the input at this place names an output that an earlier one names.
    #[error("input {0} names an output again")]
    RepeatedInput(u64),
    /// 4: the output that the input at this place names isn't unspent.
    #[error("input {0} names no unspent output")]
    NotUnspent(u64),
    /// 5: an accepted transaction has this id.
    #[error("an accepted transaction has this id")]
    IdInUse,
    /// 6: the tick doesn't lie in the interval.
    #[error("the tick lies outside of the interval")]
    OutsideInterval,
    /// 7: the output at this place has a contract lock of a script that is not published.
    #[error("output {0} names a script that is not published")]
    UnknownScript(u64),
    /// 8: the key input at this place is of an address that isn't among the signers.
    #[error("input {0} is not signed")]
    NotSigned(u64),
    /// 9: more than 8 inputs have a contract lock.
    #[error("more than 8 contracts are stepped")]
    TooManyContracts,
    /// 10: the redeemer at this place isn't of its lock's kind.
    #[error("the redeemer of input {0} does not fit its lock")]
    WrongRedeemer(u64),
    /// 11: the payout at this place is spent without its role's token.
    #[error("the role token of input {0} is missing")]
    RoleMissing(u64),
    /// 12: a contract refuses its redeemer's inputs.
    #[error("the contract refuses: {0}")]
    Semantics(SemFault),
    /// 13: an input of the contract needs this party, as the depositor or as the owner of the choice,
    /// and it is neither an address among the signers nor a role whose token a key input's output holds.
    /// Of several the one of the first such input.
    #[error("a party is not authorised")]
    NotAuthorised(Party),
    /// 14: a contract goes on, and the first output of its block isn't the one with which it goes on.
    #[error("no output continues the contract where its block begins")]
    WrongContinuation,
    /// 15: the output at this place isn't the payment that is due there, behind the output in which the contract of
    /// its block goes on.
    #[error("output {0} is not the payment that is due")]
    WrongPayment(u64),
    /// 16: a contract is stepped, and the output at this place has a contract lock and is none in which a contract
    /// of a block goes on.
    #[error("output {0} has a contract lock and continues no contract")]
    StrayContract(u64),
    /// 17: no contract is stepped, and the contract output at this place isn't a start.
    #[error("output {0} does not start the contract")]
    WrongStart(u64),
    /// 18: the inputs' outputs hold another sum of this token than the outputs.
    #[error("the sum of a token is not preserved")]
    NotPreserved(Token),
    /// 19: the data that are brought aren't one for each contract output that is spent, in the order of inputs, and
    /// then one for each that is made, in the order of outputs, each with the digest that its output holds. The place
    /// counts in that list: the first that differs, or the length of the shorter list.
    #[error("datum {0} is not that of its output")]
    WrongDatum(u64),
}

impl TxFault {
    /// Its number, from 1 to 19: of several faults of a transaction the one of the lowest number answers.
    pub fn number(&self) -> u8
        ensures { result ≡ number self.now }
    {
        match self {
            TxFault::NoInputs => 1,
            TxFault::TooMany => 2,
            TxFault::RepeatedInput(_) => 3,
            TxFault::NotUnspent(_) => 4,
            TxFault::IdInUse => 5,
            TxFault::OutsideInterval => 6,
            TxFault::UnknownScript(_) => 7,
            TxFault::NotSigned(_) => 8,
            TxFault::TooManyContracts => 9,
            TxFault::WrongRedeemer(_) => 10,
            TxFault::RoleMissing(_) => 11,
            TxFault::Semantics(_) => 12,
            TxFault::NotAuthorised(_) => 13,
            TxFault::WrongContinuation => 14,
            TxFault::WrongPayment(_) => 15,
            TxFault::StrayContract(_) => 16,
            TxFault::WrongStart(_) => 17,
            TxFault::NotPreserved(_) => 18,
            TxFault::WrongDatum(_) => 19,
        }
    }
}

impl Same for TxFault {
    fn same(&self, other: &TxFault) -> bool {
        *self == *other
    }
}

impl TryClone for TxFault {
    fn try_clone(&self) -> Result<TxFault, Memory> {
        match self {
            TxFault::NoInputs => Ok(TxFault::NoInputs),
            TxFault::TooMany => Ok(TxFault::TooMany),
            TxFault::RepeatedInput(place) => Ok(TxFault::RepeatedInput(*place)),
            TxFault::NotUnspent(place) => Ok(TxFault::NotUnspent(*place)),
            TxFault::IdInUse => Ok(TxFault::IdInUse),
            TxFault::OutsideInterval => Ok(TxFault::OutsideInterval),
            TxFault::UnknownScript(place) => Ok(TxFault::UnknownScript(*place)),
            TxFault::NotSigned(place) => Ok(TxFault::NotSigned(*place)),
            TxFault::TooManyContracts => Ok(TxFault::TooManyContracts),
            TxFault::WrongRedeemer(place) => Ok(TxFault::WrongRedeemer(*place)),
            TxFault::RoleMissing(place) => Ok(TxFault::RoleMissing(*place)),
            TxFault::Semantics(fault) => Ok(TxFault::Semantics(*fault)),
            TxFault::NotAuthorised(party) => Ok(TxFault::NotAuthorised(party.try_clone()?)),
            TxFault::WrongContinuation => Ok(TxFault::WrongContinuation),
            TxFault::WrongPayment(place) => Ok(TxFault::WrongPayment(*place)),
            TxFault::StrayContract(place) => Ok(TxFault::StrayContract(*place)),
            TxFault::WrongStart(place) => Ok(TxFault::WrongStart(*place)),
            TxFault::NotPreserved(token) => Ok(TxFault::NotPreserved(token.try_clone()?)),
            TxFault::WrongDatum(place) => Ok(TxFault::WrongDatum(*place)),
        }
    }
}
