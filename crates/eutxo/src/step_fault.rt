//! Why a script refuses a step whose inputs it takes.
ghost use Rattle.std.specs.Prelude.{◌≡◌};
ghost use Rattle.eutxo.specs.Asked.{refusal_of};

use contract::Party;
use eutxo_types::TxFault;

/// Why a script refuses a step of which its contract takes the inputs: the rules that are its own, 13 to 15. Each is a
/// fault of the transaction (`From`).
#[derive(Debug, PartialEq, Eq, Drop)]
pub enum StepFault {
    /// 13: an input of the contract needs this party, who isn't authorised.
    NotAuthorised(Party),
    /// 14: the contract goes on, and the first output of its block isn't the one with which it goes on.
    WrongContinuation,
    /// 15: the output at this place, from 0, isn't the payment that is due there.
    WrongPayment(u64),
}

impl From<StepFault> for TxFault {
    ghost from_gives = { λ f fault. fault ≡ refusal_of f };

    fn from(fault: StepFault) -> TxFault {
        match fault {
            StepFault::NotAuthorised(party) => TxFault::NotAuthorised(party),
            StepFault::WrongContinuation => TxFault::WrongContinuation,
            StepFault::WrongPayment(place) => TxFault::WrongPayment(place),
        }
    }
}
