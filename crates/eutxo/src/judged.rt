//! What the rules answer.
ghost use Rattle.std.specs.Prelude.{◌≡◌, [], Some};
ghost use Rattle.eutxo.specs.Local.{judged_as};

use crate::places::Places;
use eutxo_types::TxFault;

/// What the rules answer to a transaction: the fault with which the first of them refuses, or else where the contracts
/// go on that it spends.
#[derive(Drop)]
pub struct Judged {
    /// The fault of the first rule that refuses, if one does.
    pub fault: Option<TxFault>,
    /// Where none refuses and nothing is missing, the places in which the contracts go on; else there are none.
    pub places: Places,
}

impl Judged {
    /// The answer to a transaction that is refused with a fault.
    pub fn refused(fault: TxFault) -> Judged
        ensures { result ≡ record { fault = Some fault; places = [] } }
    {
        Judged {
            fault: Some(fault),
            places: Places::none(),
        }
    }
}

/// The answer where a fault was found, or none: only what isn't refused goes on anywhere.
pub(crate) fn judged_as(fault: Option<TxFault>, places: Places) -> Judged
    ensures { result ≡ judged_as fault places }
{
    match fault {
        Some(fault) => Judged::refused(fault),
        None => Judged {
            fault: None,
            places,
        },
    }
}
