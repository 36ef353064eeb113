//! Worked losses, each the contract of a function that does nothing.
ghost use Rattle.losses.specs.Rows.{FiveAreBrought, FiveAreLost, FourAreTooFew, RefusedBringsNothing, BelowZeroBringsNothing, OtherTokensBringNothing, OthersBringNothing, OwnMoneyComesBack};

/// A deposit into the account of another is lost, and no less; one that is refused, one below 0, one of another token and one of
/// another party count nothing; and what a party takes back isn't lost.
pub fn worked_losses()
    ensures brought { FiveAreBrought }
    ensures lost { FiveAreLost }
    ensures more { FourAreTooFew }
    ensures refused { RefusedBringsNothing }
    ensures negative { BelowZeroBringsNothing }
    ensures token { OtherTokensBringNothing }
    ensures party { OthersBringNothing }
    ensures back { OwnMoneyComesBack }
{}
