//! Laws of compiled tables, each the contract of a function that does nothing.
ghost use Rattle.lowering.specs.Laws.{CodesStand, CodesTellApart};
ghost use Rattle.lowering.specs.Worked.{EmptyWhen, PartialPay, CondLet, EqualCases, Escrow, TokensDiffer, PartiesDiffer, BoundsDiffer, TimeoutsDiffer};

/// The table of a contract whose height is at most 999 stands for that contract, at the number that is given with it.
/// So contracts of such heights have equal tables exactly where they are equal.
pub fn codes_stand()
    ensures stand { CodesStand }
    ensures tell_apart { CodesTellApart }
{}

/// Worked tables, each computed on the definitions: equal nodes stand once, and nodes that differ in one term stand twice.
pub fn worked_tables()
    ensures waits { EmptyWhen }
    ensures pays { PartialPay }
    ensures lets { CondLet }
    ensures cases { EqualCases }
    ensures escrow { Escrow }
    ensures tokens { TokensDiffer }
    ensures parties { PartiesDiffer }
    ensures bounds { BoundsDiffer }
    ensures timeouts { TimeoutsDiffer }
{}
