//! What holds of every published contract: laws, each the contract of a function that does nothing.
ghost use Rattle.roles.specs.Publications.{PublishedAreTables, PublishedTellApart};
ghost use Rattle.roles.specs.Sums.{SumsAreTotals, SumsArePositive};
ghost use Rattle.roles.specs.Owed.{GoesOnWhereMade, MadeAreContinuations, PaidInDueOutputs};
ghost use Rattle.roles.specs.Worked.{EqualPaymentsAreTwo, OneServesOne, NothingIsDue, PaidUnderLocks, TokensGrantInKeys, EmptyStartsHoldNothing};

use crate::published::Published;
use compiler::codes_stand;
use eutxo::checks_cross_threads;

/// What is published is a table: its root is one of the numbers and stands for the contract, and turns
/// that the contract of a number has lead to a number, which stands for the part that they lead to. So
/// no step leads out of a published table.
pub fn published_are_tables()
    ensures { PublishedAreTables }
{
    codes_stand();
}

/// What is published is equal exactly where contract and currency are: their table and root are the
/// contract's alone, and the currency is kept. So a ledger that compares published contracts in full
/// needs nothing of their ids.
pub fn published_tell_contracts_apart()
    ensures { PublishedTellApart }
{
    codes_stand();
}

/// The sums that a contract's output has to hold (rules 14 and 17) are, token by token, the totals of the accounts by
/// which the transaction function keeps money; and of accounts above 0 they are above 0.
pub fn sums_are_of_each_token()
    ensures totals { SumsAreTotals }
    ensures positive { SumsArePositive }
{}

/// What a step owes is recognised exactly where it stands as it is made: the output in which a contract goes on from
/// the datum that is brought for it (rule 14), which is the one that `continuation` makes where it holds the datum's
/// digest, and those that are due for payments (rule 15), which `put_due` makes.
pub fn owed_as_made()
    ensures made { GoesOnWhereMade }
    ensures continuation { MadeAreContinuations }
    ensures payments { PaidInDueOutputs }
{}

/// The definitions on small steps: two equal payments of one contract and of two, payments that are due in no output,
/// under which lock a party is paid, where a role's token grants the role, and a start without accounts.
pub fn worked_steps()
    ensures equal { EqualPaymentsAreTwo }
    ensures serves { OneServesOne }
    ensures due { NothingIsDue }
    ensures locks { PaidUnderLocks }
    ensures grant { TokensGrantInKeys }
    ensures empty { EmptyStartsHoldNothing }
{}

/// Published contracts, and checks by them, can be handed to other threads, and lent to several. It does nothing.
pub fn published_cross_threads() {
    checks_cross_threads::<Published>();
}
