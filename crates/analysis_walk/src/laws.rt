//! What a contract that keeps limits promises: laws, each the contract of a function that does nothing.
ghost use Rattle.analysis_walk.specs.Laws.{AlarmsNameWhereItComes, AlarmsNameWhereItLeaves, AvoidedIsNeverReached, PaymentsLieInRanges};

use semantics::{accounts_stay_above_zero, payments_are_natural, time_never_goes_back};

/// A contract whose runs have no warning without an alarm at its place never gives a warning of a kind at a place where no
/// alarm names it.
pub fn alarms_name_where_it_comes()
    ensures { AlarmsNameWhereItComes }
{
    time_never_goes_back();
}

/// A contract in which numbers fit where no alarm stands, in runs whose times JSON can write and up to the first number
/// that doesn't fit, leaves 128 bits first at no place without an alarm.
pub fn alarms_name_where_it_leaves()
    ensures { AlarmsNameWhereItLeaves }
{
    time_never_goes_back();
}

/// No run comes to a place where none takes the path to it, told along the contract.
pub fn avoided_is_never_reached()
    ensures { AvoidedIsNeverReached }
{
    time_never_goes_back();
}

/// A contract whose runs pay parties within ranges wherever they close it pays within them in every run from accounts
/// above 0: never more than the most, and no less than the least once it is closed.
pub fn payments_lie_in_ranges()
    ensures { PaymentsLieInRanges }
{
    time_never_goes_back();
    payments_are_natural();
    accounts_stay_above_zero();
}
