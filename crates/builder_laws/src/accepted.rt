//! That layouts are accepted.
ghost use Rattle.builder_laws.specs.Accepting.{PartsPass, StartsPass, ClaimsPass, PartsAreAccepted, StartsAreAccepted, ClaimsAreAccepted};
ghost use Rattle.builder_laws.specs.AfterPasts.{PartsAreAcceptedAfter, StartsAreAcceptedAfter, ClaimsAreAcceptedAfter, BytesTellApart};

use ledger_spec::{Published, found_is_enough, no_transaction_begins_another};

/// The layout of steps that nothing hinders, of one thread or of several, is accepted by every ledger at every moment at
/// which what it spends is unspent with the contents that were handed in, each thread's script is published as its look
/// shows it, its id is unused and the tick lies in its interval. Its id is unused where no accepted transaction of other
/// bytes has it, and the layout and all that were accepted fit their spelling. And no rule refuses it on any resolution
/// that has what was handed in.
pub fn parts_are_accepted()
    ensures passes { PartsPass }
    ensures accepted { PartsAreAccepted }
    ensures after { PartsAreAcceptedAfter }
{
    found_is_enough::<Published>();
    no_transaction_begins_another();
}

/// So is the layout of a start that nothing hinders, where what is started is published under its id.
pub fn starts_are_accepted()
    ensures passes { StartsPass }
    ensures accepted { StartsAreAccepted }
    ensures after { StartsAreAcceptedAfter }
{
    found_is_enough::<Published>();
    no_transaction_begins_another();
}

/// And the layout of a claim that nothing hinders.
pub fn claims_are_accepted()
    ensures passes { ClaimsPass }
    ensures accepted { ClaimsAreAccepted }
    ensures after { ClaimsAreAcceptedAfter }
{
    found_is_enough::<Published>();
    no_transaction_begins_another();
}

/// Where a transaction and all that were accepted fit their spelling, an accepted transaction of its bytes is that
/// transaction.
pub fn bytes_tell_accepted_apart()
    ensures { BytesTellApart }
{
    no_transaction_begins_another();
}
