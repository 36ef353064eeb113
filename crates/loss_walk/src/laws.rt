//! What follows from floors: laws, the contracts of functions that do nothing.
ghost use Rattle.loss_walk.specs.Nets.{NetsBoundLosses, NetsBoundKept};

use semantics::time_never_goes_back;

/// Where a party has nowhere in a contract been paid less by more than so much than it brought, told along the contract's tree,
/// it loses no more in any run that leaves nothing.
pub fn nets_bound_losses()
    ensures { NetsBoundLosses }
{
    time_never_goes_back();
}

/// The same of the runs in which a party keeps up, along a tree without the timeouts that it lets nobody reach; and of what it is
/// paid alone.
pub fn nets_bound_kept()
    ensures { NetsBoundKept }
{
    time_never_goes_back();
}
