//! Threads that are shown, and threads that are closed.
ghost use Rattle.builder_laws.specs.ShownThreads.{ShownThreadsAreCurrent};
ghost use Rattle.builder_laws.specs.AfterLast.{AnyoneCloses, NoThreadHinders};

use ledger_spec::{
    Published, contracts_are_funded, contracts_close_after_the_last_timeout, found_is_enough,
};

/// A look that shows an unspent contract output of a ledger, with the datum that its maker brought and what is
/// published there under its script, shows a thread that stands: it is of that script, holds the datum's digest, is at
/// a number of the table, and holds just the sums of its accounts. So such a look fails the first clause only where it
/// shows no thread.
pub fn shown_threads_are_current()
    ensures { ShownThreadsAreCurrent }
{
    contracts_are_funded();
    found_is_enough::<Published>();
}

/// After the last timeout anyone can close a thread, without inputs and with nothing offered, in an interval that
/// ends neither before its start nor before the minimum time: Close without accounts remains, and the parties are
/// paid all that the thread's output held. Only that a number leaves 128 bits hinders it, or that Close without
/// accounts stands already.
pub fn anyone_closes_after_the_last_timeout()
    ensures closes { AnyoneCloses }
    ensures none { NoThreadHinders }
{
    contracts_close_after_the_last_timeout();
}
