//! What is shown of a ledger.
ghost use Rattle.std.specs.Prelude.{◌≡◌, ◌↔◌, IsTrue};

use contract::{Items, Memory, Same, TryClone};
use roles::{Bundle, Datum, Holds, Output, OutputRef, Published, Shared, copy_option};

/// An unspent output with the reference that names it.
#[derive(Drop)]
pub struct Unspent {
    pub reference: OutputRef,
    pub output: Output,
}

/// The unspent output of a thread, the datum that the transaction that made it brought for it, and what is published
/// under the script in its lock. A copy of a look shares the latter.
#[derive(Drop)]
pub struct ThreadOutput {
    pub reference: OutputRef,
    pub output: Output,
    pub datum: Datum,
    pub published: Shared<Published>,
}

/// What is shown of a ledger at a moment. Nothing says that it still holds: outputs may have been spent since,
/// and the tick may have gone on.
pub struct Look {
    /// In POSIX milliseconds.
    pub tick: i64,
    /// The asked thread's unspent output, where a thread was asked for and has one.
    pub thread: Option<ThreadOutput>,
    /// The unspent key outputs of the asked addresses, in order of creation, each once.
    pub keys: Items<Unspent>,
    /// The unspent payouts under the asked locks, in order of creation, each once.
    pub payouts: Items<Unspent>,
}

// Dropped once: the drop is written, not derived, so that no crate above proves it again.
impl Drop for Look {
    fn drop(self) {
        let Look {
            tick: _,
            thread: _,
            keys: _,
            payouts: _,
        } = self;
    }
}

impl Holds for Unspent {
    ghost held = { λ unspent. unspent.output.amount };

    fn amounts(&self) -> &Bundle {
        &self.output.amount
    }
}

impl TryClone for Unspent {
    fn try_clone(&self) -> Result<Unspent, Memory> {
        let output = self.output.try_clone()?;
        Ok(Unspent {
            reference: self.reference,
            output,
        })
    }
}

impl Same for Unspent {
    fn same(&self, other: &Unspent) -> bool {
        self.reference == other.reference && self.output.same(&other.output)
    }
}

impl TryClone for ThreadOutput {
    fn try_clone(&self) -> Result<ThreadOutput, Memory> {
        let published = self.published.try_clone()?;
        let output = self.output.try_clone()?;
        let datum = self.datum.try_clone()?;
        Ok(ThreadOutput {
            reference: self.reference,
            output,
            datum,
            published,
        })
    }
}

impl Same for ThreadOutput {
    fn same(&self, other: &ThreadOutput) -> bool {
        self.reference == other.reference
            && self.output.same(&other.output)
            && self.datum.same(&other.datum)
            && self.published.same(&other.published)
    }
}

impl TryClone for Look {
    fn try_clone(&self) -> Result<Look, Memory> {
        let keys = self.keys.try_clone()?;
        let payouts = self.payouts.try_clone()?;
        let thread = copy_option(self.thread.as_ref())?;
        Ok(Look {
            tick: self.tick,
            thread,
            keys,
            payouts,
        })
    }
}

fn same_thread(x: &Option<ThreadOutput>, y: &Option<ThreadOutput>) -> bool
    ensures { IsTrue result ↔ (x.now ≡ y.now) }
{
    match (x, y) {
        (Some(a), Some(b)) => a.same(b),
        (None, None) => true,
        (Some(_), None) => false,
        (None, Some(_)) => false,
    }
}

impl Same for Look {
    fn same(&self, other: &Look) -> bool {
        self.tick == other.tick
            && same_thread(&self.thread, &other.thread)
            && self.keys.same(&other.keys)
            && self.payouts.same(&other.payouts)
    }
}
