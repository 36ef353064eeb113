//! What the rules read of a ledger.
ghost use Rattle.std.specs.Prelude.{◌≡◌, option_copied};
ghost use Rattle.roles.specs.Eutxo.Judgement.{Moment};

use roles::{Output, OutputRef, Shared};

/// What tells of unspent outputs and of published scripts: a ledger, or a look at one. What a transaction names is
/// found there. No look-up takes memory.
pub trait Resolves<V> {
    /// What the rules read of it.
    ghost moment: { Self → Moment V };

    /// The unspent output that a reference names, or `None`.
    fn unspent_at(&self, reference: &OutputRef) -> Option<&Output>
        ensures { option_copied result ≡ (moment self.now).unspent reference.now };

    /// The script that is published under an id, or `None`.
    fn published_at(&self, script: &[u8; 32]) -> Option<&Shared<V>>
        ensures { option_copied result ≡ (moment self.now).published script.now };
}

/// A ledger (The Extended UTXO Model, "Basic UTXO Ledger"), as the rules read it at a moment. Whether it walks
/// over all that was accepted or keeps indexes, the rules can't tell. No look-up takes memory.
pub trait Ledger<V>: Resolves<V> {
    /// Whether an accepted transaction has this id.
    fn is_used(&self, id: &[u8; 32]) -> bool
        ensures { result ≡ (Self.moment self.now).is_used id.now };

    /// The tick, in POSIX milliseconds.
    fn tick(&self) -> i64
        ensures { result ≡ (Self.moment self.now).tick };
}
