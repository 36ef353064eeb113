//! Where texts go.
ghost use Rattle.std.specs.Prelude.{◌≡◌, ◌≤◌, ◌<◌, ℕ, Bool, true, List, IfOk, OnOk, OnErr, length};
ghost use Rattle.std.specs.Io.KnownBytes.{WriteAppends};
ghost use Rattle.std.specs.declared.option.Option.{Option};

/// That a write has failed, or has taken nothing of some bytes.
#[derive(Clone, Copy, Debug, PartialEq, Eq)]
pub struct SinkFault;

/// What takes bytes, some at a call, until a call fails.
pub trait Sink {
    /// The bytes that it has taken, where they are known.
    ghost contents: { Self → Option (List ℕ) };

    /// Whether a call has failed.
    ghost has_failed: { Self → Bool };

    /// Whether a call has failed.
    fn failed(&self) -> bool
        ensures { result ≡ has_failed self.now };

    /// Writes bytes from the front of some, and answers how many: at least one, where there are any. A write that fails
    /// takes none; one that would take none of some bytes fails.
    fn write(&mut self, from: &[u8]) -> Result<usize, SinkFault>
        ensures within { IfOk result (λ n. n ≤ length from.now) }
        ensures some { IfOk result (λ n. 0 < length from.now → 0 < n) }
        ensures bytes { WriteAppends (contents self.old) (contents self.new) result from.now }
        ensures works { OnOk result (has_failed self.new ≡ has_failed self.old) }
        ensures fails { OnErr result (has_failed self.new ≡ true) };
}
