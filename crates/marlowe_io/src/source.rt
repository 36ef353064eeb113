//! Where texts come from.
ghost use Rattle.std.specs.Prelude.{◌≡◌, ◌≤◌, ℕ, Bool, true, List, IfOk, OnOk, OnErr, length};
ghost use Rattle.std.specs.Io.KnownBytes.{ReadConsumes};
ghost use Rattle.std.specs.declared.option.Option.{Option};

/// That a read has failed.
#[derive(Clone, Copy, Debug, PartialEq, Eq)]
pub struct SourceFault;

/// What gives bytes, some at a call, until they end or a call fails.
pub trait Source {
    /// The bytes that it will still give, where they are known.
    ghost remaining: { Self → Option (List ℕ) };

    /// Whether a call has failed.
    ghost has_failed: { Self → Bool };

    /// Whether a call has failed.
    fn failed(&self) -> bool
        ensures { result ≡ has_failed self.now };

    /// Reads the next bytes into the front of a buffer, and answers how many: any number that fits, and none only where
    /// they have ended, or where the buffer has no room. A read that fails takes none.
    fn read(&mut self, into: &mut [u8]) -> Result<usize, SourceFault>
        ensures within { IfOk result (λ n. n ≤ length into.new) }
        ensures bytes { ReadConsumes (remaining self.old) (remaining self.new) result into.new }
        ensures works { OnOk result (has_failed self.new ≡ has_failed self.old) }
        ensures fails { OnErr result (has_failed self.new ≡ true) };
}
