//! Numbers that JSON has.
ghost use Rattle.std.specs.Prelude.{IsTrue, ◌↔◌, pos, negsuc, ◌≤ℤ◌, ◌^◌, ◌-◌};

/// Whether JSON has a number: from -2^63 to 2^64 - 1.
pub fn is_written(number: i128) -> bool
    ensures { IsTrue result ↔ ((negsuc (2 ^ 63 - 1) ≤ℤ number) × (number ≤ℤ pos (2 ^ 64 - 1))) }
{
    if u64::try_from(number).is_ok() {
        return true;
    }
    i64::try_from(number).is_ok()
}
