//! Numbers and times.
//! Where a call fails, what was written before it stays, and behind it stand some tokens or none.
ghost use Rattle.std.specs.Prelude.{◌≡◌, true, OnOk, OnErr};
ghost use Rattle.json_write_contracts.specs.Tokens.{Keeps, Puts, PutsFitting};
ghost use Rattle.json_write_contracts.specs.WrittenNames.{number_json, wide_json, number_fits, time_fits};

use crate::fault::WriteFault;
use contract::Memory;
use json::Writer;
use std::alloc::Global;

/// Writes a time.
pub fn put_time(out: &mut Writer, time: i64) -> Result<(), Memory>
    ensures put { OnOk result (Puts out.old out.new (number_json time)) }
    ensures err { OnErr result (Keeps out.old out.new) }
    ensures fits { time_fits time ≡ true }
{
    out.i64(time)
}

/// It does nothing: its clause says what a proof would forget, that a time fits.
pub fn is_time(time: i64)
    ensures { time_fits time ≡ true }
{}

/// Writes a number from -2^63 to 2^64 - 1; another is out of range.
pub fn put_number(out: &mut Writer, n: i128) -> Result<(), WriteFault>
    ensures put { PutsFitting result out.old out.new (number_fits n) (number_json n) }
    ensures err { OnErr result (Keeps out.old out.new) }
{
    if let Ok(n) = u64::try_from(n) {
        Ok(out.u64(n)?)
    } else if let Ok(n) = i64::try_from(n) {
        Ok(out.i64(n)?)
    } else {
        Err(WriteFault::OutOfRange)
    }
}

// A number of any size: where JSON doesn't have it, a text of its decimal digits.
fn put_wide(alloc: Global, out: &mut Writer, n: i128) -> Result<(), Memory>
    ensures put { OnOk result (Puts out.old out.new (wide_json n)) }
    ensures err { OnErr result (Keeps out.old out.new) }
{
    if let Ok(n) = u64::try_from(n) {
        out.u64(n)
    } else if let Ok(n) = i64::try_from(n) {
        out.i64(n)
    } else {
        let digits = format!(in alloc; "{n}")?;
        out.string(digits.as_str())
    }
}

/// Writes an amount of any size: where JSON doesn't have the number, a text of its decimal digits.
pub fn put_amount(alloc: Global, out: &mut Writer, amount: &i128) -> Result<(), Memory>
    ensures put { OnOk result (Puts out.old out.new (wide_json amount.now)) }
    ensures err { OnErr result (Keeps out.old out.new) }
{
    put_wide(alloc, out, *amount)
}
