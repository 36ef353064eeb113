//! Bytes, lengths, numbers, times and texts.
ghost use Rattle.std.specs.Prelude.{◌≡◌, [], ◌∷◌, ◌++◌, OnOk, OnErr};
ghost use Rattle.contract_bytes.specs.Numbers.{length_bytes, number_bytes, time_bytes, text_bytes, NumberFits, TimeFits, TextFits};
ghost use Rattle.contract_bytes.specs.Writing.{AppendsFront};

use contract::{Bytes, Memory, Text};

/// Appends a byte.
pub fn put_byte(out: &mut Vec<u8>, byte: u8) -> Result<(), Memory>
    ensures spelling { OnOk result (out.new.items ≡ out.old.items ++ byte ∷ []) }
    ensures err { OnErr result (out.new.items ≡ out.old.items) }
{
    out.push(byte)?;
    Ok(())
}

/// Appends a length: 8 bytes, the highest first.
#[tactic(auto, unfolding(crate::specs::Numbers::length_bytes))]
pub fn put_length(out: &mut Vec<u8>, length: usize) -> Result<(), Memory>
    ensures spelling { OnOk result (out.new.items ≡ out.old.items ++ length_bytes length) }
    ensures err { OnErr result (out.new.items ≡ out.old.items) }
{
    let bytes = (length as u64).to_be_bytes();
    out.extend_from_slice(bytes.as_slice())?;
    Ok(())
}

#[tactic(auto, unfolding(crate::specs::Numbers::number_bytes))]
fn bytes_of_number(number: i128) -> [u8; 16]
    ensures { result ≡ number_bytes number }
{
    number.to_be_bytes()
}

/// Appends a number: 16 bytes of two's complement, the highest first.
pub fn put_number(out: &mut Vec<u8>, number: i128) -> Result<(), Memory>
    ensures spelling { OnOk result (out.new.items ≡ out.old.items ++ number_bytes number) }
    ensures fits { NumberFits number }
    ensures err { OnErr result (out.new.items ≡ out.old.items) }
{
    let bytes = bytes_of_number(number);
    out.extend_from_slice(bytes.as_slice())?;
    Ok(())
}

/// Appends a time, in POSIX milliseconds: 8 bytes of two's complement, the highest first.
#[tactic(auto, unfolding(crate::specs::Numbers::time_bytes))]
pub fn put_time(out: &mut Vec<u8>, time: i64) -> Result<(), Memory>
    ensures spelling { OnOk result (out.new.items ≡ out.old.items ++ time_bytes time) }
    ensures fits { TimeFits time }
    ensures err { OnErr result (out.new.items ≡ out.old.items) }
{
    let bytes = time.to_be_bytes();
    out.extend_from_slice(bytes.as_slice())?;
    Ok(())
}

fn put_counted(out: &mut Vec<u8>, bytes: &[u8]) -> Result<(), Memory>
    ensures spelling { OnOk result (out.new.items ≡ out.old.items ++ text_bytes bytes.now) }
    ensures fits { TextFits bytes.now }
    ensures err { OnErr result (AppendsFront (text_bytes bytes.now) out.old.items out.new.items) }
{
    put_length(out, bytes.len())?;
    out.extend_from_slice(bytes)?;
    Ok(())
}

/// Appends a text: its length, then its bytes.
pub fn put_text(out: &mut Vec<u8>, text: &Text) -> Result<(), Memory>
    ensures spelling { OnOk result (out.new.items ≡ out.old.items ++ text_bytes text.now) }
    ensures fits { TextFits text.now }
    ensures err { OnErr result (AppendsFront (text_bytes text.now) out.old.items out.new.items) }
{
    put_counted(out, text.as_str().as_bytes())
}

/// Appends a string of bytes: its length, then the bytes.
pub fn put_bytes(out: &mut Vec<u8>, bytes: &Bytes) -> Result<(), Memory>
    ensures spelling { OnOk result (out.new.items ≡ out.old.items ++ text_bytes bytes.now) }
    ensures fits { TextFits bytes.now }
    ensures err { OnErr result (AppendsFront (text_bytes bytes.now) out.old.items out.new.items) }
{
    put_counted(out, bytes.as_slice())
}
