//! Reading a text.
ghost use Rattle.std.specs.Prelude.{◌≡◌, ◌↔◌, ◌≤◌, ◌<◌, ◌+◌, ◌++◌, ℕ, List, true, false, IfOk, IfSome, OnErr, Err, length, vec_len};
ghost use Rattle.std.specs.Io.KnownBytes.{Consumes, IsAtEnd};
ghost use Rattle.marlowe_io.specs.declared.loading.LoadFault.TheVariants as faults;
ghost use Rattle.marlowe_io.specs.Texts.{longest, loaded};

use crate::source::{Source, SourceFault};
use std::alloc::{AllocError, Global};

/// The greatest number of bytes that are read: one more than a text may have, which is enough to know that it is too long.
pub const LONGEST: usize = 1_048_577;

// How many bytes a read asks for.
const PIECE: usize = 8_192;

/// Why a source gives no text.
#[derive(Clone, Copy, Debug, PartialEq, Eq)]
pub enum LoadFault {
    /// A read has failed, or the file can't be opened.
    Unreadable = 1,
    /// Memory was refused.
    Memory = 2,
}

impl From<AllocError> for LoadFault {
    ghost from_gives = { λ _ fault. fault ≡ faults.Memory };

    fn from(_error: AllocError) -> LoadFault {
        LoadFault::Memory
    }
}

impl From<SourceFault> for LoadFault {
    ghost from_gives = { λ _ fault. fault ≡ faults.Unreadable };

    fn from(_fault: SourceFault) -> LoadFault {
        LoadFault::Unreadable
    }
}

// Reads at most so many bytes, and puts them at the end of the text.
fn read_piece<S: Source>(from: &mut S, text: &mut Vec<u8>, most: usize) -> Result<usize, LoadFault>
    requires works { S.has_failed from.old ≡ false }
    requires some { 0 < most }
    ensures few { IfOk result (λ n. n ≤ most) }
    ensures len { IfOk result (λ n. vec_len text.new ≡ vec_len text.old + n) }
    ensures bytes { IfOk result (λ n. (bytes : List ℕ) × (text.new.items ≡ text.old.items ++ bytes)
        × Consumes (S.remaining from.old) (S.remaining from.new) bytes) }
    ensures end { IfOk result (λ n. n ≡ 0 → IsAtEnd (S.remaining from.new)) }
    ensures failed { (S.has_failed from.new ≡ true) ↔ (result ≡ Err faults.Unreadable) }
{
    let mut piece = [0u8; PIECE];
    let room = most.min(PIECE);
    let count = from.read(&mut piece[..room])?;
    text.extend_from_slice(&piece[..count])?;
    Ok(count)
}

/// The text that a source gives: all its bytes, or the first 1,048,577. It asks for no byte more.
///
/// `Unreadable` exactly where a read has failed, and `Memory` where the growth of the text was refused. The source
/// may not have failed before: `failed` tells.
pub fn load<S: Source>(alloc: Global, from: &mut S) -> Result<Vec<u8>, LoadFault>
    requires { S.has_failed from.old ≡ false }
    ensures text { IfOk result (λ text. IfSome (S.remaining from.old) (λ bytes. text.items ≡ loaded bytes)) }
    ensures rest { IfOk result (λ text. Consumes (S.remaining from.old) (S.remaining from.new) text.items) }
    ensures most { IfOk result (λ text. vec_len text ≤ longest) }
    ensures failed { (S.has_failed from.new ≡ true) ↔ (result ≡ Err faults.Unreadable) }
{
    let mut text = Vec::new(alloc);
    while text.len() < LONGEST {
        let most = LONGEST - text.len();
        if read_piece(from, &mut text, most)? == 0 {
            return Ok(text);
        }
    }
    Ok(text)
}
