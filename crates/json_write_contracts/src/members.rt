//! Members of objects: one, or those with which an object ends; and lists of two.
//! Where a call fails, what was written before it stays, and behind it stand some tokens or none.
ghost use Rattle.std.specs.Prelude.{◌≡◌, true, [], ◌∷◌, OnOk, OnErr};
ghost use Rattle.json.specs.Token as json_token;
ghost use Rattle.serde_json.specs.Data.{no_members, member};
ghost use Rattle.json_write_contracts.specs.Members.{member_tokens, Ends, EndsWithThree, AddsFitting};
ghost use Rattle.json_write_contracts.specs.Tokens.{Adds, Keeps, Puts, PutsFitting};
ghost use Rattle.json_write_contracts.specs.WrittenNames as written_names;

use crate::fault::WriteFault;
use crate::terms::Term;
use contract::Memory;
use json::Writer;
use std::alloc::Global;

/// Writes a member: its key, and a term.
pub fn put_member<T: Term>(
    alloc: Global,
    out: &mut Writer,
    key: &str,
    term: &T,
) -> Result<(), Memory>
    ensures put { OnOk result (Adds out.old out.new (member_tokens key.now (T.json term.now))) }
    ensures err { OnErr result (Keeps out.old out.new) }
{
    out.key(key)?;
    term.put(alloc, out)
}

/// Writes the last member of an object, and its end.
pub fn end_with_one<A: Term>(alloc: Global, out: &mut Writer, k: &str, a: &A) -> Result<(), Memory>
    ensures put { OnOk result (Ends out.old out.new (member k.now (A.json a.now) no_members)) }
    ensures err { OnErr result (Keeps out.old out.new) }
{
    put_member(alloc, out, k, a)?;
    out.end_object()
}

/// Writes the last two members of an object, and its end.
pub fn end_with_two<A: Term, B: Term>(
    alloc: Global,
    out: &mut Writer,
    k: &str,
    a: &A,
    l: &str,
    b: &B,
) -> Result<(), Memory>
    ensures put { OnOk result (Ends out.old out.new (member k.now (A.json a.now) (member l.now (B.json b.now) no_members))) }
    ensures err { OnErr result (Keeps out.old out.new) }
{
    put_member(alloc, out, k, a)?;
    end_with_one(alloc, out, l, b)
}

/// Writes the last three members of an object, and its end.
pub fn end_with_three<A: Term, B: Term, C: Term>(
    alloc: Global,
    out: &mut Writer,
    k: &str,
    a: &A,
    l: &str,
    b: &B,
    m: &str,
    c: &C,
) -> Result<(), Memory>
    ensures put { OnOk result (EndsWithThree out.old out.new k.now (A.json a.now) l.now (B.json b.now) m.now (C.json c.now)) }
    ensures err { OnErr result (Keeps out.old out.new) }
{
    put_member(alloc, out, k, a)?;
    end_with_two(alloc, out, l, b, m, c)
}

/// Writes a list of just two terms.
pub fn put_pair<A: Term, B: Term>(
    alloc: Global,
    out: &mut Writer,
    a: &A,
    b: &B,
) -> Result<(), Memory>
    ensures put { OnOk result (Puts out.old out.new (written_names.pair_json (A.json a.now) (B.json b.now))) }
    ensures err { OnErr result (Keeps out.old out.new) }
{
    out.begin_array()?;
    a.put(alloc, out)?;
    b.put(alloc, out)?;
    out.end_array()
}

// Begins an object with a member.
pub(crate) fn begin_with<T: Term>(
    alloc: Global,
    out: &mut Writer,
    key: &str,
    term: &T,
) -> Result<(), Memory>
    ensures put { OnOk result (Adds out.old out.new (json_token.Token.begin_object ∷ member_tokens key.now (T.json term.now))) }
    ensures err { OnErr result (Keeps out.old out.new) }
{
    out.begin_object()?;
    put_member(alloc, out, key, term)
}

// Ends an object.
pub(crate) fn end_object(out: &mut Writer) -> Result<(), WriteFault>
    ensures put { AddsFitting result out.old out.new true (json_token.Token.end_object ∷ []) }
    ensures err { OnErr result (Keeps out.old out.new) }
{
    Ok(out.end_object()?)
}

// A term, whose numbers JSON has.
pub(crate) fn put_term<T: Term>(alloc: Global, out: &mut Writer, term: &T) -> Result<(), WriteFault>
    ensures put { PutsFitting result out.old out.new true (T.json term.now) }
    ensures err { OnErr result (Keeps out.old out.new) }
{
    Ok(term.put(alloc, out)?)
}

// An object of one member.
pub(crate) fn put_one<T: Term>(
    alloc: Global,
    out: &mut Writer,
    key: &str,
    term: &T,
) -> Result<(), WriteFault>
    ensures put { PutsFitting result out.old out.new true (written_names.one key.now (T.json term.now)) }
    ensures err { OnErr result (Keeps out.old out.new) }
{
    out.begin_object()?;
    Ok(end_with_one(alloc, out, key, term)?)
}
