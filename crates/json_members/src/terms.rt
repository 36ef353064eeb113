//! Values of members: numbers of things, and lists of words.
ghost use Rattle.std.specs.Prelude.{◌≡◌, map, pos, OnOk, OnErr};
ghost use Rattle.serde_json.specs.Data.{Data, array, string};
ghost use Rattle.serde_json.specs.View.{items_of};
ghost use Rattle.json_write_contracts.specs.Tokens.{Keeps, Puts};
ghost use Rattle.json_write_contracts.specs.WrittenNames.{number_json};

use contract::Memory;
use json::Writer;
use json_write_contracts::{Term, word};
use std::alloc::Global;

/// How many, or which one, from 0.
#[derive(Clone, Copy)]
pub struct Count(pub usize);

/// Words, in order.
#[derive(Clone, Copy)]
pub struct Words<'a>(pub &'a [&'a str]);

impl Term for Count {
    ghost json = { λ count. number_json (pos count.0) };

    fn put(&self, _alloc: Global, out: &mut Writer) -> Result<(), Memory> {
        out.u64(self.0 as u64)
    }
}

impl<'a> Term for Words<'a> {
    ghost json = { λ words. array (items_of (map (λ word. string word.now) words.0.now)) };

    fn put(&self, _alloc: Global, out: &mut Writer) -> Result<(), Memory> {
        put_words(out, self.0)
    }
}

fn put_words(out: &mut Writer, words: &[&str]) -> Result<(), Memory>
    ensures put { OnOk result (Puts out.old out.new (array (items_of (map (λ word. string word.now) words.now)))) }
    ensures err { OnErr result (Keeps out.old out.new) }
{
    out.begin_array()?;
    for text in words {
        word(out, text)?;
    }
    out.end_array()?;
    Ok(())
}
