//! What the lines before a row give: texts under names, and what files hold. `rows_commands` and `rows_values` share these lines:
//!
//! - `let NAME TEXT` names a text for all lines below: in a text `$NAME$` then stands for it;
//! - `file NAME TEXT` keeps a text as what the file of that name holds from then on;
//! - `text TEXT` keeps a text that rows below it are about which have none of their own;
//! - `more TEXT` adds to the text that was kept last, `times N TEXT` adds a text N times, each time with its number from 0 in place of
//!   `%`, and `hex DIGITS` adds bytes in hexadecimal;
//! - `contract TEXT` is `file contract.json TEXT`, and analyses start without a state again; `state TEXT` is `file state.json TEXT`, and
//!   they start from it.
//!
//! They answer nothing. `#` begins a comment, and an empty line is nothing.
#![tactic(auto)]

use rows_text::{RowFault, bytes, first, number, parts};
use std::alloc::Global;

/// A text, under its own name or that of a file.
#[derive(Drop)]
struct Named {
    name: String,
    text: Vec<u8>,
}

/// The texts with a name, and what files hold. What came last is first.
#[derive(Drop)]
pub struct Given {
    texts: Vec<Named>,
    files: Vec<Named>,
    has_state: bool,
}

impl Given {
    /// Nothing. Takes no memory.
    pub fn new(alloc: Global) -> Given {
        Given {
            texts: Vec::new(alloc),
            files: Vec::new(alloc),
            has_state: false,
        }
    }

    /// Whether a line is no row but gives a text, which is kept, or nothing.
    pub fn keeps(&mut self, alloc: Global, word: &str, rest: &str) -> Result<bool, RowFault> {
        match word {
            "" | "#" => {}
            "let" => self.name(alloc, rest)?,
            "file" => {
                let (name, text) = first(rest);
                self.keep(alloc, name, text)?;
            }
            "text" => self.keep(alloc, "text", rest)?,
            "contract" => {
                self.has_state = false;
                self.keep(alloc, "contract.json", rest)?;
            }
            "state" => {
                self.has_state = true;
                self.keep(alloc, "state.json", rest)?;
            }
            _ => return self.adds(alloc, word, rest),
        }
        Ok(true)
    }

    // Whether a line adds to the text that was kept last.
    fn adds(&mut self, alloc: Global, word: &str, rest: &str) -> Result<bool, RowFault> {
        match word {
            "more" => self.add(alloc, 1, rest)?,
            "times" => {
                let (times, text) = parts(rest)?;
                self.add(alloc, number(times)?, text)?;
            }
            "hex" => {
                let bytes = bytes(alloc, rest)?;
                self.last()?.extend_from_slice(bytes.as_slice())?;
            }
            _ => return Ok(false),
        }
        Ok(true)
    }

    // Names a text, from `NAME TEXT`.
    fn name(&mut self, alloc: Global, rest: &str) -> Result<(), RowFault> {
        let (name, text) = parts(rest)?;
        let text = self.whole(alloc, text)?;
        let name = String::from_str(alloc, name)?;
        self.texts.insert(0, Named { name, text })?;
        Ok(())
    }

    /// Keeps a text as what the file of a name holds.
    pub fn keep(&mut self, alloc: Global, name: &str, text: &str) -> Result<(), RowFault> {
        let text = self.whole(alloc, text)?;
        self.keep_bytes(alloc, name, text)
    }

    /// Keeps bytes as what the file of a name holds.
    pub fn keep_bytes(&mut self, alloc: Global, name: &str, text: Vec<u8>) -> Result<(), RowFault> {
        let name = String::from_str(alloc, name)?;
        self.files.insert(0, Named { name, text })?;
        Ok(())
    }

    // The text that was kept last.
    fn last(&mut self) -> Result<&mut Vec<u8>, RowFault> {
        match self.files.first_mut() {
            Some(last) => Ok(&mut last.text),
            None => Err(RowFault::NoSuchRow),
        }
    }

    // Adds a text so many times, each time with its number in place of `%`.
    fn add(&mut self, alloc: Global, times: u32, text: &str) -> Result<(), RowFault> {
        let text = self.whole(alloc, text)?;
        let is_numbered = text.contains(&b'%');
        let last = self.last()?;
        for time in 0..times {
            if is_numbered {
                put_numbered(alloc, last, text.as_slice(), time)?;
            } else {
                last.extend_from_slice(text.as_slice())?;
            }
        }
        Ok(())
    }

    /// A text, with what has a name in place of each name between two `$`.
    pub fn whole(&self, alloc: Global, text: &str) -> Result<Vec<u8>, RowFault> {
        let mut whole = Vec::new(alloc);
        let mut is_name = false;
        for piece in text.split('$') {
            if is_name {
                whole.extend_from_slice(text_of(&self.texts, piece).ok_or(RowFault::NoSuchRow)?)?;
            } else {
                whole.extend_from_slice(piece.as_bytes())?;
            }
            is_name = !is_name;
        }
        Ok(whole)
    }

    /// What the file of a name holds, if that is given.
    pub fn file(&self, name: &str) -> Option<&[u8]> {
        text_of(&self.files, name)
    }

    /// Whether a state is given for the contract.
    pub fn has_state(&self) -> bool {
        self.has_state
    }
}

fn text_of<'a>(texts: &'a [Named], name: &str) -> Option<&'a [u8]> {
    for named in texts {
        if named.name.as_str() == name {
            return Some(named.text.as_slice());
        }
    }
    None
}

// Adds a text, with a number in place of each `%`.
fn put_numbered(
    alloc: Global,
    place: &mut Vec<u8>,
    text: &[u8],
    number: u32,
) -> Result<(), RowFault> {
    let number = format!(in alloc; "{number}")?;
    for byte in text {
        match *byte {
            b'%' => place.extend_from_slice(number.as_bytes())?,
            byte => place.push(byte)?,
        }
    }
    Ok(())
}
