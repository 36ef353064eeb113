//! What has a name.
use crate::fault::RowFault;
use crate::identified::{Identified, by_id, by_name};
use crate::publications::Named;
use crate::references::{Sent, datum_among};
use crate::words::parts;
use roles::{Datum, OutputRef};
use std::alloc::{AllocError, Global};

/// A text, under the name that the rows give it.
pub struct NamedText {
    name: String,
    text: String,
}

// Dropped once: the drop is written, not derived.
impl Drop for NamedText {
    fn drop(self) {
        let NamedText { name: _, text: _ } = self;
    }
}

/// A text under a name, from `NAME TEXT`.
pub fn named_text_of(alloc: Global, rest: &str) -> Result<NamedText, RowFault> {
    let (name, text) = parts(rest)?;
    Ok(NamedText {
        name: String::from_str(alloc, name)?,
        text: String::from_str(alloc, text)?,
    })
}

/// What the lines before have named.
pub struct Known {
    pub texts: Vec<NamedText>,
    pub published: Vec<Named>,
    pub sent: Vec<Sent>,
}

// Dropped once: the drop is written, not derived.
impl Drop for Known {
    fn drop(self) {
        let Known {
            texts: _,
            published: _,
            sent: _,
        } = self;
    }
}

impl Known {
    /// Nothing. Takes no memory.
    pub fn new(alloc: Global) -> Known {
        Known {
            texts: Vec::new(alloc),
            published: Vec::new(alloc),
            sent: Vec::new(alloc),
        }
    }

    /// The text that a word stands for: the one of the name behind a `$`, else the word itself.
    pub fn text_of<'a>(&'a self, word: &'a str) -> Result<&'a str, RowFault> {
        match word.strip_prefix('$') {
            Some(name) => self.text_named(name),
            None => Ok(word),
        }
    }

    fn text_named(&self, name: &str) -> Result<&str, RowFault> {
        for named in &self.texts {
            if named.name.as_str() == name {
                return Ok(named.text.as_str());
            }
        }
        Err(RowFault::NoSuchRow)
    }

    /// What is published under a name.
    pub fn by_name(&self, word: &str) -> Result<&Named, RowFault> {
        by_name(&self.published, word).ok_or(RowFault::NoSuchRow)
    }

    /// The datum with which a transaction that has a name made an output, if one did.
    pub fn datum_at(&self, reference: &OutputRef) -> Option<&Datum> {
        datum_among(&self.sent, reference)
    }

    /// The word for a script: `@` and the name that it was first published under, else its id.
    pub fn word_of_script(&self, alloc: Global, id: &[u8; 32]) -> Result<String, AllocError> {
        match by_id(&self.published, id) {
            Some(named) => {
                let name = named.name();
                format!(in alloc; "@{name}")
            }
            None => hex::encode(alloc, id.as_slice()),
        }
    }
}
