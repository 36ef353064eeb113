//! Command lines whose words are no text, or don't fit into memory.
use marlowe_cli::{WordsFault, words};
use std::alloc::Global;
use std::env::FillError;
use std::rt::Env;

// A command line of one word, in these bytes.
#[derive(Drop)]
struct OneWord<'b> {
    bytes: &'b [u8],
}

impl Env for OneWord<'_> {
    fn arg(&self, i: usize, buf: &mut [u8]) -> Result<usize, FillError> {
        if i > 0 {
            return Err(FillError::NotPresent);
        }
        let len = self.bytes.len();
        if buf.len() < len {
            return Err(FillError::TooLong);
        }
        buf[..len].copy_from_slice(self.bytes);
        Ok(len)
    }

    fn var(&self, _name: &str, _buf: &mut [u8]) -> Result<usize, FillError> {
        Err(FillError::NotPresent)
    }

    fn var_at(&self, _i: usize, _buf: &mut [u8]) -> Result<usize, FillError> {
        Err(FillError::NotPresent)
    }
}

fn words_of(alloc: Global, bytes: &[u8]) -> Result<Vec<String>, WordsFault> {
    words(&(OneWord { bytes }, alloc))
}

#[test]
fn a_word_that_is_no_text_is_a_fault_of_its_own(rt: HostRuntime) {
    let given = words_of(rt.alloc(), b"marlowe").expect(&rt, "a word");
    assert_eq!(rt; given.len(), 1);
    assert_eq!(rt; given[0].as_str(), "marlowe");
    let refused = words_of(rt.alloc(), [255].as_slice()).err();
    assert_eq!(rt; refused, Some(WordsFault::NoText));
}
