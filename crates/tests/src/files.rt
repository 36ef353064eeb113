//! Texts that come and go in short pieces, and calls that fail.
use marlowe_io::{
    LONGEST, LoadFault, ReaderSource, ShortSink, ShortSource, Unwritable, WriterSink, emit,
    emit_output, load,
};
use std::alloc::Global;
use std::fmt::Display;
use std::io;
use std::sync::atomic::{AtomicUsize, Ordering};

const TEXT: &[u8] = b"when money moves";

// What is loaded of the text, so many bytes at a read, where reads fail after so many.
fn loaded(alloc: Global, most: usize, calls: usize) -> Result<Vec<u8>, LoadFault> {
    let source = ReaderSource::new(TEXT);
    load(alloc, &mut ShortSource::new(source, most, calls))
}

// What goes out of the text, so many bytes at a write, where writes fail after so many.
fn emitted(out: &mut Vec<u8>, most: usize, calls: usize) -> Result<(), Unwritable> {
    let sink = WriterSink::new(out);
    emit(&mut ShortSink::new(sink, most, calls), TEXT)
}

#[test]
fn short_reads_give_the_whole_text(rt: HostRuntime) {
    for most in 1..20 {
        let text = loaded(rt.alloc(), most, 20).expect(&rt, "a text");
        assert_eq!(rt; text.as_slice(), TEXT);
    }
}

#[test]
fn a_read_that_fails_gives_no_text(rt: HostRuntime) {
    // two bytes at a read: eight reads have them all, and the ninth finds the end
    for calls in 0..9 {
        assert_eq!(rt;
            loaded(rt.alloc(), 2, calls).err(),
            Some(LoadFault::Unreadable)
        );
    }
    assert_eq!(rt; loaded(rt.alloc(), 2, 9).err(), None);
}

#[test]
fn no_byte_past_the_longest_text_is_asked_for(rt: HostRuntime) {
    let bytes = vec![in rt.alloc(); 7u8; LONGEST + 5].expect(&rt, "bytes");
    let mut left = bytes.as_slice();
    let source = ReaderSource::new(&mut left);
    let text = load(rt.alloc(), &mut ShortSource::new(source, 1_000, LONGEST)).expect(
        &rt, "a text",
    );
    assert_eq!(rt; text.len(), LONGEST);
    assert_eq!(rt; left.len(), 5);
}

#[test]
fn short_writes_take_the_whole_text(rt: HostRuntime) {
    for most in 1..20 {
        let mut out = Vec::new(rt.alloc());
        assert_eq!(rt; emitted(&mut out, most, 20), Ok(()));
        assert_eq!(rt; out.as_slice(), TEXT);
    }
}

#[test]
fn a_write_that_fails_leaves_a_beginning(rt: HostRuntime) {
    // three bytes at a write: six writes take the sixteen
    for calls in 0..6 {
        let mut out = Vec::new(rt.alloc());
        assert_eq!(rt; emitted(&mut out, 3, calls), Err(Unwritable));
        assert_eq!(rt; out.as_slice(), &TEXT[..3 * calls]);
    }
}

// Standard output that takes so many bytes at a write, and counts those that it took.
#[derive(Drop)]
struct Counted {
    taken: AtomicUsize,
    most: usize,
}

impl Print for Counted {
    fn print<D: Display + Drop>(&self, _value: D) -> io::Result<()> {
        Err(io::Error::from(io::ErrorKind::Unsupported))
    }

    fn println<D: Display + Drop>(&self, _value: D) -> io::Result<()> {
        Err(io::Error::from(io::ErrorKind::Unsupported))
    }

    fn write_all(&self, _bytes: &[u8]) -> io::Result<()> {
        Err(io::Error::from(io::ErrorKind::Unsupported))
    }

    fn write_some(&self, bytes: &[u8]) -> io::Result<usize> {
        let count = bytes.len().min(self.most);
        self.taken.fetch_add(count, Ordering::SeqCst);
        Ok(count)
    }
}

#[test]
fn a_long_text_is_printed_whole(rt: HostRuntime) {
    let text = vec![in rt.alloc(); 7u8; 1_000_000].expect(&rt, "bytes");
    for most in [1_000, 65_536, 1_000_000] {
        let output = Counted {
            taken: AtomicUsize::new(0),
            most,
        };
        assert_eq!(rt; emit_output(&output, text.as_slice()), Ok(()));
        assert_eq!(rt; output.taken.load(Ordering::SeqCst), 1_000_000);
    }
}
