//! Streams of requests, and their answers: the lines of `stdin`, whose answers are the first lines of `stdout`; a line of more than 4 MiB, and one
//! behind it; a thousand names, and the answer to one more; lines that come a byte at a time, the last without a line feed; these once more by a
//! reader that fails, and to a writer that fails. A line behind each stream tells how it ended.
#![tactic(auto)]

use marlowe_io::Source;
use serve::{
    Definitions, Ended, Readable, ReaderSource, ShortSink, ShortSource, Sink, answer, emit, output,
    serve,
};
use std::alloc::{AllocError, Global};
use std::process::ExitCode;

const READABLE: Readable = Readable {
    depth: 127,
    text_numbers: false,
};

const FEW: &[u8] = b"{\"id\":1,\"define\":{\"x\":\"close\"}}\n\n{\"id\":3,\"forget\":\"x\"}";

fn main(rt: HostRuntime) -> ExitCode {
    let out = rt.stdout();
    let mut answers = output(&out);
    let mut requests = ReaderSource::new(rt.reader());
    stream(rt.alloc(), &mut requests, &mut answers);
    if long_line(rt.alloc(), &mut answers).is_err() {
        return ExitCode::from(1);
    }
    if one_name_more(rt.alloc(), &mut answers).is_err() {
        return ExitCode::from(1);
    }
    few_lines(rt.alloc(), &mut answers, 1_000);
    few_lines(rt.alloc(), &mut answers, 40);
    let mut short = ShortSink::new(output(&out), 10, 2);
    let ended = stream(rt.alloc(), &mut ReaderSource::new(FEW), &mut short);
    tell(&mut answers, b"\n");
    tell(&mut answers, word(ended));
    ExitCode::from(0)
}

// A line of more than 4 MiB, and one behind it.
fn long_line<K: Sink>(alloc: Global, answers: &mut K) -> Result<(), AllocError> {
    let mut long = Vec::new(alloc);
    long.resize(4_194_305, b'x')?;
    long.extend_from_slice(b"\n{\"id\":2,\"forget\":\"x\"}\n")?;
    stream(alloc, &mut ReaderSource::new(long.as_slice()), answers);
    Ok(())
}

// A thousand names, and the answer to one more.
fn one_name_more<K: Sink>(alloc: Global, answers: &mut K) -> Result<(), AllocError> {
    let mut definitions = Definitions::new(alloc);
    let mut last = Vec::new(alloc);
    for number in 1..1_002u64 {
        let line = format!(in alloc; "{{\"id\":{number},\"define\":{{\"n{number}\":\"close\"}}}}")?;
        last = answer(alloc, READABLE, &mut definitions, number, line.as_bytes())?;
    }
    tell(answers, last.as_slice());
    Ok(())
}

// Few lines, of which a byte comes at a read. So many reads succeed.
fn few_lines<K: Sink>(alloc: Global, answers: &mut K, reads: usize) {
    let mut source = ShortSource::new(ReaderSource::new(FEW), 1, reads);
    stream(alloc, &mut source, answers);
}

// The answers to requests, and how the stream ended.
fn stream<S: Source, K: Sink>(alloc: Global, requests: &mut S, answers: &mut K) -> Ended {
    if requests.failed() || answers.failed() {
        return Ended::Memory;
    }
    let ended = serve(alloc, READABLE, requests, answers);
    tell(answers, word(ended));
    ended
}

fn tell<K: Sink>(answers: &mut K, text: &[u8]) {
    if !answers.failed() {
        let _ = emit(answers, text);
    }
}

fn word(ended: Ended) -> &'static [u8] {
    match ended {
        Ended::Answered => b"answered\n",
        Ended::Unreadable => b"unreadable\n",
        Ended::Unwritable => b"unwritable\n",
        Ended::Memory => b"memory\n",
    }
}
