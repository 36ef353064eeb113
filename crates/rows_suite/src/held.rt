//! The cases of a file, and what they are answered.
use crate::case::Case;
use crate::pieces::put_pieces;
use json::Scratch;
use serve::{Ended, Readable, ReaderSource, WriterSink, beside_dropped, from_slice, serve};
use std::alloc::Global;
use std::{io, str};

const READABLE: Readable = Readable {
    depth: 127,
    text_numbers: false,
};

/// What is printed of the cases of a file, and whether all are answered as they say.
pub fn held(alloc: Global, path: &str, cases: &str) -> io::Result<(String, bool)> {
    let requests = requests_of(alloc, cases)?;
    let answers = answers_to(alloc, requests.as_slice())?;
    match str::from_utf8(answers.as_slice()) {
        Ok(answers) => compared(alloc, path, cases, answers),
        Err(_) => Err(io::Error::from(io::ErrorKind::InvalidData)),
    }
}

// The requests of cases, a line each.
fn requests_of(alloc: Global, cases: &str) -> io::Result<Vec<u8>> {
    let mut requests = Vec::new(alloc);
    for line in cases.lines() {
        if let Some(case) = Case::of(line) {
            put_request(alloc, &mut requests, case.asked)?;
        }
        requests.push(b'\n')?;
    }
    Ok(requests)
}

fn put_request(alloc: Global, requests: &mut Vec<u8>, asked: &str) -> io::Result<()> {
    if !asked.starts_with('[') {
        requests.extend_from_slice(asked.as_bytes())?;
        return Ok(());
    }
    let mut scratch = Scratch::new(alloc);
    match from_slice(alloc, asked.as_bytes(), &mut scratch) {
        Ok(pieces) => {
            let put = put_pieces(requests, &pieces);
            beside_dropped(pieces, put)
        }
        Err(_) => Err(io::Error::from(io::ErrorKind::InvalidData)),
    }
}

// The answers to requests, a line each.
fn answers_to(alloc: Global, requests: &[u8]) -> io::Result<Vec<u8>> {
    let mut answers = Vec::new(alloc);
    match stream(alloc, requests, &mut answers) {
        Ended::Answered => Ok(answers),
        _ => Err(io::Error::from(io::ErrorKind::Other)),
    }
}

fn stream(alloc: Global, requests: &[u8], answers: &mut Vec<u8>) -> Ended {
    let mut input = ReaderSource::new(requests);
    let mut output = WriterSink::new(answers);
    serve(alloc, READABLE, &mut input, &mut output)
}

// What is printed of cases that are answered so.
fn compared(alloc: Global, path: &str, cases: &str, answers: &str) -> io::Result<(String, bool)> {
    let mut told = String::new(alloc);
    let mut agree = 0usize;
    let mut asked = 0usize;
    let mut answers = answers.lines();
    for line in cases.lines() {
        asked = asked.saturating_add(1);
        let answer = answers.next().unwrap_or("");
        if agrees(line, answer) {
            agree = agree.saturating_add(1);
        } else {
            let differs = format!(in alloc; "case {asked}: {answer}\n")?;
            told.push_str(differs.as_str())?;
        }
    }
    let total = format!(in alloc; "{path}: {agree} of {asked} cases\n")?;
    told.push_str(total.as_str())?;
    Ok((told, agree == asked))
}

fn agrees(line: &str, answer: &str) -> bool {
    match Case::of(line) {
        Some(case) => case.is_answered_by(answer),
        None => false,
    }
}
