//! What is printed of a file of rows.
use std::alloc::{AllocError, Global};

/// The rows of a file so far, each beside the answer that is written below it.
#[derive(Drop)]
pub struct Report<'t> {
    path: &'t str,
    /// Whether the file has answers. Where it has none, what comes is printed.
    has_answers: bool,
    line: u64,
    rows: u64,
    differing: u64,
    /// The line of the last row, what came, and what is wanted, each line with a line feed.
    row: u64,
    came: Vec<u8>,
    wanted: Vec<u8>,
    printed: Vec<u8>,
}

impl<'t> Report<'t> {
    /// Before the first line of a file. Takes no memory.
    pub fn new(alloc: Global, path: &'t str, text: &str) -> Report<'t> {
        Report {
            path,
            has_answers: has_answers(text),
            line: 0,
            rows: 0,
            differing: 0,
            row: 0,
            came: Vec::new(alloc),
            wanted: Vec::new(alloc),
            printed: Vec::new(alloc),
        }
    }

    /// The path of the file.
    pub fn path(&self) -> &'t str {
        self.path
    }

    /// Takes a line in. Whether it is the session's, and no answer to the row before it.
    pub fn take(&mut self, alloc: Global, line: &str) -> Result<bool, AllocError> {
        self.line = self.line.saturating_add(1);
        match line.strip_prefix('=') {
            Some(wanted) => {
                self.want(wanted.strip_prefix(' ').unwrap_or(wanted))?;
                Ok(false)
            }
            None => {
                self.close_row(alloc)?;
                Ok(true)
            }
        }
    }

    /// Keeps what the line answers.
    pub fn come(&mut self, answer: &[u8]) -> Result<(), AllocError> {
        self.row = self.line;
        put_line(&mut self.came, answer)
    }

    // Keeps what the row before must answer.
    fn want(&mut self, line: &str) -> Result<(), AllocError> {
        if self.came.is_empty() && self.wanted.is_empty() {
            self.row = self.line;
        }
        put_line(&mut self.wanted, line.as_bytes())
    }

    // Compares what came of the last row with what is wanted.
    fn close_row(&mut self, alloc: Global) -> Result<(), AllocError> {
        if self.came.is_empty() && self.wanted.is_empty() {
            return Ok(());
        }
        self.rows = self.rows.saturating_add(1);
        if !self.has_answers {
            self.printed.extend_from_slice(self.came.as_slice())?;
        } else if self.came != self.wanted {
            self.put_difference(alloc)?;
        }
        self.came.clear();
        self.wanted.clear();
        Ok(())
    }

    fn put_difference(&mut self, alloc: Global) -> Result<(), AllocError> {
        self.differing = self.differing.saturating_add(1);
        let place = format!(in alloc; "{}:{}", self.path, self.row);
        put_text(&mut self.printed, place)?;
        put_lines(&mut self.printed, b"  wanted", or_nothing(&self.wanted))?;
        put_lines(&mut self.printed, b"  came  ", or_nothing(&self.came))
    }

    /// Closes the last row, and puts the line for the file at the end.
    pub fn finish(&mut self, alloc: Global) -> Result<(), AllocError> {
        self.close_row(alloc)?;
        if !self.has_answers {
            return Ok(());
        }
        let told = told(alloc, self.path, self.rows, self.differing);
        put_text(&mut self.printed, told)
    }

    /// What is printed.
    pub fn text(&self) -> &[u8] {
        self.printed.as_slice()
    }

    /// Whether all rows are answered as the file says.
    pub fn is_as_written(&self) -> bool {
        self.differing == 0
    }
}

// Whether a line of a file is an answer.
fn has_answers(text: &str) -> bool {
    for line in text.lines() {
        if line.starts_with('=') {
            return true;
        }
    }
    false
}

// What is printed of a file once all its rows are compared.
fn told(alloc: Global, path: &str, rows: u64, differing: u64) -> Result<String, AllocError> {
    match differing {
        0 => format!(in alloc; "{path} ok {rows} rows"),
        _ => format!(in alloc; "{path} {differing} of {rows} rows differ"),
    }
}

// Lines, or the word `nothing` where there is none.
fn or_nothing(lines: &[u8]) -> &[u8] {
    if lines.is_empty() { b"nothing" } else { lines }
}

fn put_text(printed: &mut Vec<u8>, text: Result<String, AllocError>) -> Result<(), AllocError> {
    let text = text?;
    put_line(printed, text.as_bytes())
}

/// Puts a line at the end.
pub fn put_line(printed: &mut Vec<u8>, line: &[u8]) -> Result<(), AllocError> {
    printed.extend_from_slice(line)?;
    printed.push(b'\n')?;
    Ok(())
}

/// Puts each line behind a word, which stands alone where a line is empty; a text without any is one empty line.
pub fn put_lines(printed: &mut Vec<u8>, word: &[u8], lines: &[u8]) -> Result<(), AllocError> {
    for line in without_end(lines).split(|byte| *byte == b'\n') {
        printed.extend_from_slice(word)?;
        if !line.is_empty() {
            printed.push(b' ')?;
        }
        put_line(printed, line)?;
    }
    Ok(())
}

/// A text without the line feed at its end.
pub fn without_end(text: &[u8]) -> &[u8] {
    text.strip_suffix(b"\n").unwrap_or(text)
}
