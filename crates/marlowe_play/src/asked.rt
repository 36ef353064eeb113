//! What is asked of a play, and what is answered.
ghost use Rattle.std.specs.Prelude.{◌≡◌, if◌then◌else◌};

/// What is told of a play.
#[derive(Clone, Copy, Debug, Drop)]
pub enum Face {
    /// A line for each entry, for each thread and for the number of entries.
    Plain,
    /// The same with what stands behind entries, with a line for each intent, and with who holds what.
    Explained,
    /// As much as that, an object of JSON a line.
    Objects,
}

/// What is asked of a play.
#[derive(Clone, Copy, Debug)]
pub struct Asked<'a> {
    /// The plans are played one after another, and else all at once.
    pub one: bool,
    /// What is told.
    pub face: Face,
    /// How deep lists and objects of the scenario's text may nest.
    pub depth: usize,
    /// Whether all went well is asked: each intent of each plan is done, and each thread is closed.
    pub strict: bool,
    /// The names of threads that may stay open all the same. A name that no thread has asks for nothing.
    pub kept_open: &'a [&'a str],
}

/// What is answered of a play.
#[derive(Drop)]
pub struct Played {
    /// What is printed.
    pub text: Vec<u8>,
    /// Whether all went well; where that wasn't asked, it did.
    pub well: bool,
}

impl Played {
    /// The status of a program that plays: 3 where not all went well, and else 0.
    pub fn status(&self) -> u8
        ensures { result ≡ (if self.now.well then 0 else 3) }
    {
        if self.well { 0 } else { 3 }
    }
}
