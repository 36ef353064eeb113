//! A line from its parts.
ghost use Rattle.std.specs.Prelude.{◌≡◌, ◌||◌, not, ◌≤◌, ◌∷◌, ◌++◌, [], ℕ, List, vec_len, vec_capacity};
ghost use Rattle.lines_in.specs.Lines.{is_empty, lines, one_line, longest_line};
ghost use Rattle.lines_in.specs.Held.{so_far, told};

/// The greatest number of bytes of a line, its line feed not counted: 4 MiB.
pub const LONGEST_LINE: usize = 4_194_304;

/// What comes next of a stream.
#[derive(Clone, Copy, Debug)]
pub enum Step {
    /// A line, without its line feed.
    Line = 1,
    /// A line of more than 4 MiB, which isn't kept.
    TooLong = 2,
    /// No line has come whole: more is to be read.
    More = 3,
    /// There is no other line.
    End = 4,
}

// Lets a line go that was given. Its room stays.
pub(crate) fn begin(line: &mut Vec<u8>, is_given: bool)
    requires few { vec_len line.old ≤ longest_line }
    requires room { longest_line ≤ vec_capacity line.old }
    ensures items { line.new.items ≡ so_far is_given line.old.items }
    ensures few { vec_len line.new ≤ longest_line }
    ensures room { longest_line ≤ vec_capacity line.new }
{
    if is_given {
        line.clear();
    }
}

// Puts more bytes behind a line, or drops it where it becomes too long, and tells whether it is. It has room for each line that isn't.
pub(crate) fn grow(line: &mut Vec<u8>, is_long: bool, more: &[u8]) -> bool
    requires few { vec_len line.old ≤ longest_line }
    requires room { longest_line ≤ vec_capacity line.old }
    ensures lines { (rest : List ℕ) → lines result line.new.items rest ≡ lines is_long (line.old.items ++ more.now) rest }
    ensures few { vec_len line.new ≤ longest_line }
    ensures room { longest_line ≤ vec_capacity line.new }
{
    if is_long {
        line.clear();
        return true;
    }
    if more.len() > LONGEST_LINE - line.len() {
        line.clear();
        return true;
    }
    match line.extend_from_slice(more) {
        Ok(()) => false,
        Err(_) => unreachable!(),
    }
}

// Whether anything of a line has come.
#[tactic(auto, using(crate::proofs::LinesLemmas::empty_length))]
pub(crate) fn is_begun(line: &[u8], is_long: bool) -> bool
    ensures { result ≡ (is_long || not (is_empty line.now)) }
{
    if is_long {
        return true;
    }
    !line.is_empty()
}

// What is told of a line that has ended.
pub(crate) fn ended(line: &Vec<u8>, is_long: bool) -> Step
    requires { vec_len line.now ≤ longest_line }
    ensures { told result line.now.items ≡ one_line is_long line.now.items ∷ [] }
{
    if is_long { Step::TooLong } else { Step::Line }
}
