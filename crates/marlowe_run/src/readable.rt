//! Which texts are readable.

/// How deep lists and objects of a contract or a scenario may nest, and whether a number of a state may be a text of its digits.
#[derive(Clone, Copy, Debug)]
pub struct Readable {
    /// The levels of lists and objects of a contract or a scenario, 127 where nothing else is asked. Each takes stack. States,
    /// transactions and inputs have 127 always.
    pub depth: usize,
    /// Whether a number of the state may also be a text of its digits, as `read_state_with_texts` has it.
    pub text_numbers: bool,
}
