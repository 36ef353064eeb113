//! What an input comes to.

/// What an input comes to where a contract waits.
#[derive(Clone, Copy)]
pub(crate) enum Found {
    /// No case takes it.
    Nowhere,
    /// The case at this index takes it.
    At(usize),
    /// A number of the action of the case at this index leaves 128 bits.
    Leaves(usize),
}
