//! How much stack commands need.

/// The stack of a thread that runs commands, in bytes. It holds texts that nest 4,000 deep, of which an analysis takes the most for a level.
pub const STACK: usize = 268_435_456;
