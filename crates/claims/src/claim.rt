//! Claims.

/// A range of numbers of a lane, ends included, and who claims it: none where `from` is above `to`. Numbers of two
/// lanes have nothing to do with one another.
#[derive(Clone, Copy, Drop)]
pub struct Claim<K> {
    pub lane: K,
    pub from: i128,
    pub to: i128,
    pub by: usize,
}
