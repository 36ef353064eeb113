//! What a search may still do, in units of work. A unit is what at most a hundred instructions do.

/// Takes a cost off the work that is left, and tells whether there was as much. If not, none is left.
pub fn spend(left: &mut u64, cost: u64) -> bool {
    if cost <= *left {
        *left -= cost;
        true
    } else {
        *left = 0;
        false
    }
}
