//! What is called round each check.

/// What a caller has done round each check, in the thread that makes it. It is for a caller's tests and
/// measurements: that jobs are checked at once, and when. It changes no answer. A gate is given no handle, so
/// its calls return; one that has a job wait for another gives up after a number of turns, since both may be
/// checked by one thread.
pub trait Gate: Sync {
    /// The check of the job at this place in the list of jobs is about to begin.
    fn enter(&self, job: usize);

    /// The check of the job at this place has ended, also where it was refused memory.
    fn leave(&self, job: usize);
}

/// The gate that does nothing.
#[derive(Drop)]
pub struct NoGate;

impl Gate for NoGate {
    fn enter(&self, _job: usize) {}

    fn leave(&self, _job: usize) {}
}
