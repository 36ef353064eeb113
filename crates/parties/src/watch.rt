//! Who is told how far parties are.

/// Who is told how far parties are: a caller's tests, and who shows how far a play has come. It is called in the party's thread, and changes no
/// answer: it gives none, and is given no handle, so its calls return.
pub trait Watch {
    /// A call was answered.
    fn answered(&self);

    /// A party has gone through its plan, or was refused memory.
    fn ended(&self);
}

/// The watch that does nothing.
#[derive(Clone, Copy, Debug)]
pub struct NoWatch;

impl Watch for NoWatch {
    fn answered(&self) {}

    fn ended(&self) {}
}
