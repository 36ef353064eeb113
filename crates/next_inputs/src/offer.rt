//! What a case offers.
use contract::{Bound, Items};

/// What a case of a When offers to the next input (Marlowe specification version 3, "Apply cases"): the inputs that it
/// takes, up to its account, party and token or its choice, which the case itself has.
#[derive(Drop)]
pub enum Offer {
    /// It takes no input: earlier cases take all that it would take, or its observation is false.
    Nothing,
    /// A deposit of this amount, in the token's smallest unit; 0 or less too, which is taken with a warning.
    Deposit(i128),
    /// A choice of a number in one of these bounds. There is one at least, and they lie apart and in order.
    Choice(Items<Bound>),
    /// A notify.
    Notify,
    /// No input that comes to it is taken: a number of its value or its observation leaves 128 bits.
    Leaves128,
}
