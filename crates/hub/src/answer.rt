//! Answered calls.
use chain::{Call, Reply};

/// What a seat keeps of an answered call: the place of its entry in the history, how many entries of the seat stand before it, the call and the reply.
pub struct Answer {
    pub place: u64,
    pub number: u64,
    pub call: Call,
    pub reply: Reply,
}

// Dropped once; call and reply are carried generically to where they are dropped.
impl Drop for Answer {
    fn drop(self) {
        let Answer {
            place: _,
            number: _,
            call,
            reply,
        } = self;
        drop(call);
        drop(reply);
    }
}
