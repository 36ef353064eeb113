//! The engine for callers that are not Rattle: a static library, whose functions `bindings/c/marlowe.h` declares.
#![tactic(auto)]

mod answering;
mod face;
mod parts;
mod session;

pub use face::{
    marlowe_answer, marlowe_session_answer, marlowe_session_close, marlowe_session_open,
};
pub use session::Session;
