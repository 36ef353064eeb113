//! What a thread is handed.
use crate::hub::Hub;
use crate::seat::Seat;
use crate::session::Session;

/// A seat at its hub: what a thread is handed to call by.
#[derive(Drop)]
pub struct SeatAtHub<'a, J: Session> {
    pub hub: &'a Hub<J>,
    pub seat: Seat<J>,
}
