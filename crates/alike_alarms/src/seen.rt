//! Alarms as they are told.
use analysis_spec::Alarm;

/// An alarm, and whether a run is known that ends in it.
#[derive(Clone, Copy)]
pub struct Seen<'a> {
    pub alarm: &'a Alarm,
    pub has_run: bool,
}
