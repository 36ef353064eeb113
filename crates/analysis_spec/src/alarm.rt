//! Alarms.
use crate::kind::AlarmKind;
use crate::path::PathStep;
use contract::Items;

/// Something may go wrong at a place of a contract.
#[derive(Debug, Drop)]
pub struct Alarm {
    pub kind: AlarmKind,
    pub place: Items<PathStep>,
}
