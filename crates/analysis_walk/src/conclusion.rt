//! What is concluded of a step.
use analysis_spec::AlarmKind;
use contract::Items;

/// What may go wrong at a step, and what is known afterwards: nothing where the step can't be.
#[derive(Drop)]
pub struct Conclusion<K> {
    pub kinds: Items<AlarmKind>,
    pub known: Option<K>,
}

/// What may go wrong where an observation is looked at, and what is known where it is true and where it is false:
/// nothing where that can't be.
#[derive(Drop)]
pub struct Branches<K> {
    pub kinds: Items<AlarmKind>,
    pub if_true: Option<K>,
    pub if_false: Option<K>,
}
