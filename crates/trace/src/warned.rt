//! Warnings and where they come from.
use analysis_spec::PathStep;
use contract::{Items, Warning};

/// A warning, and the place of the contract that it comes from.
#[derive(Drop)]
pub struct Warned {
    /// The steps that lead there.
    pub place: Items<PathStep>,
    pub warning: Warning,
}
