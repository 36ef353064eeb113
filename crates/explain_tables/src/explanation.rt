//! Why a contract has no table.
use analysis_spec::PathStep;
use contract::Items;

/// Why a contract has no table, and where.
#[derive(Drop)]
pub enum Explanation {
    /// `TooDeep`: at this place of the contract it is deeper than 999 parts: the part there stands too deep, or its value or its
    /// observation is too deep.
    Deep(Items<PathStep>),
    /// `TooManyNodes`: it has so many continuations, which are more than 65,535.
    Continuations(u32),
    /// `TooManyNodes`: it has so many values, observations and cases, which are more than 1,000,000.
    Others(u32),
}
