//! Names of choices.
use crate::party::Party;
use collections::{Memory, Text, TryClone};

/// A choice that a party may make (Marlowe specification version 3, "Choices"): its name and its owner.
/// Choices stand by name, then by owner.
#[derive(Debug, PartialEq, Eq, PartialOrd, Ord, Hash, Drop)]
pub struct ChoiceId {
    pub name: Text,
    pub owner: Party,
}

impl TryClone for ChoiceId {
    fn try_clone(&self) -> Result<ChoiceId, Memory> {
        let name = self.name.try_clone()?;
        let owner = self.owner.try_clone()?;
        Ok(ChoiceId { name, owner })
    }
}
