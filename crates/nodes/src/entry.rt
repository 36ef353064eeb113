//! Nodes with their heights.
use names::collections::{Memory, Same, TryClone};

/// A node with its height: 0 for a leaf, else one more than the greatest height that it names.
#[derive(PartialEq, Eq, Hash, Drop)]
pub struct Entry<N> {
    pub node: N,
    pub height: u16,
}

impl<N: TryClone + Drop> TryClone for Entry<N> {
    fn try_clone(&self) -> Result<Entry<N>, Memory> {
        let node = self.node.try_clone()?;
        Ok(Entry {
            node,
            height: self.height,
        })
    }
}

impl<N: Same> Same for Entry<N> {
    fn same(&self, other: &Entry<N>) -> bool {
        self.node.same(&other.node) && self.height == other.height
    }
}
