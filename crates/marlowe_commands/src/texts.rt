//! What paths hold.
use serve::LoadFault;
use std::alloc::Global;

/// Where the paths of a command line lead.
pub trait Texts {
    /// What the file at a path holds, or its first 1,048,577 bytes.
    fn text(&self, alloc: Global, path: &str) -> Result<Vec<u8>, LoadFault>;
}
