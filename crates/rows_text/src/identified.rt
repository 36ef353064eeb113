//! What has a name and an id.

/// Something with an id, under the name that the rows give it.
pub trait Identified {
    /// Its name.
    fn name(&self) -> &str;

    /// Its id, or that of its script.
    fn id(&self) -> [u8; 32];
}

/// The first of a name.
pub fn by_name<'a, T: Identified>(things: &'a [T], name: &str) -> Option<&'a T> {
    for thing in things {
        if thing.name() == name {
            return Some(thing);
        }
    }
    None
}

/// The first of an id.
pub fn by_id<'a, T: Identified>(things: &'a [T], id: &[u8; 32]) -> Option<&'a T> {
    for thing in things {
        if thing.id() == *id {
            return Some(thing);
        }
    }
    None
}
