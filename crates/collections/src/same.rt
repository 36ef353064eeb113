//! Exact equality.
ghost use Rattle.std.specs.Prelude.{◌≡◌, ◌↔◌, IsTrue};

use crate::boxed::Boxed;
use crate::bytes::Bytes;
use crate::entries::Entries;
use crate::items::Items;
use crate::text::Text;

/// A value with an exact equality.
pub trait Same {
    /// Whether the two are the same value.
    fn same(&self, other: &Self) -> bool
        ensures { IsTrue result ↔ (self.now ≡ other.now) };
}

impl Same for i128 {
    fn same(&self, other: &i128) -> bool {
        *self == *other
    }
}

impl Same for u32 {
    fn same(&self, other: &u32) -> bool {
        *self == *other
    }
}

impl Same for Text {
    fn same(&self, other: &Text) -> bool {
        *self == *other
    }
}

impl Same for Bytes {
    fn same(&self, other: &Bytes) -> bool {
        *self == *other
    }
}

impl<T: Same> Same for Boxed<T> {
    fn same(&self, other: &Boxed<T>) -> bool {
        self.get().same(other.get())
    }
}

impl<T: Same> Same for Items<T> {
    fn same(&self, other: &Items<T>) -> bool {
        same_items(self.as_slice(), other.as_slice())
    }
}

impl<K: Ord + Drop + Same, V: Copy + Same> Same for Entries<K, V> {
    fn same(&self, other: &Entries<K, V>) -> bool {
        same_entries(self.as_slice(), other.as_slice())
    }
}

fn same_items<T: Same>(xs: &[T], ys: &[T]) -> bool
    ensures { IsTrue result ↔ (xs.now ≡ ys.now) }
{
    if xs.len() != ys.len() {
        return false;
    }
    for i in 0..xs.len() {
        if !xs[i].same(&ys[i]) {
            return false;
        }
    }
    true
}

/// Whether two lists of entries are the same.
pub fn same_entries<K: Same, V: Same>(xs: &[(K, V)], ys: &[(K, V)]) -> bool
    ensures { IsTrue result ↔ (xs.now ≡ ys.now) }
{
    if xs.len() != ys.len() {
        return false;
    }
    for i in 0..xs.len() {
        if !same_entry(&xs[i], &ys[i]) {
            return false;
        }
    }
    true
}

fn same_entry<K: Same, V: Same>(x: &(K, V), y: &(K, V)) -> bool
    ensures { IsTrue result ↔ (x.now ≡ y.now) }
{
    x.0.same(&y.0) && x.1.same(&y.1)
}
