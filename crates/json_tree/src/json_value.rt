//! What readers ask of a JSON value.
ghost use Rattle.std.specs.Prelude.{◌≡◌, option_map, option_and_then, is_some, map};
ghost use Rattle.serde_json.specs.Data.{Data};
ghost use Rattle.serde_json.specs.Find.{get, as_bool, as_number, as_str, as_array, as_u64, as_i64};
ghost use Rattle.serde_json.specs.View.{view, items_of};

use serde_json::Value;

/// A JSON value, however it is held: a `serde_json::Value`, or a tree that borrows its text. A reader that
/// is written over this trait reads both, and reads the same from both where they stand for the same data.
pub trait JsonValue {
    // The data that the value stands for, as `serde_json` has it.
    ghost json: { Self → Data };

    /// The member of that name, where this is an object that has one. Of a name that was given twice it is
    /// the last.
    fn member(&self, name: &str) -> Option<&Self>
        ensures { option_map (λ v. json v.now) result ≡ get name.now (json self.now) };

    /// The truth value, where this is one.
    fn truth(&self) -> Option<bool>
        ensures { result ≡ as_bool (json self.now) };

    /// The text, where this is one.
    fn text(&self) -> Option<&str>
        ensures { option_map (λ s. s.now) result ≡ as_str (json self.now) };

    /// The items in order, where this is a list.
    fn items(&self) -> Option<&[Self]>
        ensures { option_map (λ v. items_of (map json v.now)) result ≡ as_array (json self.now) };

    /// Whether this is a number.
    fn is_number(&self) -> bool
        ensures { result ≡ is_some (as_number (json self.now)) };

    /// The number, where this is a whole one from 0 to 2^64 - 1.
    fn natural(&self) -> Option<u64>
        ensures { result ≡ option_and_then as_u64 (as_number (json self.now)) };

    /// The number, where this is a whole one from -2^63 to 2^63 - 1.
    fn integer(&self) -> Option<i64>
        ensures { result ≡ option_and_then as_i64 (as_number (json self.now)) };
}

impl JsonValue for Value {
    ghost json = { view };

    fn member(&self, name: &str) -> Option<&Value> {
        self.get(name)
    }

    fn truth(&self) -> Option<bool> {
        self.as_bool()
    }

    fn text(&self) -> Option<&str> {
        self.as_str()
    }

    fn items(&self) -> Option<&[Value]> {
        match self.as_array() {
            Some(items) => Some(items.as_slice()),
            None => None,
        }
    }

    fn is_number(&self) -> bool {
        self.as_number().is_some()
    }

    fn natural(&self) -> Option<u64> {
        self.as_u64()
    }

    fn integer(&self) -> Option<i64> {
        self.as_i64()
    }
}
