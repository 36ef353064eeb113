//! Where the contracts go on that a transaction spends.
ghost use Rattle.std.specs.Prelude.{◌≡◌, ◌<◌, ◌∷◌, [], ◌++◌, length};

use std::marker::Model;

/// Of each contract that a transaction spends, in the order of the inputs, the place of the output in which it goes on,
/// or `None` where it is over. They are at most 8 and take no memory. Clauses see their list.
#[derive(Drop)]
pub struct Places {
    at: [Option<u64>; 8],
    count: usize,
}

impl Model for Places {
    ghost use Rattle.std.specs.Prelude.{ℕ, ◌≤◌, List, Option, take};
    ghost use Rattle.std.specs.Coded.{coded_list, coded_option, coded_ℕ};

    ghost Value = { List (Option ℕ) };

    ghost coded = { coded_list (coded_option coded_ℕ) };

    ghost view = { λ p. take p.count p.at };

    ghost invariant = { λ p. p.count ≤ 8 };
}

impl Places {
    /// None at all.
    pub fn none() -> Places
        ensures { result ≡ [] }
    {
        Places {
            at: [None; 8],
            count: 0,
        }
    }

    /// Puts the place of one contract more behind the others.
    pub(crate) fn push(&mut self, place: Option<u64>)
        requires { length self.old < 8 }
        ensures { self.new ≡ self.old ++ place ∷ [] }
    {
        self.at[self.count] = place;
        self.count += 1;
    }

    /// How many contracts they are of.
    pub fn len(&self) -> usize
        ensures { result ≡ length self.now }
    {
        self.as_slice().len()
    }

    /// The places, in order.
    pub fn as_slice(&self) -> &[Option<u64>]
        ensures { result.now ≡ self.now }
    {
        &self.at[..self.count]
    }

    /// The same once more.
    pub fn copy(&self) -> Places
        ensures { result ≡ self.now }
    {
        Places {
            at: self.at,
            count: self.count,
        }
    }
}
