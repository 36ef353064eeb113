//! An index as a ledger.
ghost use Rattle.std.specs.Prelude.{◌≡◌};
ghost use Rattle.chain_index.specs.Contents.{moment_at};

use crate::index::Index;
use ledger_spec::{Ledger, Output, OutputRef, Published, Resolves, Shared};

/// What is indexed, at a tick in POSIX milliseconds, as the rules read it.
#[derive(Clone, Copy)]
pub struct IndexAt<'a> {
    pub index: &'a Index,
    pub tick: i64,
}

impl<'a> Resolves<Published> for IndexAt<'a> {
    ghost moment = { λ a. moment_at a.index.now.present a.tick };

    fn unspent_at(&self, reference: &OutputRef) -> Option<&Output> {
        self.index.unspent_at(reference)
    }

    fn published_at(&self, script: &[u8; 32]) -> Option<&Shared<Published>> {
        self.index.published_at(script)
    }
}

impl<'a> Ledger<Published> for IndexAt<'a> {
    fn is_used(&self, id: &[u8; 32]) -> bool {
        self.index.is_used(id)
    }

    fn tick(&self) -> i64 {
        self.tick
    }
}
