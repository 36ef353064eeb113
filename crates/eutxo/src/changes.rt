//! What is spent and made, token by token.
ghost use Rattle.std.specs.Prelude.{◌≡◌, ◌++◌, pos, ◌<ℤ◌, true, false, IfOk, OnOk};
ghost use Rattle.std.specs.List.Sorted.{IsPermutation};
ghost use Rattle.eutxo_types.specs.Bundle.Bundles.{AllPositive};
ghost use Rattle.eutxo.specs.ChangesSupport.{signed, signed_entries, changes_of, NeverFalls};

use contract::Memory;
use contract::names::{Token, compare_tokens};
use eutxo_types::Holds;
use std::alloc::Global;
use std::marker::Model;

/// A token and its amount, which counts against the others where it is made.
#[derive(Drop)]
pub(crate) struct Change<'a> {
    entry: &'a (Token, i128),
    made: bool,
}

impl<'a> Model for Change<'a> {
    ghost use Rattle.std.specs.Prelude.{ℤ, pos, ◌<ℤ◌};
    ghost use Rattle.std.specs.Coded.{coded×, coded_ℤ};
    ghost use Rattle.contract.specs.Names.declared.token.Token.{Token};
    ghost use Rattle.contract.specs.Names.contracts.token.Token as tokens;
    ghost use Rattle.eutxo.specs.ChangesSupport.{signed};

    ghost Value = { Token × ℤ };

    ghost coded = { coded× tokens.the_row.coded coded_ℤ };

    ghost view = { λ a. (a.entry.now.0, signed a.made a.entry.now.1) };

    ghost invariant = { λ a. pos 0 <ℤ a.entry.now.1 };
}

impl<'a> Change<'a> {
    fn new(entry: &'a (Token, i128), made: bool) -> Change<'a>
        requires { pos 0 <ℤ entry.now.1 }
        ensures { result ≡ (entry.now.0, signed made entry.now.1) }
    {
        Change { entry, made }
    }

    /// Its token.
    pub(crate) fn token(&self) -> &'a Token
        ensures { result.now ≡ self.now.0 }
    {
        &self.entry.0
    }

    /// How much more is spent than made by it.
    pub(crate) fn amount(&self) -> i128
        ensures { result ≡ self.now.1 }
    {
        if self.made {
            -self.entry.1
        } else {
            self.entry.1
        }
    }
}

fn put_entries<'a>(
    changes: &mut Vec<Change<'a>>,
    entries: &'a [(Token, i128)],
    made: bool,
) -> Result<(), Memory>
    requires { AllPositive entries.now }
    ensures { OnOk result (changes.new.items ≡ changes.old.items ++ signed_entries made entries.now) }
{
    for entry in entries {
        changes.push(Change::new(entry, made))?;
    }
    Ok(())
}

// Puts the amounts of all that these hold at the end.
fn put_all<'a, A: Holds>(
    changes: &mut Vec<Change<'a>>,
    items: &'a [A],
    made: bool,
) -> Result<(), Memory>
    ensures { OnOk result (changes.new.items ≡ changes.old.items ++ changes_of A.held made items.now) }
{
    for item in items {
        put_entries(changes, item.amounts().entries(), made)?;
    }
    Ok(())
}

fn sort_by_token(changes: &mut [Change<'_>])
    ensures sorted { NeverFalls changes.new }
    ensures same { IsPermutation changes.old changes.new }
{
    changes.sort_unstable_by(|a, b| compare_tokens(a.token(), b.token()));
}

/// The amounts of all that is spent and made, in the order of their tokens.
pub(crate) fn changes_between<'a, A: Holds, B: Holds>(
    alloc: Global,
    spent: &'a [A],
    made: &'a [B],
) -> Result<Vec<Change<'a>>, Memory>
    ensures sorted { IfOk result (λ all. NeverFalls all.items) }
    ensures same { IfOk result (λ all. IsPermutation (changes_of A.held false spent.now ++ changes_of B.held true made.now) all.items) }
{
    let mut changes = Vec::new(alloc);
    put_all(&mut changes, spent, false)?;
    put_all(&mut changes, made, true)?;
    sort_by_token(&mut changes);
    Ok(changes)
}
