//! Laws of legal histories, each the contract of a function that does nothing.
ghost use Rattle.ledger_spec.specs.Publishing.{PublicationsAreEntries, EntriesArePublished, LegalIdsTellContracts, LegalIdsInUse};
ghost use Rattle.ledger_spec.specs.Standing.{LegalHistoriesStand};
ghost use Rattle.ledger_spec.specs.Views.{EachStartIsTold};

use builder_spec::{published_are_tables, published_tell_contracts_apart};

/// After a legal history the tick is the last that an entry advanced to, pending are the enqueued transactions that no
/// round took, in order, and accepted are the Submits answered Accepted and the accepted places of rounds.
pub fn legal_histories_stand()
    ensures { LegalHistoriesStand }
{}

/// What is published under an id after a legal history is what an entry published: a table whose root stands for the
/// entry's contract, with its currency; and what an entry published stands under its id. One id is of one contract and
/// currency, and an entry is answered that its id is in use only where an earlier one published another under it.
pub fn publications_are_entries()
    ensures published { PublicationsAreEntries }
    ensures stands { EntriesArePublished }
    ensures told_apart { LegalIdsTellContracts }
    ensures in_use { LegalIdsInUse }
{
    published_are_tables();
    published_tell_contracts_apart();
}

/// Of a start output a look follows its thread to where it ends; of another it follows none.
pub fn starts_are_told()
    ensures { EachStartIsTold }
{}
