//! Laws of what is indexed, each the contract of a function that does nothing.
ghost use Rattle.ledger_spec.specs.Roles.Steps.{marlowe};
ghost use Rattle.chain_index.specs.Laws.{ReadsAlike, AcceptsAlike, PlacesAlike, PublishesAlike, JudgedCanBeAdded};
ghost use Rattle.chain_index.specs.Laws.{ThreadsAlike, EndsAlike, StartsAlike, DataAlike};

use ledger_spec::{
    Published, accepting_is_sound, found_is_enough, found_tells_places, threads_stay,
};

/// The rules read the same of what is indexed of a past as of the past.
pub fn index_reads_alike()
    ensures { ReadsAlike }
{}

/// A transaction that no rule refuses can be added, and where the past is sound, what is indexed then is what is
/// indexed of the past after it, and what is found of it tells in which places its contracts go on.
pub fn index_accepts_alike()
    ensures alike { AcceptsAlike }
    ensures places { PlacesAlike }
    ensures added { JudgedCanBeAdded marlowe }
{
    accepting_is_sound::<Published>();
    threads_stay::<Published>();
    found_is_enough::<Published>();
    found_tells_places::<Published>();
}

/// Where the past is sound, what is indexed after a publication under a new id is what is indexed of the past where
/// that is published too.
pub fn index_publishes_alike()
    ensures { PublishesAlike }
{
    threads_stay::<Published>();
}

/// On a sound past the moves lead along the thread of each contract output, transaction by transaction, to its end, and
/// tell of each output the end of the thread that it starts; and the starts that are told are those of the past.
pub fn index_follows_threads()
    ensures threads { ThreadsAlike }
    ensures ends { EndsAlike }
    ensures starts { StartsAlike }
{
    found_is_enough::<Published>();
}

/// Of each unspent contract output of a past the datum is told that its maker brought for it.
pub fn index_tells_data()
    ensures { DataAlike }
{}
