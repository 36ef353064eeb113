//! The headline, of every legal history.
ghost use Rattle.ledger_views.specs.LedgerSpec.Headline.{LegalHistoriesHaveBothHalves};

use builder_laws::{
    anyone_closes_after_the_last_timeout, bytes_tell_accepted_apart, claims_are_accepted,
    parts_are_accepted, shown_threads_are_current, starts_are_accepted,
};
use ledger_views::{
    Published, accepting_is_sound, contracts_are_funded, contracts_end_threads, found_is_enough,
    names_are_single, outputs_are_spent_once, outputs_serve_one_contract, parties_are_authorised,
    publications_are_entries, publishing_is_sound, starting_is_sound, starts_are_told,
    steps_stand_on_threads, threads_are_runs, tokens_are_preserved,
};

/// Both halves of the headline hold of every legal history that began with key outputs and whose accepted transactions
/// fit their spelling: after the whole of it, and before each of its entries. So they hold of the history of a closed
/// hub as they do of a `Chain`, at each moment of it. It does nothing.
pub fn both_halves_hold_of_legal_histories()
    ensures { LegalHistoriesHaveBothHalves }
{
    found_is_enough::<Published>();
    starting_is_sound::<Published>();
    accepting_is_sound::<Published>();
    publishing_is_sound::<Published>();
    publications_are_entries();
    threads_are_runs();
    steps_stand_on_threads::<Published>();
    contracts_end_threads::<Published>();
    parties_are_authorised();
    contracts_are_funded();
    names_are_single::<Published>();
    outputs_are_spent_once::<Published>();
    outputs_serve_one_contract::<Published>();
    tokens_are_preserved::<Published>();
    parts_are_accepted();
    starts_are_accepted();
    claims_are_accepted();
    bytes_tell_accepted_apart();
    shown_threads_are_current();
    starts_are_told();
    anyone_closes_after_the_last_timeout();
}
