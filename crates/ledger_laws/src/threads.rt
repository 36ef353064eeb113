//! Laws of Marlowe's contracts.
ghost use Rattle.ledger_laws.specs.Laws.{ThreadsAreRuns, ThreadsEndWithRuns, DigestsTellWhatWasMade, ContractsAreFunded, ContractsAreOfTables, PartiesAreAuthorised};

use roles::{
    Published, blocks_tell_contracts_apart, found_is_enough, turns_lead_to_the_remaining_contract,
};

/// The thread of each start output carries exactly one list of members, on the contract that was published under its
/// script: input for input, with the warnings, payments, states and remaining contracts that the transaction function
/// gives (Marlowe specification version 3, "Compute transaction") from the datum that each transaction brings for the
/// output that it spends. It starts at the contract's root, without choices and bound values. Where the thread has an
/// end, its datum says where the last member left it. And where each transaction brings the datum that the output's
/// maker brought, the members are a run of the contract, from the state in the start's datum: so it is where no two
/// different data that accepted transactions bring have one digest.
pub fn threads_are_runs()
    ensures run { ThreadsAreRuns }
    ensures end { ThreadsEndWithRuns }
    ensures digests { DigestsTellWhatWasMade }
{
    found_is_enough::<Published>();
    turns_lead_to_the_remaining_contract();
}

/// Each unspent contract output holds exactly the sums of its accounts, and stands at a number of the
/// table that was published under its script.
pub fn contracts_are_funded()
    ensures sums { ContractsAreFunded }
    ensures number { ContractsAreOfTables }
{
    found_is_enough::<Published>();
    blocks_tell_contracts_apart::<Published>();
    turns_lead_to_the_remaining_contract();
}

/// Each party that the inputs of an accepted step need, as depositor or as owner of a choice, is an
/// address among the signers, or a role whose token the output of a key input holds (Marlowe specification
/// version 3, "Participants, roles and public keys").
pub fn parties_are_authorised()
    ensures { PartiesAreAuthorised }
{
    found_is_enough::<Published>();
}
