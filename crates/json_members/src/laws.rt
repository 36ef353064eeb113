//! What members are: worked rows of the definitions and a law, each the contract of a function that does nothing.
ghost use Rattle.json_members.specs.Members.{MembersAreAnObject};
ghost use Rattle.json_members.specs.Rows.{MembersAreWritten};

/// Worked rows, computed on the definitions.
pub fn worked_members()
    ensures { MembersAreWritten }
{}

/// Members in braces are the compact text of an object with just these.
#[tactic(auto, using(crate::proofs::ObjectLemmas::members_are_an_object))]
pub fn members_are_an_object()
    ensures { MembersAreAnObject }
{}
