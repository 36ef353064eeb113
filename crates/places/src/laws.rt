//! How paths and places go together: laws of the definitions, each the contract of a function that does nothing.
ghost use Rattle.places.specs.Laws.{PlacesBeginWithTheirPaths, KeysLeadThroughJson, FormsHaveTheirKeys};
ghost use Rattle.places.specs.Rows.{PathsAreShorter, ActionsAndCloseAreTold, AdaIsNamed};

/// Where a path leads to a part of the contract, the keys of that place are those of the path, and behind them the first
/// key of the form that stands there.
#[tactic(auto, using(crate::proofs::PlacesLemmas::places_begin))]
pub fn places_begin_with_their_paths()
    ensures { PlacesBeginWithTheirPaths }
{}

/// In the JSON of a contract the keys of a path lead to the JSON of the part that the path leads to. What stands there has the
/// first key of its form, or is the word of Close.
#[tactic(auto, using(crate::proofs::JsonLemmas::keys_lead, crate::proofs::JsonLemmas::forms_have))]
pub fn keys_lead_through_json()
    ensures paths { KeysLeadThroughJson }
    ensures forms { FormsHaveTheirKeys }
{}

/// Worked rows, each computed on the definitions.
pub fn worked_places()
    ensures paths { PathsAreShorter }
    ensures actions { ActionsAndCloseAreTold }
    ensures ada { AdaIsNamed }
{}
