//! The definitions, worked out.
ghost use Rattle.requests.specs.Worked.{FirstKeyCounts, OthersArePassedOver, IdsAreFound};

/// Which requests small lines are, and their ids.
pub fn worked_requests()
    ensures first { FirstKeyCounts }
    ensures others { OthersArePassedOver }
    ensures ids { IdsAreFound }
{}
