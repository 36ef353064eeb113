//! The definitions, worked out.
ghost use Rattle.play_objects.specs.Rows.{EntriesAreTold, OthersAreTold};

/// Worked rows, each computed on the definitions: of entries, and of intents, threads and holdings.
pub fn worked_objects()
    ensures entries { EntriesAreTold }
    ensures others { OthersAreTold }
{}
