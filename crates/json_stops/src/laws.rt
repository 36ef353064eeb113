//! A law of the definitions and worked rows, the contracts of functions that do nothing.
ghost use Rattle.std.specs.Prelude.{◌≡◌, Some};
ghost use Rattle.serde_json.specs.Data.{Data};
ghost use Rattle.json_forms.specs.declared.sort.Sort.{Sort};
ghost use Rattle.json_stops.specs.Rows.{RepeatsAreFound, ReadingStopsAtRepeats};
ghost use Rattle.json_stops.specs.Stops.{Part, fault_as, first_unread, parts};

/// Where a part of a value isn't read, the value isn't either, and its fault is that of the first such part.
#[tactic(auto, using(crate::proofs::StopLemmas::unread_has_the_fault))]
pub fn faults_come_from_parts()
    ensures { (s : Sort) (d : Data) (p : Part) → first_unread (parts s d) ≡ Some p → fault_as s d ≡ fault_as p.sort p.json }
{}

/// Worked rows, each computed on the definitions.
#[tactic(auto, using(crate::proofs::Worked::repeats_are_found, crate::proofs::Worked::reading_stops_at_repeats))]
pub fn worked_repeats()
    ensures found { RepeatsAreFound }
    ensures stops { ReadingStopsAtRepeats }
{}
