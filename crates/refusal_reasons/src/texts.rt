//! One text that isn't read.
ghost use Rattle.std.specs.Prelude.{IfOk};
ghost use Rattle.explanations.specs.JsonForms.declared.sort.Sort.TheVariants as sorts;
ghost use Rattle.refusal_reasons.specs.Reasons.{TellsFlat, TellsScenario};

use crate::source::Source;
use contract::Memory;
use explanations::{How, Sort, Spelling, explained, explained_scenario};
use std::alloc::Global;

/// How deep lists and objects may nest in a state or a transaction.
pub(crate) const FLAT: usize = 127;

/// Why a text isn't read as a state or a transaction.
pub(crate) fn flat_told(
    alloc: Global,
    source: Source<'_>,
    sort: Sort,
    spelling: Spelling,
) -> Result<Vec<u8>, Memory>
    ensures { IfOk result (λ written. TellsFlat spelling source.entry sort written.items) }
{
    let how = How {
        depth: FLAT,
        spelling,
    };
    explained(alloc, source.path, source.text, sort, how)
}

/// Why the text of a party isn't read; where it is read there are no bytes.
pub fn party_reasons(
    alloc: Global,
    party: Source<'_>,
    spelling: Spelling,
) -> Result<Vec<u8>, Memory>
    ensures { IfOk result (λ written. TellsFlat spelling party.entry sorts.Party written.items) }
{
    flat_told(alloc, party, Sort::Party, spelling)
}

/// Why `play` doesn't read a scenario, whose lists and objects may nest so deep; where it is read there are no bytes.
pub fn scenario_reasons(
    alloc: Global,
    scenario: Source<'_>,
    depth: usize,
    spelling: Spelling,
) -> Result<Vec<u8>, Memory>
    ensures { IfOk result (λ written. TellsScenario depth spelling scenario.entry written.items) }
{
    let how = How { depth, spelling };
    explained_scenario(alloc, scenario.path, scenario.text, how)
}
