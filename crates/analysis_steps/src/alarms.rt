//! The alarms of a step.
ghost use Rattle.std.specs.Prelude.{◌≡◌, ◌++◌, ◌&&◌, OnOk};
ghost use Rattle.analysis_values.specs.Answered.{unless};

use analysis_spec::AlarmKind;
use contract::{Items, Memory};

// An alarm, unless it is shown not to come.
pub(crate) fn put_unless(
    kinds: &mut Items<AlarmKind>,
    shown: bool,
    kind: AlarmKind,
) -> Result<(), Memory>
    ensures { OnOk result (kinds.new ≡ kinds.old ++ unless shown kind) }
{
    if shown {
        return Ok(());
    }
    kinds.push(kind)
}

pub(crate) fn both(a: bool, b: bool) -> bool
    ensures { result ≡ (a && b) }
{
    a && b
}
