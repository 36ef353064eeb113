//! The definition of the objects, worked out.
ghost use Rattle.refusal_objects.specs.Worked.{OneRefusal, WithMore, NumberedRefusal};

/// The lines of three refusals: a text that is no contract, the same with the place of the fault, and the second of many transactions.
pub fn worked_objects()
    ensures one { OneRefusal }
    ensures more { WithMore }
    ensures numbered { NumberedRefusal }
{}
