//! The definition of the object, worked out.
ghost use Rattle.line_objects.specs.Worked.{NoLines, TwoLines};

/// The objects of a text without lines, and of one with two, the second with quotation marks.
pub fn worked_objects()
    ensures none { NoLines }
    ensures two { TwoLines }
{}
