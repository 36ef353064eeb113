//! The definitions, worked out.
ghost use Rattle.request_reasons.specs.Rows.{NamesAreNoParts, NumbersAreFound, QuotedTimesAreTold};

/// Which parts of small requests are looked at, and what is told of one of them.
pub fn worked_reasons()
    ensures names { NamesAreNoParts }
    ensures numbers { NumbersAreFound }
    ensures quoted { QuotedTimesAreTold }
{}
