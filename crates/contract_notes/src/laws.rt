//! Laws of the definitions, each the contract of a function that does nothing.
ghost use Rattle.contract_notes.specs.Laws.{UnreadIsNoMatter};
ghost use Rattle.contract_notes.specs.Coming.{TransactionsAreSteps, PassedIsComeTo, KnownIsThere, MissingReadsZero};
ghost use Rattle.contract_notes.specs.Rows.{LetIsUnread, LetIsRead, NameIsUnbound, OwnValueIsUnbound, ChoiceIsUnread, ChoiceIsRead, OneNumberIsNotVaried};

/// Another number for a name or a choice that isn't read changes neither a value nor an observation.
pub fn unread_is_no_matter()
    ensures { UnreadIsNoMatter }
{}

/// Whatever run comes to a place, the state there has a name or a choice exactly where the start state has it or the way there
/// binds or makes it.
pub fn known_is_there()
    ensures { KnownIsThere }
{}

/// Where a name or a choice isn't known on the way to a place, it reads 0 in whatever run comes there.
pub fn missing_reads_zero()
    ensures { MissingReadsZero }
{}

/// Transactions are the steps by which that is told: these come where they lead, and to each place that one passes.
#[tactic(auto, using(crate::proofs::RunLemmas::transactions_are_steps, crate::proofs::RunLemmas::passed_is_come_to))]
pub fn transactions_are_steps()
    ensures led { TransactionsAreSteps }
    ensures passed { PassedIsComeTo }
{}

/// Worked notes, each computed on the definitions.
pub fn worked_notes()
    ensures unread { LetIsUnread }
    ensures read { LetIsRead }
    ensures unbound { NameIsUnbound }
    ensures own { OwnValueIsUnbound }
    ensures choice { ChoiceIsUnread }
    ensures compared { ChoiceIsRead }
    ensures one { OneNumberIsNotVaried }
{}
