//! What is left for the change.
ghost use Rattle.ledger_spec.specs.BuilderSpec.Change.{StepChangeIsTheRest, StartChangeIsTheRest};

use ledger_spec::{money_is_kept, payments_are_natural, transactions_end_quiet};

/// The change of a step that nothing hinders is what its front holds above the deposits, token by token, and never
/// below 0; that of a start is what its front holds above the accounts.
pub fn change_is_the_rest()
    ensures step { StepChangeIsTheRest }
    ensures start { StartChangeIsTheRest }
{
    money_is_kept();
    transactions_end_quiet();
    payments_are_natural();
}
