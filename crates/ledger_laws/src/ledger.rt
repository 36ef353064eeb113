//! Laws of every ledger, whatever its scripts.
ghost use Rattle.ledger_laws.specs.Worked.{NobodyCame, TwoSteps, NoneAfterTheEnd, GivenByName, OneMoves};
ghost use Rattle.ledger_laws.specs.Laws.{StepsStandOnThreads, StepsSpendContracts, StepsNameContracts, ContractsEndThreads, EndsAreUnspent, ThreadsStay, OutputsServeOneContract, TokensArePreserved, OutputsAreSpentOnce, NamesAreSingle, StartIsSound, AfterIsSound, LaterIsSound};

use roles::{Validator, blocks_tell_contracts_apart, found_is_enough, sums_are_preserved};

/// Each contract input of an accepted transaction is spent by a member of the thread of exactly one start
/// output. A contract output is spent by a step alone, and a step spends one. So no contract output is
/// ever spent, and none ever stepped, outside a thread.
pub fn steps_stand_on_threads<V: Validator>()
    ensures thread { StepsStandOnThreads V.judges }
    ensures spends { StepsSpendContracts V.judges }
    ensures names { StepsNameContracts V.judges }
{
    found_is_enough::<V>();
    blocks_tell_contracts_apart::<V>();
}

/// An unspent contract output is the end of exactly one thread: its start output, or the next output of
/// its last transaction. And where a thread has an end, that is an unspent contract output.
pub fn contracts_end_threads<V: Validator>()
    ensures thread { ContractsEndThreads V.judges }
    ensures unspent { EndsAreUnspent V.judges }
{
    found_is_enough::<V>();
    blocks_tell_contracts_apart::<V>();
}

/// Where a thread goes on after an accepted transaction stays where more is published, and where more is accepted: so
/// threads grow alone.
pub fn threads_stay<V: Validator>()
    ensures { ThreadsStay V.judges }
{
    found_is_enough::<V>();
    blocks_tell_contracts_apart::<V>();
}

/// One output never serves two contracts: the blocks of a transaction's outputs, one for each contract that it steps with
/// the payments that are due, stand one behind the other.
pub fn outputs_serve_one_contract<V: Validator>()
    ensures { OutputsServeOneContract V.judges }
{}

/// Of each token the unspent outputs hold together what the first outputs held. The sums are unbounded.
pub fn tokens_are_preserved<V: Validator>()
    ensures { TokensArePreserved V.judges }
{
    found_is_enough::<V>();
    sums_are_preserved();
}

/// No two outputs that there ever were have one reference, and no two accepted transactions one id.
pub fn names_are_single<V: Validator>()
    ensures { NamesAreSingle V.judges }
{
    found_is_enough::<V>();
}

/// No output is spent twice: not by two transactions, nor by two inputs of one.
pub fn outputs_are_spent_once<V: Validator>()
    ensures { OutputsAreSpentOnce V.judges }
{
    found_is_enough::<V>();
}

/// A ledger that begins with key outputs, and has accepted nothing, is sound.
pub fn starting_is_sound<V: Validator>()
    ensures { StartIsSound V.judges }
{}

/// It stays sound where it accepts what is judged without a fault.
pub fn accepting_is_sound<V: Validator>()
    ensures { AfterIsSound V.judges }
{}

/// It stays sound where more scripts are published, and what was published stays.
pub fn publishing_is_sound<V: Validator>()
    ensures { LaterIsSound V.judges }
{
    found_is_enough::<V>();
    blocks_tell_contracts_apart::<V>();
}

/// The definitions on small lists of transactions: a thread that nobody steps, one of two steps, what comes after
/// its end, the inputs that a step gives to the output that it names, and what one transaction leaves.
pub fn worked_threads()
    ensures nobody { NobodyCame }
    ensures two { TwoSteps }
    ensures end { NoneAfterTheEnd }
    ensures given { GivenByName }
    ensures moves { OneMoves }
{}
