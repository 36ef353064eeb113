//! The clauses of a request, each one function.
ghost use Rattle.std.specs.Prelude.{◌++◌};
ghost use Rattle.builder_spec.specs.Holding.{amount_in, AreBundles};
ghost use Rattle.builder_spec.specs.Causes.{signature_cause, funds_cause, repeat_cause};
ghost use Rattle.builder_spec.specs.Steps.{authority_cause};
ghost use Rattle.coin_selection.specs.Answers.{AnswersCause};

use crate::amounts::Amount;
use crate::authorise::unauthorised;
use crate::funds::least_lacking;
use crate::limits::{has_repeat, put_owned, put_references};
use crate::own_output::OwnOutput;
use crate::signed::are_signed;
use builder_spec::{BuildFault, Unspent};
use contract::{Bytes, Input, Text, TryClone};
use std::alloc::Global;

/// Each offered output is under the key of a signer.
pub fn check_signed(signers: &[Text], offered: &[Unspent]) -> Result<(), BuildFault>
    ensures { AnswersCause result (signature_cause signers.now offered.now) }
{
    if are_signed(signers, offered) {
        Ok(())
    } else {
        Err(BuildFault::NotSigned)
    }
}

/// Each party that the inputs need may act.
pub fn check_authorised(
    alloc: Global,
    currency: &Bytes,
    signers: &[Text],
    offered: &[Unspent],
    inputs: &[Input],
) -> Result<(), BuildFault>
    requires { AreBundles amount_in offered.now }
    ensures { AnswersCause result (authority_cause currency.now signers.now offered.now inputs.now) }
{
    match unauthorised(alloc, currency, signers, offered, inputs)? {
        None => Ok(()),
        Some(party) => match party.try_clone() {
            Ok(party) => Err(BuildFault::NotAuthorised(party)),
            Err(_) => Err(BuildFault::Memory),
        },
    }
}

/// As much of each token is offered as is wanted.
pub fn check_funds(
    alloc: Global,
    amounts: &[Amount<'_>],
    offered: &[Unspent],
) -> Result<(), BuildFault>
    requires { AreBundles amount_in offered.now }
    ensures { AnswersCause result (funds_cause amounts.now offered.now) }
{
    match least_lacking(alloc, amounts, offered)? {
        None => Ok(()),
        Some(token) => Err(BuildFault::NoFunds(token)),
    }
}

/// The outputs of threads and the offered outputs are named once.
pub fn check_owned_once(
    alloc: Global,
    owns: &[OwnOutput<'_>],
    offered: &[Unspent],
) -> Result<(), BuildFault>
    ensures { AnswersCause result (repeat_cause (owns.now ++ offered.now)) }
{
    let mut references = Vec::new(alloc);
    put_owned(&mut references, owns)?;
    put_references(&mut references, offered)?;
    if has_repeat(alloc, &references)? {
        Err(BuildFault::Repeated)
    } else {
        Ok(())
    }
}

/// All of these are named once.
pub fn check_apart(alloc: Global, first: &[Unspent], others: &[Unspent]) -> Result<(), BuildFault>
    ensures { AnswersCause result (repeat_cause (first.now ++ others.now)) }
{
    let mut references = Vec::new(alloc);
    put_references(&mut references, first)?;
    put_references(&mut references, others)?;
    if has_repeat(alloc, &references)? {
        Err(BuildFault::Repeated)
    } else {
        Ok(())
    }
}
