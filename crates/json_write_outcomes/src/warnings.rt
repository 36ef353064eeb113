//! Warnings.
//! Where a call fails, what was written before it stays, and behind it stand some tokens or none.
ghost use Rattle.std.specs.Prelude.{⊤, OnOk, OnErr};
ghost use Rattle.json_write_contracts.specs.Tokens.{Keeps};
ghost use Rattle.json_write_outcomes.specs.WrittenOutcome.{warning_json};
ghost use Rattle.json_write_outcomes.specs.Puts.{PutsWarning};

use crate::lists::PutItem;
use contract::{Memory, Party, Payee, Text, Token, Warning};
use json::Writer;
use json_write_contracts::{end_with_one, end_with_three, put_member};
use std::alloc::Global;

fn put_deposit_warning(
    alloc: Global,
    out: &mut Writer,
    account: &Party,
    party: &Party,
    token: &Token,
    amount: &i128,
) -> Result<(), Memory>
    ensures put { OnOk result (PutsWarning out.old out.new (Warning.NonPositiveDeposit account.now party.now token.now amount.now)) }
    ensures err { OnErr result (Keeps out.old out.new) }
{
    out.begin_object()?;
    put_member(alloc, out, "account", account)?;
    put_member(alloc, out, "amount", amount)?;
    end_with_three(
        alloc,
        out,
        "party",
        party,
        "token",
        token,
        "warning",
        &"NonPositiveDeposit",
    )
}

fn put_pay_warning(
    alloc: Global,
    out: &mut Writer,
    account: &Party,
    payee: &Payee,
    token: &Token,
    amount: &i128,
) -> Result<(), Memory>
    ensures put { OnOk result (PutsWarning out.old out.new (Warning.NonPositivePay account.now payee.now token.now amount.now)) }
    ensures err { OnErr result (Keeps out.old out.new) }
{
    out.begin_object()?;
    put_member(alloc, out, "account", account)?;
    put_member(alloc, out, "amount", amount)?;
    end_with_three(
        alloc,
        out,
        "payee",
        payee,
        "token",
        token,
        "warning",
        &"NonPositivePay",
    )
}

fn put_partial_warning(
    alloc: Global,
    out: &mut Writer,
    account: &Party,
    payee: &Payee,
    token: &Token,
    paid: &i128,
    expected: &i128,
) -> Result<(), Memory>
    ensures put { OnOk result (PutsWarning out.old out.new (Warning.PartialPay account.now payee.now token.now paid.now expected.now)) }
    ensures err { OnErr result (Keeps out.old out.new) }
{
    out.begin_object()?;
    put_member(alloc, out, "account", account)?;
    put_member(alloc, out, "expected", expected)?;
    put_member(alloc, out, "paid", paid)?;
    end_with_three(
        alloc,
        out,
        "payee",
        payee,
        "token",
        token,
        "warning",
        &"PartialPay",
    )
}

fn put_shadowing(
    alloc: Global,
    out: &mut Writer,
    name: &Text,
    old: &i128,
    new: &i128,
) -> Result<(), Memory>
    ensures put { OnOk result (PutsWarning out.old out.new (Warning.Shadowing name.now old.now new.now)) }
    ensures err { OnErr result (Keeps out.old out.new) }
{
    out.begin_object()?;
    put_member(alloc, out, "name", name)?;
    end_with_three(alloc, out, "new", new, "old", old, "warning", &"Shadowing")
}

fn put_failed_assertion(alloc: Global, out: &mut Writer) -> Result<(), Memory>
    ensures put { OnOk result (PutsWarning out.old out.new Warning.AssertionFailed) }
    ensures err { OnErr result (Keeps out.old out.new) }
{
    out.begin_object()?;
    end_with_one(alloc, out, "warning", &"AssertionFailed")
}

/// Writes a warning (Marlowe specification version 3, "Compute transaction"): an object with its name under the
/// key `warning`, beside what it says. A number that JSON doesn't have is a text of its decimal digits.
pub fn put_warning(alloc: Global, out: &mut Writer, warning: &Warning) -> Result<(), Memory>
    ensures put { OnOk result (PutsWarning out.old out.new warning.now) }
    ensures err { OnErr result (Keeps out.old out.new) }
{
    match warning {
        Warning::NonPositiveDeposit(account, party, token, amount) => {
            put_deposit_warning(alloc, out, account, party, token, amount)
        }
        Warning::NonPositivePay(account, payee, token, amount) => {
            put_pay_warning(alloc, out, account, payee, token, amount)
        }
        Warning::PartialPay(account, payee, token, paid, expected) => {
            put_partial_warning(alloc, out, account, payee, token, paid, expected)
        }
        Warning::Shadowing(name, old, new) => put_shadowing(alloc, out, name, old, new),
        Warning::AssertionFailed => put_failed_assertion(alloc, out),
    }
}

impl PutItem for Warning {
    ghost json = { warning_json };

    ghost known = { λ _. ⊤ };

    fn put(&self, alloc: Global, out: &mut Writer) -> Result<(), Memory> {
        put_warning(alloc, out, self)
    }
}
