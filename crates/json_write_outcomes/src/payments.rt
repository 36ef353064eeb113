//! Payments.
//! Where a call fails, what was written before it stays, and behind it stand some tokens or none.
ghost use Rattle.std.specs.Prelude.{⊤, ◌≡◌, OnOk, OnErr};
ghost use Rattle.json_write_contracts.specs.Tokens.{Keeps, Puts};
ghost use Rattle.json_write_outcomes.specs.WrittenOutcome.{payment_json};

use crate::lists::PutItem;
use contract::{Memory, Payment};
use json::Writer;
use json_write_contracts::{end_with_three, put_member};
use std::alloc::Global;

/// Writes a payment. An amount that JSON doesn't have is a text of its decimal digits.
pub fn put_payment(alloc: Global, out: &mut Writer, payment: &Payment) -> Result<(), Memory>
    ensures put { OnOk result (Puts out.old out.new (payment_json payment.now)) }
    ensures err { OnErr result (Keeps out.old out.new) }
{
    out.begin_object()?;
    put_member(alloc, out, "amount", &payment.amount)?;
    end_with_three(
        alloc,
        out,
        "payment_from",
        &payment.from,
        "to",
        &payment.to,
        "token",
        &payment.token,
    )
}

impl PutItem for Payment {
    ghost json = { payment_json };

    ghost known = { λ _. ⊤ };

    fn put(&self, alloc: Global, out: &mut Writer) -> Result<(), Memory> {
        put_payment(alloc, out, self)
    }
}
