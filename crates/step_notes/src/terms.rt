//! Payments and warnings as terms of JSON.
ghost use Rattle.std.specs.Prelude.{OnOk, OnErr};
ghost use Rattle.serde_json.specs.Data.{Data};
ghost use Rattle.json_write_contracts.specs.Tokens.{Keeps, Puts};
ghost use Rattle.json_write_outcomes.specs.WrittenOutcome.{payment_json, warning_json};

use contract::{Memory, Payment, Warning};
use json::Writer;
use json_write_contracts::Term;
use json_write_outcomes::{put_payment, put_warning};
use std::alloc::Global;

/// A payment, lent.
#[derive(Clone, Copy)]
pub(crate) struct OfPayment<'a>(pub(crate) &'a Payment);

/// A warning, lent.
#[derive(Clone, Copy)]
pub(crate) struct OfWarning<'a>(pub(crate) &'a Warning);

impl<'a> Term for OfPayment<'a> {
    ghost json = { λ payment. payment_json payment.0.now };

    fn put(&self, alloc: Global, out: &mut Writer) -> Result<(), Memory> {
        put_payment(alloc, out, self.0)
    }
}

impl<'a> Term for OfWarning<'a> {
    ghost json = { λ warning. warning_json warning.0.now };

    fn put(&self, alloc: Global, out: &mut Writer) -> Result<(), Memory> {
        put_warning(alloc, out, self.0)
    }
}
