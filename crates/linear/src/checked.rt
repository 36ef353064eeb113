//! Arithmetic in 128 bits: no number where it would lie outside.
ghost use Rattle.std.specs.Prelude.{◌≡◌, neg_ℤ, ◌+ℤ◌, ◌*ℤ◌};
ghost use Rattle.std.specs.Option.{IfSome};
ghost use Rattle.evaluation.specs.Evaluation.{quotient};

/// The number with its sign turned.
pub fn negation(number: i128) -> Option<i128>
    ensures { IfSome result (λ n. n ≡ neg_ℤ number) }
{
    number.checked_neg()
}

/// The sum.
pub(crate) fn sum(left: i128, right: i128) -> Option<i128>
    ensures { IfSome result (λ n. n ≡ left +ℤ right) }
{
    left.checked_add(right)
}

/// The product.
pub(crate) fn product(left: i128, right: i128) -> Option<i128>
    ensures { IfSome result (λ n. n ≡ left *ℤ right) }
{
    left.checked_mul(right)
}

/// The quotient, truncated toward 0; 0 where the divisor is 0.
pub fn quotient(dividend: i128, divisor: i128) -> Option<i128>
    ensures { IfSome result (λ n. n ≡ quotient dividend divisor) }
{
    match evaluation::quotient(dividend, divisor) {
        Ok(number) => Some(number),
        Err(_) => None,
    }
}
