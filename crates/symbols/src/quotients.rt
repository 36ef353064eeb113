//! What is known of quotients: of what a division by a number leaves, and of numbers.
ghost use Rattle.std.specs.Prelude.{pos, ◌<ℤ◌, IfOk, OnOk};
ghost use Rattle.std.specs.Option.{IfSome};
ghost use Rattle.symbols.specs.Symbols.{Symbols as Known};
ghost use Rattle.symbols.specs.Quotients.{GivesQuotient, LearnsRest, LearnsQuotient, LearnsDown, IsRoom, IsRoomAbove};

use crate::symbols::Symbols;
use evaluation::collections::Memory;
use linear::{Linear, quotient};

// How far below 0 it may lie what is left.
fn room_below(symbols: &Symbols, dividend: &Linear, divisor: i128) -> i128
    requires { pos 0 <ℤ divisor }
    ensures { IsRoom symbols.now dividend.now divisor result }
{
    if symbols.shows(dividend) {
        0
    } else {
        divisor - 1
    }
}

// How far above 0.
fn room_above(symbols: &Symbols, dividend: &Linear, divisor: i128) -> i128
    requires { pos 0 <ℤ divisor }
    ensures { IsRoomAbove symbols.now dividend.now divisor result }
{
    match symbols.greatest(dividend) {
        Some(bound) => { if bound <= 0 { 0 } else { divisor - 1 } }
        None => divisor - 1,
    }
}

fn learn_low(
    symbols: &mut Symbols,
    dividend: &Linear,
    rest: &Linear,
    divisor: i128,
) -> Result<(), Memory>
    requires { pos 0 <ℤ divisor }
    ensures { OnOk result (LearnsRest symbols.old symbols.new dividend.now rest.now divisor) }
{
    let room = room_below(symbols, dividend, divisor);
    let more = rest.raised(room)?;
    match more {
        Some(fact) => symbols.learn(fact),
        None => Ok(()),
    }
}

fn learn_high(
    symbols: &mut Symbols,
    dividend: &Linear,
    rest: &Linear,
    divisor: i128,
) -> Result<(), Memory>
    requires { pos 0 <ℤ divisor }
    ensures { OnOk result (LearnsRest symbols.old symbols.new dividend.now rest.now divisor) }
{
    let room = room_above(symbols, dividend, divisor);
    let bound = Linear::number(rest.memory(), room);
    let more = bound.minus(rest)?;
    match more {
        Some(fact) => symbols.learn(fact),
        None => Ok(()),
    }
}

fn learn_rest(
    symbols: &mut Symbols,
    dividend: &Linear,
    rest: &Linear,
    divisor: i128,
) -> Result<(), Memory>
    requires { pos 0 <ℤ divisor }
    ensures { OnOk result (LearnsRest symbols.old symbols.new dividend.now rest.now divisor) }
{
    learn_low(symbols, dividend, rest, divisor)?;
    learn_high(symbols, dividend, rest, divisor)?;
    Ok(())
}

/// Learns that what a division by a number above 0 leaves is less than that, and of the sign of the dividend.
pub(crate) fn learn_quotient(
    symbols: &mut Symbols,
    dividend: &Linear,
    quotient: &Linear,
    divisor: i128,
) -> Result<(), Memory>
    ensures { OnOk result (LearnsQuotient symbols.old symbols.new dividend.now quotient.now divisor) }
{
    if divisor <= 0 {
        return Ok(());
    }
    let rest = dividend.combine(1, quotient, -divisor)?;
    match rest {
        Some(left) => learn_rest(symbols, dividend, &left, divisor),
        None => Ok(()),
    }
}

/// Learns that a quotient is no more than the dividend, where neither that nor the divisor is below 0.
pub(crate) fn learn_down(
    symbols: &mut Symbols,
    dividend: &Linear,
    divisor: &Linear,
    quotient: &Linear,
) -> Result<(), Memory>
    ensures { OnOk result (LearnsDown symbols.old symbols.new dividend.now divisor.now quotient.now) }
{
    let natural = symbols.shows(dividend);
    if !natural {
        return Ok(());
    }
    let by_natural = symbols.shows(divisor);
    if !by_natural {
        return Ok(());
    }
    let less = dividend.minus(quotient)?;
    match less {
        Some(fact) => symbols.learn(fact),
        None => Ok(()),
    }
}

/// The quotient of two numbers, where it is one of 128 bits.
pub(crate) fn number_quotient(dividend: &Linear, divisor: i128) -> Option<Linear>
    ensures { IfSome result (λ e. (k : Known) → GivesQuotient divisor k k dividend.now e) }
{
    let number = dividend.is_number();
    if !number {
        return None;
    }
    let q = quotient(dividend.constant(), divisor)?;
    Some(Linear::number(dividend.memory(), q))
}
