//! What joins two observations: both are true, or one of them is. Each is the other with its truths turned round.
ghost use Rattle.std.specs.Prelude.{◌≡◌, IfOk};
ghost use Rattle.analysis_values.specs.Junctions.{side_of, DecidesBoth};

use crate::observations::Truths;
use crate::truths::joined;
use crate::values::both;
use contract::Memory;
use symbols::Symbols;

/// What joins two observations.
#[derive(Clone, Copy)]
pub(crate) enum Junction {
    And,
    Or,
}

/// Truths as they are for And, and turned round for Or: where the first of two observations is false so, it decides.
pub(crate) fn side(junction: Junction, truths: Truths) -> Truths
    ensures { result ≡ side_of junction truths }
{
    match junction {
        Junction::And => truths,
        Junction::Or => Truths {
            fits: truths.fits,
            if_true: truths.if_false,
            if_false: truths.if_true,
        },
    }
}

/// What is known of both, of a side where the first decides, and of the second where it doesn't.
pub(crate) fn decided(
    symbols: &Symbols,
    junction: Junction,
    fits: bool,
    first: Option<Symbols>,
    second: Option<Truths>,
) -> Result<Truths, Memory>
    ensures { IfOk result (DecidesBoth junction symbols.now fits first second) }
{
    match second {
        None => Ok(side(
            junction,
            Truths {
                fits,
                if_true: None,
                if_false: first,
            },
        )),
        Some(truths) => decided_by(symbols, junction, fits, first, truths),
    }
}

// .. where the second may have to decide.
fn decided_by(
    symbols: &Symbols,
    junction: Junction,
    fits: bool,
    first: Option<Symbols>,
    second: Truths,
) -> Result<Truths, Memory>
    ensures { IfOk result (DecidesBoth junction symbols.now fits first (Some second)) }
{
    let turned = side(junction, second);
    let Truths {
        fits: others,
        if_true,
        if_false,
    } = turned;
    let either = joined(symbols, first, if_false)?;
    let all = both(fits, others);
    Ok(side(
        junction,
        Truths {
            fits: all,
            if_true,
            if_false: either,
        },
    ))
}
