//! That what is built fits its spelling.
ghost use Rattle.std.specs.Prelude.{◌≡◌, IfOk};
ghost use Rattle.builder_spec.specs.EutxoTypes.Fitting.{TxFits};

use crate::beside::beside;
use crate::inputs::copies_of;
use builder_spec::{Datum, Output, Spend, Tx, fits_spelling};
use contract::{Interval, Items, Memory, Text};
use std::alloc::Global;

// The transaction itself, which fits its spelling.
fn fitting(tx: Tx) -> Tx
    ensures same { result ≡ tx }
    ensures fits { TxFits result }
{
    // touch: it fits its spelling
    fits_spelling(&tx);
    tx
}

/// The transaction of these parts, signed by these addresses. It fits its spelling, and is refused only for memory.
pub(crate) fn tx_of(
    alloc: Global,
    inputs: Items<Spend>,
    outputs: Items<Output>,
    interval: Interval,
    signers: &[Text],
    datums: Items<Datum>,
) -> Result<Tx, Memory>
    ensures same { IfOk result (λ tx. tx ≡ record {
      inputs = inputs;
      outputs = outputs;
      interval = interval;
      signers = signers.now;
      datums = datums;
    }) }
    ensures fits { IfOk result TxFits }
{
    let (parts, signers) = beside((inputs, outputs, datums), copies_of(alloc, signers))?;
    let (inputs, outputs, datums) = parts;
    let tx = Tx {
        inputs,
        outputs,
        interval,
        signers,
        datums,
    };
    Ok(fitting(tx))
}
