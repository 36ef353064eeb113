//! Where a thread starts.
ghost use Rattle.std.specs.Prelude.{◌≡◌, option_copied, position};
ghost use Rattle.ledger_kept.specs.EutxoTypes.Parts.{same_bytes};
ghost use Rattle.ledger_kept.specs.LedgerSpec.Replay.{world};
ghost use Rattle.ledger_views.specs.RecordsSupport.{numbered, contract_by, contract_named, start_at};

use ledger_kept::{Index, Instance, Kept, OutputRef, Tx};

// The accepted transaction that has this id.
fn maker<'a>(kept: &Kept<'a>, index: &Index, id: &[u8; 32]) -> Option<&'a Tx>
    ensures { option_copied result
        ≡ numbered (world kept.now).replay.accepted (position (same_bytes id.now) index.now.present.used) }
{
    match index.number_of(id) {
        Some(number) => kept.accepted_at(number),
        None => None,
    }
}

fn contract_by<'a>(maker: Option<&'a Tx>, place: u64) -> Option<Instance<'a>>
    ensures { result ≡ contract_by place (option_copied maker.entry) }
{
    match maker {
        Some(tx) => tx.contract_at(place),
        None => None,
    }
}

// The contract that an accepted transaction makes under this name.
fn contract_named<'a>(kept: &Kept<'a>, index: &Index, reference: &OutputRef) -> Option<Instance<'a>>
    ensures { result
        ≡ contract_named index.now.present.used (world kept.now).replay.accepted reference.now }
{
    match reference {
        OutputRef::Genesis { .. } => None,
        OutputRef::Made { id, index: place } => contract_by(maker(kept, index, id), *place),
    }
}

/// The contract of the start output of this name, where there is one. It costs three look-ups.
pub fn start_at<'a>(kept: &Kept<'a>, index: &Index, reference: &OutputRef) -> Option<Instance<'a>>
    ensures { result ≡ start_at index.now.present (world kept.now).replay.accepted reference.now }
{
    if index.is_start(reference) {
        contract_named(kept, index, reference)
    } else {
        None
    }
}
