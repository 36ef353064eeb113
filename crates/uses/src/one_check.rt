//! One transaction, judged without a ledger.
ghost use Rattle.std.specs.Prelude.{◌≡◌, IfOk};
ghost use Rattle.chain.specs.LedgerSpec.Eutxo.Local.{local, verdict_of};
ghost use Rattle.chain.specs.LedgerSpec.Roles.Steps.{marlowe};
ghost use Rattle.uses.specs.Resolutions.{resolution_of};

use chain::{Output, Published, Resolved, Scripts, Shared, Tx, Verdict, check};
use contract::{Items, Memory, TryClone};
use std::alloc::Global;
use std::sync::Arc;

/// Judges one transaction by hand: on the outputs that its inputs spend, in order, `None` where one isn't known, and
/// on one published contract. The verdict is that of the rules which these decide, 1 to 3 and, where nothing is
/// missing, 8 to 19. What is unspent, published and accepted on a ledger, and its tick, isn't asked.
pub fn check_one(
    alloc: Global,
    tx: &Tx,
    outputs: Items<Option<Output>>,
    published: Published,
) -> Result<Verdict, Memory>
    ensures { IfOk result (λ verdict. verdict
        ≡ verdict_of (local marlowe tx.now (resolution_of outputs published.id published))) }
{
    let id = published.id;
    let shared = Shared::new(Arc::new(alloc, published)?);
    let mut scripts = Scripts::new(alloc);
    scripts.insert(id, shared)?;
    let checked = check(alloc, tx, Resolved { outputs, scripts })?;
    checked.verdict().try_clone()
}
