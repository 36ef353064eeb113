//! References of outputs, by whose they are.
ghost use Rattle.std.specs.Prelude.{◌≡◌};
ghost use Rattle.chain_index.specs.NamingSupport.{naming};

use ledger_spec::OutputRef;

/// Whose outputs are named.
#[derive(Clone, Copy)]
pub enum Naming {
    Genesis,
    Made([u8; 32]),
}

pub(crate) fn name_at(whose: &Naming, index: u64) -> OutputRef
    ensures { result ≡ naming whose.now index }
{
    match whose {
        Naming::Genesis => OutputRef::Genesis { index },
        Naming::Made(id) => OutputRef::Made { id: *id, index },
    }
}
