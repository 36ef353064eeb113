//! One contract and its name.
ghost use Rattle.std.specs.Prelude.{◌≡◌, true};
ghost use Rattle.contract.specs.Tree.{contract_tree};
ghost use Rattle.json_write_contracts.specs.WrittenContract.{contract_fits};

use contract::{Contract, Text};

/// A contract by a name. JSON has all its numbers.
pub struct Definition {
    pub name: Text,
    pub contract: Contract,
    /// The bytes of the text that it was read from.
    pub bytes: usize,
    ghost fits: { contract_fits (contract_tree contract) ≡ true },
}

// dropped by a call
impl Drop for Definition {
    fn drop(self) {
        let Definition {
            name: _,
            contract,
            bytes: _,
        } = self;
        drop(contract);
    }
}
