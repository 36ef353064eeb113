//! The rows of a state's maps, each a list of a key and a number.
//! Where a call fails, what was written before it stays, and behind it stand some tokens or none.
ghost use Rattle.std.specs.Prelude.{⊤, ◌≡◌, OnOk, OnErr};
ghost use Rattle.json_write_contracts.specs.Tokens.{Keeps, Puts};
ghost use Rattle.json_write_outcomes.specs.Each.{HasBytes};
ghost use Rattle.json_write_outcomes.specs.WrittenOutcome.{account_row_json, choice_row_json, bound_row_json};

use crate::lists::PutItem;
use contract::{Account, ChoiceId, Memory, Text};
use json::Writer;
use json_write_contracts::{put_pair, symbol_is_bytes};
use std::alloc::Global;

impl PutItem for (Account, i128) {
    ghost json = { account_row_json };

    ghost known = { HasBytes };

    fn put(&self, alloc: Global, out: &mut Writer) -> Result<(), Memory> {
        let (account, amount) = self;
        // touch: the symbol is bytes
        symbol_is_bytes(&account.token);
        put_pair(alloc, out, account, amount)?;
        Ok(())
    }
}

impl PutItem for (ChoiceId, i128) {
    ghost json = { choice_row_json };

    ghost known = { λ _. ⊤ };

    fn put(&self, alloc: Global, out: &mut Writer) -> Result<(), Memory> {
        let (id, number) = self;
        put_pair(alloc, out, id, number)
    }
}

impl PutItem for (Text, i128) {
    ghost json = { bound_row_json };

    ghost known = { λ _. ⊤ };

    fn put(&self, alloc: Global, out: &mut Writer) -> Result<(), Memory> {
        let (name, value) = self;
        put_pair(alloc, out, name, value)
    }
}
