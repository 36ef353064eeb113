//! Tokens.
ghost use Rattle.std.specs.Prelude.{◌≡◌};
ghost use Rattle.names.specs.Orders.{token_cmp};

use collections::{Bytes, Memory, Text, TryClone};
use std::cmp::Ordering;

/// A token (Marlowe specification version 3, "Multi-asset token"): a currency symbol, in bytes, and a name. Both
/// empty is ada, counted in lovelace. Tokens stand by currency symbol, then by name.
#[derive(Debug, PartialEq, Eq, PartialOrd, Ord, Hash, Drop)]
pub struct Token {
    pub symbol: Bytes,
    pub name: Text,
}

/// How two tokens stand: as `cmp` answers.
pub fn compare_tokens(a: &Token, b: &Token) -> Ordering
    ensures { result ≡ token_cmp a.now b.now }
{
    a.cmp(b)
}

impl TryClone for Token {
    fn try_clone(&self) -> Result<Token, Memory> {
        let symbol = self.symbol.try_clone()?;
        let name = self.name.try_clone()?;
        Ok(Token { symbol, name })
    }
}
