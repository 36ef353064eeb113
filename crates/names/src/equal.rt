//! Equality of names: what `==` answers is whether the two are the same.
use crate::account::Account;
use crate::bound::Bound;
use crate::choice_id::ChoiceId;
use crate::party::Party;
use crate::payee::Payee;
use crate::token::Token;
use collections::Same;

impl Same for Party {
    fn same(&self, other: &Party) -> bool {
        *self == *other
    }
}

impl Same for Token {
    fn same(&self, other: &Token) -> bool {
        *self == *other
    }
}

impl Same for ChoiceId {
    fn same(&self, other: &ChoiceId) -> bool {
        *self == *other
    }
}

impl Same for Account {
    fn same(&self, other: &Account) -> bool {
        *self == *other
    }
}

impl Same for Payee {
    fn same(&self, other: &Payee) -> bool {
        *self == *other
    }
}

impl Same for Bound {
    fn same(&self, other: &Bound) -> bool {
        *self == *other
    }
}
