//! Laws of names, each the contract of a function that does nothing.
ghost use Rattle.std.specs.Prelude.{◌≡◌};
ghost use Rattle.std.specs.Bool.{Decides};
ghost use Rattle.names.specs.Equal.{same_bytes, same_text, same_party, same_token, same_choice_id, ada, is_ada};
ghost use Rattle.names.specs.Laws.{TellsApart, IsOrderedBy};
ghost use Rattle.names.specs.Orders.{party_cmp, token_cmp, account_cmp, choice_id_cmp};

use crate::account::Account;
use crate::choice_id::ChoiceId;
use crate::party::Party;
use crate::token::Token;

/// Each test of sameness passes exactly for equal values, and that of ada for ada alone.
#[tactic(auto, using(crate::proofs::EqualLaws::same_bytes_decides, crate::proofs::EqualLaws::same_text_decides, crate::proofs::EqualLaws::same_party_decides, crate::proofs::EqualLaws::same_token_decides, crate::proofs::EqualLaws::same_choice_id_decides, crate::proofs::EqualLaws::is_ada_decides))]
pub fn names_are_told_apart()
    ensures bytes { TellsApart same_bytes }
    ensures texts { TellsApart same_text }
    ensures parties { TellsApart same_party }
    ensures tokens { TellsApart same_token }
    ensures choice_ids { TellsApart same_choice_id }
    ensures ada { (t : Token) → Decides (is_ada t) (t ≡ ada) }
{}

/// What `cmp` answers of two parties, tokens, accounts or choices is their order's answer.
pub fn names_stand_in_order()
    ensures parties { IsOrderedBy ⟦<Party as Ord>⟧.cmp party_cmp }
    ensures tokens { IsOrderedBy ⟦<Token as Ord>⟧.cmp token_cmp }
    ensures accounts { IsOrderedBy ⟦<Account as Ord>⟧.cmp account_cmp }
    ensures choice_ids { IsOrderedBy ⟦<ChoiceId as Ord>⟧.cmp choice_id_cmp }
{}
