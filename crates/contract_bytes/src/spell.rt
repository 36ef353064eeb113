//! Lists of what has a spelling.
ghost use Rattle.std.specs.Prelude.{◌≡◌, ℕ, List, ◌++◌, OnOk, OnErr};
ghost use Rattle.std.specs.List.{All, flat_map};
ghost use Rattle.contract_bytes.specs.Numbers.{list_bytes, text_bytes, TextFits, ListFits};
ghost use Rattle.contract_bytes.specs.Names.{bound_bytes, holding_bytes, BoundFits, HoldingFits};
ghost use Rattle.contract_bytes.specs.Inputs.{input_bytes, InputFits};
ghost use Rattle.contract_bytes.specs.States.{money_bytes, chosen_bytes, bound_value_bytes, state_bytes, MoneyFits, ChosenFits, BoundValueFits, StateFits};
ghost use Rattle.contract_bytes.specs.Writing.{AppendsFront};

use crate::input::put_input;
use crate::names_of::{put_bound, put_choice_id, put_party, put_token};
use crate::number::{put_bytes, put_length, put_number, put_text};
use crate::state::put_state;
use contract::{Account, Bound, Bytes, ChoiceId, Input, Memory, State, Text, Token};

/// What is spelled in bytes, alone or as an item of a list.
pub trait Spell {
    /// Its bytes.
    ghost spelling: { Self → List ℕ };

    /// Whether its numbers, times and lengths fit their places, as those of all values in memory do.
    ghost Fits: { Self → Type 0 };

    /// Appends its bytes. On a refusal a beginning of them may stand behind what was there.
    fn put(&self, out: &mut Vec<u8>) -> Result<(), Memory>
        ensures spelling { OnOk result (out.new.items ≡ out.old.items ++ spelling self.now) }
        ensures fits { OnOk result (Fits self.now) }
        ensures err { OnErr result (AppendsFront (spelling self.now) out.old.items out.new.items) };
}

impl Spell for Text {
    ghost spelling = { text_bytes };

    ghost Fits = { TextFits };

    fn put(&self, out: &mut Vec<u8>) -> Result<(), Memory> {
        put_text(out, self)
    }
}

impl Spell for Bytes {
    ghost spelling = { text_bytes };

    ghost Fits = { TextFits };

    fn put(&self, out: &mut Vec<u8>) -> Result<(), Memory> {
        put_bytes(out, self)
    }
}

impl Spell for Input {
    ghost spelling = { input_bytes };

    ghost Fits = { InputFits };

    fn put(&self, out: &mut Vec<u8>) -> Result<(), Memory> {
        put_input(out, self)
    }
}

impl Spell for State {
    ghost spelling = { state_bytes };

    ghost Fits = { StateFits };

    fn put(&self, out: &mut Vec<u8>) -> Result<(), Memory> {
        put_state(out, self)
    }
}

impl Spell for (Token, i128) {
    ghost spelling = { holding_bytes };

    ghost Fits = { HoldingFits };

    #[tactic(auto, using(std::proofs::Common::append_assoc))]
    fn put(&self, out: &mut Vec<u8>) -> Result<(), Memory> {
        put_token(out, &self.0)?;
        put_number(out, self.1)
    }
}

impl Spell for Bound {
    ghost spelling = { bound_bytes };

    ghost Fits = { BoundFits };

    fn put(&self, out: &mut Vec<u8>) -> Result<(), Memory> {
        put_bound(out, self)
    }
}

impl Spell for (Account, i128) {
    ghost spelling = { money_bytes };

    ghost Fits = { MoneyFits };

    #[tactic(auto, using(std::proofs::Common::append_assoc))]
    fn put(&self, out: &mut Vec<u8>) -> Result<(), Memory> {
        put_party(out, &self.0.owner)?;
        put_token(out, &self.0.token)?;
        put_number(out, self.1)
    }
}

impl Spell for (ChoiceId, i128) {
    ghost spelling = { chosen_bytes };

    ghost Fits = { ChosenFits };

    #[tactic(auto, using(std::proofs::Common::append_assoc))]
    fn put(&self, out: &mut Vec<u8>) -> Result<(), Memory> {
        put_choice_id(out, &self.0)?;
        put_number(out, self.1)
    }
}

impl Spell for (Text, i128) {
    ghost spelling = { bound_value_bytes };

    ghost Fits = { BoundValueFits };

    #[tactic(auto, using(std::proofs::Common::append_assoc))]
    fn put(&self, out: &mut Vec<u8>) -> Result<(), Memory> {
        put_text(out, &self.0)?;
        put_number(out, self.1)
    }
}

/// Appends a list: its length, then its items.
#[tactic(auto, using(std::proofs::Common::append_assoc))]
pub fn put_list<T: Spell>(out: &mut Vec<u8>, items: &[T]) -> Result<(), Memory>
    ensures spelling { OnOk result (out.new.items ≡ out.old.items ++ list_bytes T.spelling items.now) }
    ensures fits { OnOk result (ListFits T.Fits items.now) }
    ensures err { OnErr result (AppendsFront (list_bytes T.spelling items.now) out.old.items out.new.items) }
{
    put_length(out, items.len())?;
    put_items(out, items)
}

fn put_items<T: Spell>(out: &mut Vec<u8>, items: &[T]) -> Result<(), Memory>
    ensures spelling { OnOk result (out.new.items ≡ out.old.items ++ flat_map T.spelling items.now) }
    ensures fits { OnOk result (All T.Fits items.now) }
    ensures err { OnErr result (AppendsFront (flat_map T.spelling items.now) out.old.items out.new.items) }
{
    for item in items {
        item.put(out)?;
    }
    Ok(())
}
