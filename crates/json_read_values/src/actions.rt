//! Actions as JSON values.
ghost use Rattle.contract.specs.Collections.Answers.{Aside};
ghost use Rattle.json_read_names.specs.Parts.{list};
ghost use Rattle.json_read_names.specs.ReadsNames.{bound};
ghost use Rattle.json_read_names.specs.declared.forms.ActionForm.TheVariants.{Deposit};
ghost use Rattle.json_read_values.specs.ReadsAction as reads;
ghost use Rattle.json_read_values.specs.ReadsSupport.{party_and_value, token_and_account};

use crate::values::{observation_from_json, value_from_json};
use contract::{Action, Bound, Items, Party, Token, Value};
use json_read_names::{
    ActionForm, JsonFault, action_form, beside, bound_from_json, choice_id_from_json, member,
    party_from_json, token_from_json,
};
use json_tree::JsonValue;
use std::alloc::Global;

/// The action that a JSON value stands for (Marlowe specification version 3, "Actions and inputs").
#[tactic(auto, unfolding(crate::specs::ReadsAction::action_by))]
pub fn action_from_json<J: JsonValue>(alloc: Global, json: &J) -> Result<Action, JsonFault>
    ensures reading { Aside JsonFault.Memory result (reads.action (J.json json.now)) }
{
    match action_form(json) {
        ActionForm::Deposit => deposit_from_json(alloc, json),
        ActionForm::Choice => {
            let id = choice_id_from_json(alloc, member(json, "for_choice")?)?;
            let bounds = bounds_from_json(alloc, member(json, "choose_between")?)?;
            Ok(Action::Choice(id, bounds))
        }
        ActionForm::Notify => {
            let holds = observation_from_json(alloc, member(json, "notify_if")?)?;
            Ok(Action::Notify(holds))
        }
        ActionForm::Nothing => Err(JsonFault::NoForm),
    }
}

#[tactic(auto, using(crate::proofs::ActionSteps::deposit_steps))]
fn deposit_from_json<J: JsonValue>(alloc: Global, json: &J) -> Result<Action, JsonFault>
    ensures { Aside JsonFault.Memory result (reads.action_by Deposit (J.json json.now)) }
{
    let first = party_and_value(alloc, json)?;
    let (first, second) = beside(first, token_and_account(alloc, json))?;
    let (depositor, amount) = first;
    let (token, account) = second;
    Ok(Action::Deposit(account, depositor, token, amount))
}

// Who deposits, and how much.
fn party_and_value<J: JsonValue>(alloc: Global, json: &J) -> Result<(Party, Value), JsonFault>
    ensures { Aside JsonFault.Memory result (party_and_value (J.json json.now)) }
{
    let depositor = party_from_json(alloc, member(json, "party")?)?;
    let amount = value_from_json(alloc, member(json, "deposits")?)?;
    Ok((depositor, amount))
}

// Of what token, and into whose account.
fn token_and_account<J: JsonValue>(alloc: Global, json: &J) -> Result<(Token, Party), JsonFault>
    ensures { Aside JsonFault.Memory result (token_and_account (J.json json.now)) }
{
    let token = token_from_json(alloc, member(json, "of_token")?)?;
    let account = party_from_json(alloc, member(json, "into_account")?)?;
    Ok((token, account))
}

fn bounds_from_json<J: JsonValue>(alloc: Global, json: &J) -> Result<Items<Bound>, JsonFault>
    ensures { Aside JsonFault.Memory result (list bound (J.json json.now)) }
{
    let items = json.items().ok_or(JsonFault::NoForm)?;
    let mut bounds = Items::new(alloc);
    for item in items {
        bounds.push(bound_from_json(item)?)?;
    }
    Ok(bounds)
}
