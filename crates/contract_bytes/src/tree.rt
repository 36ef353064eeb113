//! Actions, cases and contracts.
ghost use Rattle.std.specs.List.{All, flat_map};
ghost use Rattle.contract.specs.Tree.{value_tree, observation_tree, action_tree, deposit, choice, contract_tree};
ghost use Rattle.contract_bytes.specs.WritingSupport.{Spells, SpellsAction, SpellsContract, SpellsTest, SpellsPay, SpellsLet, case_bytes, CaseFits};

use crate::names_of::{put_choice_id, put_party, put_payee, put_token};
use crate::number::{put_byte, put_length, put_text, put_time};
use crate::spell::put_list;
use crate::value::{put_observation, put_value};
use contract::{
    Action, Bound, Boxed, Case, ChoiceId, Contract, Items, Memory, Observation, Party, Payee, Text,
    Token, Value,
};

// A tag, and an observation.
fn put_test(out: &mut Vec<u8>, tag: u8, observation: &Observation) -> Result<(), Memory>
    ensures { SpellsTest result tag (observation_tree observation.now) out.old out.new }
{
    put_byte(out, tag)?;
    put_observation(out, observation)
}

// ---- actions

fn put_deposit(
    out: &mut Vec<u8>,
    account: &Party,
    party: &Party,
    token: &Token,
    value: &Value,
) -> Result<(), Memory>
    ensures { SpellsAction result (deposit account.now party.now token.now (value_tree value.now)) out.old out.new }
{
    put_byte(out, 0x00)?;
    put_party(out, account)?;
    put_party(out, party)?;
    put_token(out, token)?;
    put_value(out, value)
}

fn put_choice(out: &mut Vec<u8>, id: &ChoiceId, bounds: &[Bound]) -> Result<(), Memory>
    ensures { SpellsAction result (choice id.now bounds.now) out.old out.new }
{
    put_byte(out, 0x01)?;
    put_choice_id(out, id)?;
    put_list(out, bounds)
}

fn put_action(out: &mut Vec<u8>, action: &Action) -> Result<(), Memory>
    ensures { SpellsAction result (action_tree action.now) out.old out.new }
{
    match action {
        Action::Deposit(account, party, token, value) => {
            put_deposit(out, account, party, token, value)
        }
        Action::Choice(id, bounds) => put_choice(out, id, bounds.as_slice()),
        Action::Notify(observation) => put_test(out, 0x02, observation),
    }
}

// ---- contracts: what stands before the continuation of a Pay and a Let

fn put_pay(
    out: &mut Vec<u8>,
    account: &Party,
    payee: &Payee,
    token: &Token,
    value: &Value,
) -> Result<(), Memory>
    ensures { SpellsPay result account.now payee.now token.now (value_tree value.now) out.old out.new }
{
    put_byte(out, 0x01)?;
    put_party(out, account)?;
    put_payee(out, payee)?;
    put_token(out, token)?;
    put_value(out, value)
}

fn put_let(out: &mut Vec<u8>, name: &Text, value: &Value) -> Result<(), Memory>
    ensures { SpellsLet result name.now (value_tree value.now) out.old out.new }
{
    put_byte(out, 0x04)?;
    put_text(out, name)?;
    put_value(out, value)
}

// ---- contracts

#[cycle(put_contract)]
fn put_then(out: &mut Vec<u8>, contract: &Boxed<Contract>) -> Result<(), Memory>
    ensures { SpellsContract result (contract_tree contract.now) out.old out.new }
{
    put_contract(out, contract.get())
}

#[cycle(put_contract)]
fn put_case(out: &mut Vec<u8>, case: &Case) -> Result<(), Memory>
    ensures { Spells result (case_bytes case.now) (CaseFits case.now) out.old.items out.new.items }
{
    put_action(out, &case.action)?;
    put_contract(out, &case.then)
}

#[cycle(put_contract)]
fn put_cases(out: &mut Vec<u8>, cases: &Items<Case>) -> Result<(), Memory>
    ensures { Spells result (flat_map case_bytes cases.now) (All CaseFits cases.now) out.old.items out.new.items }
{
    for case in cases.as_slice() {
        put_case(out, case)?;
    }
    Ok(())
}

#[cycle(put_contract)]
pub(crate) fn put_contract(out: &mut Vec<u8>, contract: &Contract) -> Result<(), Memory>
    ensures { SpellsContract result (contract_tree contract.now) out.old out.new }
{
    match contract {
        Contract::Close => put_byte(out, 0x00),
        Contract::Pay(account, payee, token, value, then) => {
            put_pay(out, account, payee, token, value)?;
            put_then(out, then)
        }
        Contract::If(observation, then, otherwise) => {
            put_test(out, 0x02, observation)?;
            put_then(out, then)?;
            put_then(out, otherwise)
        }
        Contract::When(cases, timeout, then) => {
            put_byte(out, 0x03)?;
            put_length(out, cases.len())?;
            put_cases(out, cases)?;
            put_time(out, *timeout)?;
            put_then(out, then)
        }
        Contract::Let(name, value, then) => {
            put_let(out, name, value)?;
            put_then(out, then)
        }
        Contract::Assert(observation, then) => {
            put_test(out, 0x05, observation)?;
            put_then(out, then)
        }
    }
}
