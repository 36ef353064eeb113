//! Who brings something.
ghost use Rattle.std.specs.Prelude.{◌≡◌, map};
ghost use Rattle.contract.specs.Names.Equal.{same_party, same_token};
ghost use Rattle.contract.specs.Tree.{action_tree, case_tree, case_trees, contract_tree};
ghost use Rattle.loss_walk.specs.Asked.{is_beyond, waits_beyond, asks_beyond, ask_beyond};

use contract::{Account, Action, Case, Contract, Items, Memory, Party, Same, Token, TryClone};

/// The party and the token of a deposit that a contract waits for, if there is one.
#[cycle(payers)]
pub(crate) fn payer_of(contract: &Contract) -> Result<Option<Account>, Memory> {
    match contract {
        Contract::Close => Ok(None),
        Contract::Pay(_, _, _, _, then) => payer_of(then.get()),
        Contract::Let(_, _, then) => payer_of(then.get()),
        Contract::Assert(_, then) => payer_of(then.get()),
        Contract::If(_, then, otherwise) => match payer_of(then.get())? {
            Some(payer) => Ok(Some(payer)),
            None => payer_of(otherwise.get()),
        },
        Contract::When(cases, _, then) => match payer_among(cases)? {
            Some(payer) => Ok(Some(payer)),
            None => payer_of(then.get()),
        },
    }
}

// .. that of a case, or of what follows it.
#[cycle(payers)]
fn payer_among(cases: &Items<Case>) -> Result<Option<Account>, Memory> {
    for case in cases.as_slice() {
        if let Action::Deposit(_, payer, token, _) = &case.action {
            let account = Account {
                owner: payer.try_clone()?,
                token: token.try_clone()?,
            };
            return Ok(Some(account));
        }
        if let Some(payer) = payer_of(&case.then)? {
            return Ok(Some(payer));
        }
    }
    Ok(None)
}

/// Whether some case of a contract waits for a deposit by another party than this, or of another token; without one for any
/// deposit. It is looked for from the front, up to the first. Takes no memory.
#[cycle(asks)]
pub(crate) fn asks_beyond(sole: &Option<Account>, contract: &Contract) -> bool
    ensures { result ≡ asks_beyond sole.now (contract_tree contract.now) }
{
    match contract {
        Contract::Close => false,
        Contract::Pay(_, _, _, _, then) => asks_beyond(sole, then.get()),
        Contract::If(_, then, otherwise) => {
            asks_beyond(sole, then.get()) || asks_beyond(sole, otherwise.get())
        }
        Contract::When(cases, _, then) => {
            ask_beyond(sole, cases) || asks_beyond(sole, then.get())
        }
        Contract::Let(_, _, then) => asks_beyond(sole, then.get()),
        Contract::Assert(_, then) => asks_beyond(sole, then.get()),
    }
}

// Whether a case of a When does, or what follows it.
#[cycle(asks)]
fn ask_beyond(sole: &Option<Account>, cases: &Items<Case>) -> bool
    ensures { result ≡ ask_beyond sole.now (case_trees (map case_tree cases.now)) }
{
    for case in cases.as_slice() {
        if waits_beyond(sole, &case.action) || asks_beyond(sole, &case.then) {
            return true;
        }
    }
    false
}

fn waits_beyond(sole: &Option<Account>, action: &Action) -> bool
    ensures { result ≡ waits_beyond sole.now (action_tree action.now) }
{
    match action {
        Action::Deposit(_, payer, token, _) => is_beyond(sole, payer, token),
        Action::Choice(_, _) | Action::Notify(_) => false,
    }
}

fn is_beyond(sole: &Option<Account>, payer: &Party, token: &Token) -> bool
    ensures { result ≡ is_beyond sole.now payer.now token.now }
{
    match sole {
        None => true,
        Some(account) => !(is_party(&account.owner, payer) && is_token(&account.token, token)),
    }
}

/// Whether two parties are the same.
pub(crate) fn is_party(party: &Party, other: &Party) -> bool
    ensures { result ≡ same_party party.now other.now }
{
    party.same(other)
}

/// Whether two tokens are the same.
pub(crate) fn is_token(token: &Token, other: &Token) -> bool
    ensures { result ≡ same_token token.now other.now }
{
    token.same(other)
}
