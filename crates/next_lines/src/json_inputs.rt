//! The inputs that apply, as JSON.
ghost use Rattle.std.specs.Prelude.{◌≡◌, pos, int_le, flat_map, OnOk};
ghost use Rattle.serde_json.specs.Data.{array};
ghost use Rattle.serde_json.specs.View.{items_of};
ghost use Rattle.json_write_contracts.specs.Tokens.{Adds, Puts};
ghost use Rattle.json_write_contracts.specs.WrittenNames.{number_json};
ghost use Rattle.json_write_contracts.proofs.ListedLaws.{front};
ghost use Rattle.next_lines.specs.Json.{deposit_json, choice_json, notify_json, notify_of, inputs_json};
ghost use Rattle.next_lines.specs.Seen.{seen_deposit, seen_case, seen_cases};
ghost use Rattle.next_lines.specs.ListsSupport.{in_list};

use crate::json_lists::put_list;
use crate::terms::{Flag, Index, Refusal};
use crate::told::{CaseTold, Deposit};
use contract::{Bound, ChoiceId, Items, Memory, SemFault};
use json::Writer;
use json_write_contracts::{Term, end_with_one, end_with_three, put_member};
use std::alloc::Global;

/// Which list of cases is meant.
#[derive(Clone, Copy)]
pub(crate) enum CaseList {
    Choices,
    Deposits,
    Leaves,
}

/// The inputs that apply.
pub(crate) fn put_inputs(
    alloc: Global,
    out: &mut Writer,
    cases: &[CaseTold<'_>],
) -> Result<(), Memory>
    ensures { OnOk result (Puts out.old out.new (inputs_json (seen_cases cases.now))) }
{
    out.begin_object()?;
    out.key("choices")?;
    put_listed(alloc, out, CaseList::Choices, cases)?;
    out.key("deposits")?;
    put_listed(alloc, out, CaseList::Deposits, cases)?;
    out.key("leaves_128")?;
    put_listed(alloc, out, CaseList::Leaves, cases)?;
    out.key("notify")?;
    put_notify_of(alloc, out, cases)?;
    out.end_object()?;
    Ok(())
}

// The cases of a list.
fn put_listed(
    alloc: Global,
    out: &mut Writer,
    which: CaseList,
    cases: &[CaseTold<'_>],
) -> Result<(), Memory>
    ensures { OnOk result (Puts out.old out.new (array (items_of (flat_map (λ c. in_list which (seen_case c)) cases.now)))) }
{
    out.begin_array()?;
    for case in cases {
        put_if_listed(alloc, out, which, *case)?;
    }
    out.end_array()?;
    Ok(())
}

// A case, if it is in the list.
fn put_if_listed(
    alloc: Global,
    out: &mut Writer,
    which: CaseList,
    case: CaseTold<'_>,
) -> Result<(), Memory>
    ensures { OnOk result (Adds out.old out.new (front (in_list which (seen_case case.entry)))) }
{
    match (which, case) {
        (CaseList::Choices, CaseTold::Choice(index, id, bounds)) => {
            put_choice(alloc, out, index, id, bounds)
        }
        (CaseList::Deposits, CaseTold::Deposit(index, deposit, refused)) => {
            put_deposit(alloc, out, index, &deposit, refused)
        }
        (CaseList::Leaves, CaseTold::DepositLeaves(index, _, _, _)) => {
            put_index(alloc, out, index)
        }
        (CaseList::Leaves, CaseTold::NotifyLeaves(index)) => put_index(alloc, out, index),
        _ => Ok(()),
    }
}

fn put_choice(
    alloc: Global,
    out: &mut Writer,
    index: usize,
    id: &ChoiceId,
    bounds: &Items<Bound>,
) -> Result<(), Memory>
    ensures { OnOk result (Puts out.old out.new (choice_json index id.now bounds.now)) }
{
    out.begin_object()?;
    out.key("can_choose_between")?;
    put_list(alloc, out, bounds.as_slice())?;
    end_with_three(
        alloc,
        out,
        "case_index",
        &Index(index),
        "for_choice",
        id,
        "is_merkleized_continuation",
        &Flag(false),
    )
}

fn put_deposit(
    alloc: Global,
    out: &mut Writer,
    index: usize,
    deposit: &Deposit<'_>,
    refused: Option<SemFault>,
) -> Result<(), Memory>
    ensures { OnOk result (Puts out.old out.new (seen_deposit (deposit_json index refused) deposit.now)) }
{
    out.begin_object()?;
    put_member(alloc, out, "can_deposit", &deposit.amount)?;
    put_member(alloc, out, "case_index", &Index(index))?;
    put_member(alloc, out, "into_account", deposit.account)?;
    put_member(alloc, out, "is_merkleized_continuation", &Flag(false))?;
    put_member(alloc, out, "of_token", deposit.token)?;
    end_with_three(
        alloc,
        out,
        "party",
        deposit.party,
        "refused",
        &Refusal(refused),
        "warns",
        &Flag(warns(deposit)),
    )
}

// Whether a deposit is taken with a warning.
fn warns(deposit: &Deposit<'_>) -> bool
    ensures { result ≡ int_le deposit.now.amount (pos 0) }
{
    deposit.amount <= 0
}

fn put_index(alloc: Global, out: &mut Writer, index: usize) -> Result<(), Memory>
    ensures { OnOk result (Puts out.old out.new (number_json (pos index))) }
{
    Index(index).put(alloc, out)
}

// The case that takes a notify, or null where none does.
fn put_notify_of(alloc: Global, out: &mut Writer, cases: &[CaseTold<'_>]) -> Result<(), Memory>
    ensures { OnOk result (Puts out.old out.new (notify_of (seen_cases cases.now))) }
{
    for case in cases {
        if let CaseTold::Notify(index, refused) = *case {
            return put_notify(alloc, out, index, refused);
        }
    }
    out.null()
}

fn put_notify(
    alloc: Global,
    out: &mut Writer,
    index: usize,
    refused: Option<SemFault>,
) -> Result<(), Memory>
    ensures { OnOk result (Puts out.old out.new (notify_json index refused)) }
{
    out.begin_object()?;
    end_with_three(
        alloc,
        out,
        "case_index",
        &Index(index),
        "is_merkleized_continuation",
        &Flag(false),
        "refused",
        &Refusal(refused),
    )
}
