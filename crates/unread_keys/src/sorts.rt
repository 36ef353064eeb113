//! As what the parts of a JSON value are read.
ghost use Rattle.std.specs.Prelude.{◌≡◌, ◌+◌, not, drop, find, is_some, map};
ghost use Rattle.json_forms.specs.Forms.{Field, key_word};
ghost use Rattle.json_forms.specs.Lacking.{is_there};
ghost use Rattle.unread_keys.specs.Sorts as spec;

use crate::unread::Why;
use json::Value;
use json_forms::{Form, Key, Numbers, ScenarioSort, Sort, fields_of, forms_of, key_word, more_of};

/// The form by which an object of these members is read: the first of its sort whose keys are all there.
pub(crate) fn form_of(sort: Sort, members: &[(&str, Value<'_>)]) -> Option<Form>
    ensures { result ≡ spec.form_of sort (map (λ member. member.0.now) members.now) }
{
    first_whole(members, forms_of(sort))
}

fn first_whole(members: &[(&str, Value<'_>)], forms: &[Form]) -> Option<Form>
    ensures { result ≡ spec.first_whole (map (λ member. member.0.now) members.now) forms.now }
{
    match forms {
        [] => None,
        [form, rest @ ..] => {
            if one_lacks(members, fields_of(*form)) {
                first_whole(members, rest)
            } else {
                Some(*form)
            }
        }
    }
}

// Whether one of these keys isn't there.
fn one_lacks(members: &[(&str, Value<'_>)], fields: &[(Key, Sort)]) -> bool
    ensures { result
        ≡ is_some (find (λ (f : Field). not (is_there (map (λ member. member.0.now) members.now) (key_word f.0))) fields.now) }
{
    match fields {
        [] => false,
        [field, rest @ ..] => {
            if is_there(members, key_word(field.0)) {
                one_lacks(members, rest)
            } else {
                true
            }
        }
    }
}

/// The key of a member of an object of a form, with what its value is read as, or why it isn't; `later` are the members behind it.
pub(crate) fn member_field(
    form: Option<Form>,
    key: &str,
    later: &[(&str, Value<'_>)],
) -> Result<(Key, Sort), Why>
    ensures { result ≡ spec.member_field form key.now (map (λ member. member.0.now) later.now) }
{
    let Some(field) = field_behind(form, key) else {
        return Err(Why::NoKey);
    };
    if is_there(later, key) {
        Err(Why::Again)
    } else {
        Ok(field)
    }
}

fn field_behind(form: Option<Form>, key: &str) -> Option<(Key, Sort)>
    ensures { result ≡ spec.field_behind form key.now }
{
    let form = form?;
    match field_among(fields_of(form), key) {
        Some(field) => Some(field),
        None => field_of_more(more_of(form), key),
    }
}

fn field_of_more(more: Option<(Key, Sort)>, key: &str) -> Option<(Key, Sort)>
    ensures { result ≡ spec.field_of_more more key.now }
{
    let field = more?;
    if key_word(field.0) == key {
        Some(field)
    } else {
        None
    }
}

fn field_among(fields: &[(Key, Sort)], key: &str) -> Option<(Key, Sort)>
    ensures { result ≡ spec.field_among fields.now key.now }
{
    match fields {
        [] => None,
        [field, rest @ ..] => {
            if key_word(field.0) == key {
                Some(*field)
            } else {
                field_among(rest, key)
            }
        }
    }
}

// Whether one of these members has a key.
fn is_there(members: &[(&str, Value<'_>)], word: &str) -> bool
    ensures { result ≡ is_there (map (λ member. member.0.now) members.now) word.now }
{
    for member in members {
        let same = member.0 == word;
        if same {
            return true;
        }
    }
    false
}

/// As what the item at an index of a list is read, where it may have keys.
pub(crate) fn item_sort(sort: Sort, index: usize) -> Option<Sort>
    ensures { result ≡ spec.item_sort sort index }
{
    match sort {
        Sort::Cases => Some(Sort::Case),
        Sort::Bounds => Some(Sort::Bound),
        Sort::Inputs => Some(Sort::Input),
        Sort::Accounts(numbers) => Some(Sort::AccountEntry(numbers)),
        Sort::AccountEntry(numbers) => of_two(Sort::Account, Sort::Amount(numbers), index),
        Sort::Account => of_two(Sort::Party, Sort::Token, index),
        Sort::Choices(numbers) => Some(Sort::ChoiceEntry(numbers)),
        Sort::ChoiceEntry(numbers) => of_two(Sort::ChoiceId, number_sort(numbers), index),
        Sort::BoundValues(numbers) => Some(Sort::BoundEntry(numbers)),
        Sort::BoundEntry(numbers) => of_two(Sort::Text, number_sort(numbers), index),
        Sort::Amounts => Some(Sort::AmountEntry),
        Sort::AmountEntry => of_two(Sort::Token, Sort::Amount(Numbers::Whole), index),
        Sort::OfScenario(part) => scenario_items(part),
        _ => None,
    }
}

fn of_two(first: Sort, second: Sort, index: usize) -> Option<Sort>
    ensures { result ≡ spec.of_two first second index }
{
    if index == 0 {
        Some(first)
    } else {
        Some(second)
    }
}

fn number_sort(numbers: Numbers) -> Sort
    ensures { result ≡ spec.number_sort numbers }
{
    match numbers {
        Numbers::Whole => Sort::Whole,
        Numbers::OrTexts => Sort::NumberOrText,
    }
}

fn scenario_items(part: ScenarioSort) -> Option<Sort>
    ensures { result ≡ spec.scenario_items part }
{
    match part {
        ScenarioSort::Genesis => Some(Sort::OfScenario(ScenarioSort::Funds)),
        ScenarioSort::Contracts => Some(Sort::OfScenario(ScenarioSort::NamedContract)),
        ScenarioSort::Threads => Some(Sort::OfScenario(ScenarioSort::NamedThread)),
        ScenarioSort::Plans => Some(Sort::OfScenario(ScenarioSort::Plan)),
        ScenarioSort::Intents => Some(Sort::OfScenario(ScenarioSort::Intent)),
        ScenarioSort::Steps => Some(Sort::OfScenario(ScenarioSort::OneStep)),
        _ => None,
    }
}
