//! Laws of states, each the contract of a function that does nothing.
ghost use Rattle.states.specs.Laws.{MoneyIsFound, OtherMoneyStays, ChoiceIsFound, OtherChoicesStay, BoundValueIsFound, OtherBoundValuesStay, FirstAccountIsLeast, OthersAreLeft, TotalFollowsSet};

/// What was set is found, and nothing else is changed.
#[tactic(auto, using(crate::proofs::States::money_is_found, crate::proofs::States::other_money_stays, crate::proofs::States::choice_is_found, crate::proofs::States::other_choices_stay, crate::proofs::States::bound_value_is_found, crate::proofs::States::other_bound_values_stay))]
pub fn sets_are_found()
    ensures money { MoneyIsFound }
    ensures other_money { OtherMoneyStays }
    ensures choice { ChoiceIsFound }
    ensures other_choices { OtherChoicesStay }
    ensures bound_value { BoundValueIsFound }
    ensures other_bound_values { OtherBoundValuesStay }
{}

/// The first account is the least; once it is emptied the others are left.
#[tactic(auto, using(crate::proofs::States::first_account_is_least, crate::proofs::States::others_are_left))]
pub fn first_account_is_least()
    ensures least { FirstAccountIsLeast }
    ensures left { OthersAreLeft }
{}

/// What the accounts hold of a token together changes by what a set adds.
#[tactic(auto, using(crate::proofs::States::total_follows_set))]
pub fn totals_follow_sets()
    ensures { TotalFollowsSet }
{}
