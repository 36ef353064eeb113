//! Laws of contracts, each the contract of a function that does nothing.
ghost use Rattle.contract.specs.Tree.{value_tree, observation_tree, action_tree, contract_tree};
ghost use Rattle.contract.specs.TreeInverse.{value_of, observation_of, action_of, contract_of};
ghost use Rattle.contract.specs.Laws.{OneTreeEach};

/// A contract and its tree determine each other; so do a value, an observation or an action and its own.
#[tactic(auto, using(crate::proofs::Trees::value_trees, crate::proofs::Trees::observation_trees, crate::proofs::Trees::action_trees, crate::proofs::Trees::contract_trees))]
pub fn contracts_are_trees()
    ensures values { OneTreeEach value_tree value_of }
    ensures observations { OneTreeEach observation_tree observation_of }
    ensures actions { OneTreeEach action_tree action_of }
    ensures contracts { OneTreeEach contract_tree contract_of }
{}
