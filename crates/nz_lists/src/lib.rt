//! Plain lemmas on tests, options, results and lists, which speak of nothing of this repository.
#![tactic(auto)]
