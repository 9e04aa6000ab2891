//! Facts about lists, tests and whole numbers that std has no lemma for and that proofs of several
//! crates rest on. There is nothing to call: each stands in `proofs/`, and is cited there by name.
#![tactic(auto)]
