//! Names of bytes, and facts about booleans, options, lists, texts and finite maps that the proofs of
//! several crates need and std doesn't have. There is no code here.
#![tactic(auto)]
