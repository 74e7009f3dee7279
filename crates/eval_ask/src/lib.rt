//! One evaluation that is asked for, with a cache of those that are kept. It can be stopped after any turn, and goes on
//! later.
#![tactic(auto)]

mod ask;
mod laws;

pub use ask::{Ask, AskTurned, Asked};
pub use laws::asking_spends;
