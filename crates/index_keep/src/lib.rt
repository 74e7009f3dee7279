//! The index of one tenant, kept in rows. A change of a file makes the rows stale that asked for it. A refresh
//! makes the rows right again, one path at a time. What the index is is read from them.
#![tactic(auto)]

mod beside;
mod keeper;
mod keeper_turns;
mod last_index;
mod laws;
mod path_ask;
mod refresh_start;
mod stage;
mod staying_rows;
mod walk;

pub use eval_ask::{Ask, AskTurned, Asked, asking_spends};
pub use keeper::{Keeper, Refreshed};
pub use laws::refreshing_pays;
