//! Cases of ports: their records, what paths lead to, the index of all of them and its refreshes, and
//! questions about it.
#![tactic(auto)]

mod asks;
mod dependencies;
mod given;
mod kept_look;
mod paths;
mod records;
mod refresh_answers;
mod refreshes;

use case_lines::{Answer, Trouble};
use make_cases::Setup;
use std::alloc::Global;

/// What the call of a case's line gives over what was set up, if it is a call of ports, and else what the
/// setup gives. The error is `NoCase` if the line is in no form of a case, and `Memory` if memory runs out.
pub fn answer(
    alloc: Global,
    setup: &mut Setup,
    call: &str,
    given: &[Vec<u8>],
) -> Result<Answer, Trouble> {
    let world = &mut setup.world;
    match call {
        "record" => records::record_answer(alloc, world, given),
        "index" => dependencies::index(alloc, world),
        "finding" => paths::path_answer(alloc, world, given),
        "finding failing" => paths::finding_failing(alloc, world, given),
        "agrees" => paths::agrees_answer(alloc, world, given),
        "asked" => asks::asked_answer(alloc, world, given),
        "asked by" => asks::asked_by_turns(alloc, world, given),
        "refreshed by" => refreshes::refreshed_answer(alloc, world, given),
        "put away by" => refreshes::put_away_answer(alloc, world, given),
        "refreshed failing by" => refreshes::refreshed_failing(alloc, world, given),
        "refreshed stopped by" => refreshes::refreshed_stopped(alloc, world, given),
        "look failing" => kept_look::look_failing(alloc, world, given),
        "items" => dependencies::items_answer(alloc, world),
        "statuses" => dependencies::statuses(alloc, world, given),
        "first" | "to" | "reached" | "reaching" => {
            dependencies::over_edges(alloc, world, call, given)
        }
        "list" => dependencies::listed(alloc, world, given),
        "match" => dependencies::matched(alloc, world, given),
        _ => setup.answer(call, given),
    }
}
