//! Worked cases of turn orders: the turns of two tenants, in every order.
use crate::service::config;
use crate::service_requests::happen;
use case_lines::{Answer, Trouble, as_number};
use ports_core::{Event, Transcript, replay};
use portsd_text::{Script, read_script};
use std::alloc::Global;

/// The most turns of both tenants in a turn order.
const MOST_TURNS: u64 = 8;

/// More turn orders than there are of so many turns.
const MOST_ORDERS: Order = 256;

/// A turn order of two tenants: as many bits as there are turns, the lowest first. A bit says whose turn it
/// is.
type Order = u64;

/// The call `any order SCRIPT of TURNS with PARSES EVALS` of a worked case of turn orders: what the
/// connections 0 and 1 have to write after a script and so many turns of each of two tenants. The service has
/// a cache of these sizes. All orders of the turns are tried, each with a new service.
///
/// It gives how many orders there are, and the bytes of both connections; after them `but` and an order, for
/// each order that leaves other bytes.
pub fn any_order(alloc: Global, given: &[Vec<u8>]) -> Result<Answer, Trouble> {
    let [script, turns, sizes @ ..] = given else {
        return Err(Trouble::NoCase);
    };
    let turns = both_turns(as_number(turns)?)?;
    let mut input = script.as_slice();
    let script = read_script(alloc, &mut input).map_err(|_| Trouble::NoCase)?;
    let orders = orders(alloc, turns)?;
    let mut answer = Answer::new(alloc);
    answer.number(orders.len() as u64);
    let mut first: Option<Answer> = None;
    for order in orders.iter() {
        let pending = pending_after(alloc, &script, sizes, turns, *order)?;
        match &first {
            None => {
                answer.word(pending.whole()?);
                first = Some(pending);
            }
            Some(first) if first.is_same(&pending)? => {}
            Some(_) => {
                answer.word("but");
                answer.number(*order);
            }
        }
    }
    Ok(answer)
}

/// The number of turns in a turn order of two tenants, if each tenant has so many. It is `NoCase` if there
/// are too many.
fn both_turns(turns: u64) -> Result<u64, Trouble> {
    if turns > MOST_TURNS / 2 {
        return Err(Trouble::NoCase);
    }
    Ok(2 * turns)
}

/// The orders of so many turns of two tenants in which each tenant has one half of the turns.
fn orders(alloc: Global, turns: u64) -> Result<Vec<Order>, Trouble> {
    let mut found = Vec::new(alloc);
    for order in 0..MOST_ORDERS {
        let (rest, of_tenant_1) = counted(order, turns);
        if rest == 0 && of_tenant_1 == turns / 2 {
            found.push(order)?;
        }
    }
    Ok(found)
}

/// What is left of a turn order after so many turns, and how many of these are of the tenant 1.
fn counted(order: Order, turns: u64) -> (Order, u64) {
    let mut rest = order;
    let mut of_tenant_1: u64 = 0;
    for _ in 0..turns {
        of_tenant_1 = of_tenant_1.saturating_add(rest % 2);
        rest /= 2;
    }
    (rest, of_tenant_1)
}

/// What the connections 0 and 1 have to write after a script and the turns of two tenants in this order.
fn pending_after(
    alloc: Global,
    script: &Script,
    sizes: &[Vec<u8>],
    turns: u64,
    order: Order,
) -> Result<Answer, Trouble> {
    let replayed = replay(alloc, config(alloc, sizes)?, script.events.as_slice());
    let Ok(Transcript { mut service, .. }) = replayed else {
        return Err(Trouble::NoCase);
    };
    let mut rest = order;
    for _ in 0..turns {
        let tenant = (rest % 2) as usize;
        let _told = happen(&mut service, &Event::Turn(tenant))?;
        rest /= 2;
    }
    let mut answer = Answer::new(alloc);
    answer.text(service.pending(0));
    answer.text(service.pending(1));
    Ok(answer)
}
