//! Cases of loops: their headers, and lines with the words of iterations put in.
use case_lines::{Answer, Trouble, as_number, as_text};
use mk_base::{Budget, FaultKind, PureStop, Stop, UNITS};
use mk_env::Env;
use mk_loop::{Iteration, put_words, read_header};
use std::alloc::Global;
use std::rc::Rc;

/// A line of a case with the words of loops put in. `None` if there are none to put in.
type Put = Result<Option<String>, PureStop<FaultKind>>;

/// The call `iterations of HEADER on LINE` of a case of loops: the line with the words of each iteration put
/// in, with the units spent; of a fault its kind. A number after `within` is the limit of the budget.
pub fn iterations_of(alloc: Global, variables: &Env, given: &[Vec<u8>]) -> Result<Answer, Trouble> {
    let (limit, header, line) = match given {
        [header, line] => (UNITS, header, line),
        [header, line, limit] => (as_number(limit)?, header, line),
        _ => return Err(Trouble::NoCase),
    };
    let (header, line) = (as_text(header)?, as_text(line)?);
    let mut budget = Budget::new(limit);
    let mut answer = Answer::new(alloc);
    match read_header(alloc, variables, header, &mut budget) {
        Ok(iterations) => {
            let iterations = Rc::new(alloc, iterations)?;
            for index in 0..iterations.count() {
                let loops = [Iteration::new(iterations.clone()?, index)];
                let put = put_words(alloc, variables, &loops, line, &mut budget);
                add_put(&mut answer, put);
            }
        }
        Err(stop) => answer.stop(Stop::from(stop)),
    }
    answer.number(budget.spent());
    Ok(answer)
}

/// Adds to the answer of a case of loops a line with words put in, `unchanged`, or the kind of a fault.
fn add_put(answer: &mut Answer, put: Put) {
    match put {
        Ok(Some(text)) => answer.text(text.as_bytes()),
        Ok(None) => answer.word("unchanged"),
        Err(stop) => answer.stop(Stop::from(stop)),
    }
}

/// The call `put words into LINE of HEADER..` of a case of loops: the line with words put in, or `unchanged`;
/// and the units spent. Of a fault its kind. The words are those of the first iteration of each of these
/// loops, the innermost last. A number after `within` is the limit of the budget.
pub fn put_words_answer(
    alloc: Global,
    variables: &Env,
    limited: bool,
    given: &[Vec<u8>],
) -> Result<Answer, Trouble> {
    let (limit, given) = match given {
        [limit, more @ ..] if limited => (as_number(limit)?, more),
        _ => (UNITS, given),
    };
    let [line, headers @ ..] = given else {
        return Err(Trouble::NoCase);
    };
    let mut budget = Budget::new(limit);
    let put = put_in(alloc, variables, headers, as_text(line)?, &mut budget)?;
    let mut answer = Answer::new(alloc);
    add_put(&mut answer, put);
    answer.number(budget.spent());
    Ok(answer)
}

/// The line of a case with the words of the first iterations of these loops put in.
fn put_in(
    alloc: Global,
    variables: &Env,
    headers: &[Vec<u8>],
    line: &str,
    budget: &mut Budget,
) -> Result<Put, Trouble> {
    let mut loops = Vec::new(alloc);
    for header in headers {
        loops.push(first_iteration(alloc, variables, header)?)?;
    }
    Ok(put_words(alloc, variables, loops.as_slice(), line, budget))
}

/// The first iteration of the loop whose header a case gives. It is `NoCase` if there is none.
fn first_iteration(alloc: Global, variables: &Env, header: &[u8]) -> Result<Iteration, Trouble> {
    let mut budget = Budget::new(UNITS);
    match read_header(alloc, variables, as_text(header)?, &mut budget) {
        Ok(iterations) if iterations.count() > 0 => Ok(Iteration::new(
            Rc::new(alloc, iterations)?,
            0,
        )),
        _ => Err(Trouble::NoCase),
    }
}
