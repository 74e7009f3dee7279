//! Cases of the faults of makefiles, and of budgets.
use case_lines::{Answer, Trouble, as_number, as_text};
use mk_base::{Budget, Fault, FaultKind, PureStop, Stop};
use std::alloc::Global;

/// The call `numbers of kinds` of a case of faults: each kind of fault, with the number by which replies name
/// it.
pub fn numbers_of_kinds(alloc: Global) -> Answer {
    let mut answer = Answer::new(alloc);
    for kind in [
        FaultKind::Line,
        FaultKind::Block,
        FaultKind::Condition,
        FaultKind::For,
        FaultKind::Include,
        FaultKind::IncludeDepth,
        FaultKind::Reference,
        FaultKind::Modifier,
        FaultKind::Recursive,
        FaultKind::Depth,
        FaultKind::Budget,
        FaultKind::Length,
        FaultKind::Shell,
        FaultKind::Utf8,
        FaultKind::Flavor,
        FaultKind::NoName,
        FaultKind::BadName,
        FaultKind::Questions,
    ] {
        answer.kind(&kind);
        answer.number(u64::from(kind.number()));
    }
    answer
}

/// The call `budget LIMIT pays N asks M` of a case of budgets: pays so many units and asks so many questions.
/// Then it gives the first fault of each, if any, and what was spent and asked.
pub fn budget(alloc: Global, given: &[Vec<u8>]) -> Result<Answer, Trouble> {
    let [limit, units, questions] = given else {
        return Err(Trouble::NoCase);
    };
    let mut budget = Budget::new(as_number(limit)?);
    let mut answer = Answer::new(alloc);
    let mut fault = None;
    for _ in 0..as_number(units)? {
        fault = fault.or(budget.pay().err());
    }
    add_fault_kind(&mut answer, fault);
    fault = None;
    for _ in 0..as_number(questions)? {
        fault = fault.or(budget.ask().err());
    }
    add_fault_kind(&mut answer, fault);
    answer.number(budget.spent());
    answer.number(budget.questions());
    Ok(answer)
}

/// Adds the kind of a budget's fault to the answer of a case, or `ok` if there is none.
fn add_fault_kind(answer: &mut Answer, kind: Option<FaultKind>) {
    match kind {
        Some(kind) => answer.kind(&kind),
        None => answer.word("ok"),
    }
}

/// The call `blame NAME LINE` of a case of faults: a fault at this line of this file, as it reports its kind,
/// name and line.
pub fn blamed(alloc: Global, given: &[Vec<u8>]) -> Result<Answer, Trouble> {
    let [name, line] = given else {
        return Err(Trouble::NoCase);
    };
    let stop = Stop::Fault(FaultKind::Reference);
    match stop.blame(alloc, as_text(name)?, as_number(line)?) {
        Stop::Fault(fault) => fault_answer(alloc, &fault),
        Stop::Store(_) => Ok(Answer::of_word(alloc, "Store")),
        Stop::Memory(refused) => Err(Trouble::Memory(refused)),
    }
}

/// The fault of a makefile as the answer of a case: `KIND at NAME:LINE`.
pub fn fault_answer(alloc: Global, fault: &Fault) -> Result<Answer, Trouble> {
    let kind = fault.kind();
    let name = fault.name();
    let line = fault.line();
    let told = format!(in alloc; "{kind:?} at {name}:{line}")?;
    Ok(Answer::of_word(alloc, told.as_str()))
}
