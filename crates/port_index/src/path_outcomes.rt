//! What a path of a ports tree leads to: a port, a list of directories, a fault or nothing.
ghost use Rattle.std.specs.Prelude.{◌≡◌, IfOk};
ghost use Rattle.port_index.specs.PathOutcomes as outcomes;
ghost use Rattle.port_index.specs.Seen.{IsFindingOf, IsFindingAfter, IsPortFinding, IsListFinding, finding_seen};

use mk_base::{Fault, PureStop};
use mk_eval::{Evaluated, Failed, Kind, value};
use mk_paths::Name;
use pkg_path::PkgPath;
use port_rules::{PortRecord, record, words_in};
use std::alloc::{AllocError, Global};

/// What a path of a ports tree leads to: what the makefile that it names describes.
#[derive(Debug, Drop)]
pub enum Row {
    /// There is no such makefile.
    Absent,
    /// The makefile's evaluation has this fault.
    Faulty(Fault),
    /// This port.
    Port(PortRecord),
    /// A port whose record has this fault.
    BadPort(Fault),
    /// A list of ports' directories: the words of SUBDIR.
    Lists(Vec<String>),
    /// A list of ports' directories whose SUBDIR has this fault.
    BadList(Fault),
    /// A list of ports' directories that was evaluated with flavors, and so lists nothing.
    FlavoredList,
    /// Neither a port nor a list.
    Other,
}

/// What a path of a ports tree leads to, and what it cost to learn that.
#[derive(Debug, Drop)]
pub struct Finding {
    /// What the path leads to.
    pub row: Row,
    /// The units spent: those of the evaluation, and then of the record, or of SUBDIR.
    pub cost: u64,
}

impl Finding {
    /// What a path leads to that has no makefile: nothing, at no cost.
    pub fn nothing() -> Finding
        ensures { finding_seen result ≡ outcomes.nothing_found }
    {
        Finding {
            row: Row::Absent,
            cost: 0,
        }
    }
}

/// What a path leads to: what its makefile, of this name, describes, given how its evaluation with these
/// flavors, or with none given, ended. It fails only if memory runs out.
pub fn finding_of(
    alloc: Global,
    outcome: &Result<Evaluated, Failed>,
    makefile: &Name,
    flavors: Option<&[String]>,
) -> Result<Finding, AllocError>
    ensures { IfOk result (IsFindingOf outcome.now makefile.now flavors.entry) }
{
    match outcome {
        Ok(evaluated) => finding_after(alloc, evaluated, makefile, flavors),
        Err(failed) => Ok(Finding {
            row: Row::Faulty(copy_of(alloc, &failed.fault)?),
            cost: failed.cost,
        }),
    }
}

/// A copy of the fault to which a path leads.
fn copy_of(alloc: Global, fault: &Fault) -> Result<Fault, AllocError>
    ensures { IfOk result (λ copied. copied ≡ fault.now) }
{
    Fault::new(alloc, fault.kind(), fault.name(), fault.line())
}

/// What a path leads to whose makefile is evaluated without a fault.
fn finding_after(
    alloc: Global,
    evaluated: &Evaluated,
    makefile: &Name,
    flavors: Option<&[String]>,
) -> Result<Finding, AllocError>
    ensures { IfOk result (IsFindingAfter evaluated.now makefile.now flavors.entry) }
{
    match evaluated.kind {
        Kind::Port => port_finding(alloc, evaluated, makefile),
        Kind::List => match flavors {
            Some(_names) => Ok(Finding {
                row: Row::FlavoredList,
                cost: evaluated.cost,
            }),
            None => list_finding(alloc, evaluated, makefile),
        },
        Kind::Other => Ok(Finding {
            row: Row::Other,
            cost: evaluated.cost,
        }),
    }
}

/// What the path of a port leads to: the port, or the fault of its record.
fn port_finding(
    alloc: Global,
    evaluated: &Evaluated,
    makefile: &Name,
) -> Result<Finding, AllocError>
    ensures { IfOk result (IsPortFinding evaluated.now makefile.now) }
{
    match record(alloc, evaluated, makefile) {
        Ok(recorded) => Ok(Finding {
            row: Row::Port(recorded.port),
            cost: evaluated.cost.saturating_add(recorded.cost),
        }),
        Err(PureStop::Fault(failed)) => Ok(Finding {
            row: Row::BadPort(failed.fault),
            cost: evaluated.cost.saturating_add(failed.cost),
        }),
        Err(PureStop::Memory(refused)) => Err(refused.into()),
    }
}

/// What the path of a list leads to: the directories that SUBDIR lists, or the fault of SUBDIR.
fn list_finding(
    alloc: Global,
    evaluated: &Evaluated,
    makefile: &Name,
) -> Result<Finding, AllocError>
    ensures { IfOk result (IsListFinding evaluated.now makefile.now) }
{
    match value(alloc, evaluated, makefile, "SUBDIR") {
        Ok(found) => {
            let (words, more) = match found {
                Some(found) => (words_in(alloc, found.text())?, found.cost()),
                None => (Vec::new(alloc), 0),
            };
            Ok(Finding {
                row: Row::Lists(words),
                cost: evaluated.cost.saturating_add(more),
            })
        }
        Err(PureStop::Fault(failed)) => Ok(Finding {
            row: Row::BadList(failed.fault),
            cost: evaluated.cost.saturating_add(failed.cost),
        }),
        Err(PureStop::Memory(refused)) => Err(refused.into()),
    }
}
