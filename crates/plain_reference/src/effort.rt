//! The effort of the plain reference: how many makefiles it evaluates, and how many units that costs.
ghost use Rattle.std.specs.Prelude.{◌≡◌};
ghost use Rattle.plain_reference.specs.Work as work;
ghost use Rattle.port_index.specs.Efforts.{is_there};
ghost use Rattle.port_index.specs.Seen.{finding_seen, row_seen};

use port_index::{Finding, Row};

/// The effort that the plain reference needs to learn what paths lead to. Both counts stop at 2^64 - 1.
#[derive(Clone, Copy, Debug, PartialEq, Eq)]
pub struct Effort {
    /// How many makefiles were evaluated, each once for each choice of flavors.
    pub evaluations: u64,
    /// The units spent: those of the evaluations, of the records and of the SUBDIRs.
    pub units: u64,
}

impl Effort {
    /// No effort of the plain reference: no makefile is evaluated, and no unit is spent.
    pub(crate) fn nothing() -> Effort
        ensures { result ≡ work.no_effort }
    {
        Effort {
            evaluations: 0,
            units: 0,
        }
    }

    /// The effort of the plain reference for one path, by what was found there: one evaluation if there is a
    /// makefile, and the units that it cost.
    pub(crate) fn of(found: &Finding) -> Effort
        ensures { result ≡ work.effort_of (finding_seen found.now) }
    {
        let units = found.cost;
        Effort {
            evaluations: if is_there(&found.row) { 1 } else { 0 },
            units,
        }
    }

    /// The sum of this effort and more effort.
    pub(crate) fn and(self, more: Effort) -> Effort
        ensures { result ≡ work.both self more }
    {
        Effort {
            evaluations: self.evaluations.saturating_add(more.evaluations),
            units: self.units.saturating_add(more.units),
        }
    }
}

/// Whether the path of a row has a makefile, so that its effort counts an evaluation.
fn is_there(row: &Row) -> bool
    ensures { result ≡ is_there (row_seen row.now) }
{
    !matches!(row, Row::Absent)
}
