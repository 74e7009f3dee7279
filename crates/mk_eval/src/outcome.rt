//! The outcome of an evaluation: what it leaves, or the fault at which it stopped, each with its cost.
ghost use Rattle.std.specs.Prelude.{◌≡◌, string_bytes};
ghost use Rattle.mk_eval.specs.Outcome as outcome;

use mk_base::{Fault, PureStop};
use mk_env::Env;
use std::marker::Model;
use thiserror::Error;

/// What a makefile describes. Of the two system files that say so, the first that it includes counts
/// (bsd.port.mk(5)).
#[derive(Clone, Copy, Debug, PartialEq, Eq)]
pub enum Kind {
    /// A port: it includes `<bsd.port.mk>`.
    Port,
    /// A list of ports' directories: it includes `<bsd.port.subdir.mk>`.
    List,
    /// Neither.
    Other,
}

/// What a makefile leaves: what it describes, its variables, and the units of work that it cost.
#[derive(Drop)]
pub struct Evaluated {
    /// What it describes.
    pub kind: Kind,
    /// The variables after the last line.
    pub env: Env,
    /// The units spent.
    pub cost: u64,
}

/// The first fault of a makefile, or of a value, and the units spent up to there.
#[derive(Debug, Drop, Error)]
#[error("{fault} (after {cost} units)")]
pub struct Failed {
    /// The fault, with its file and line.
    pub fault: Fault,
    /// The units spent.
    pub cost: u64,
}

/// What the value of a variable expands to.
#[derive(Debug, Drop)]
pub struct Valued {
    text: String,
    cost: u64,
}

impl Model for Valued {
    ghost use Rattle.std.specs.Prelude.{string_bytes};
    ghost use Rattle.mk_eval.specs.Expanded.{Expanded};

    ghost Value = { Expanded };

    ghost view = { λ v. record { text = string_bytes v.text; cost = v.cost } };
}

impl Valued {
    /// The outcome of the value of a variable: the text that it expands to, and the units spent.
    pub(crate) fn new(text: String, cost: u64) -> Valued
        ensures { result ≡ record { text = string_bytes text; cost = cost } }
    {
        Valued { text, cost }
    }

    /// The text that the value of a variable expands to.
    pub fn text(&self) -> &str
        ensures { result.now ≡ self.now.text }
    {
        self.text.as_str()
    }

    /// The units that the value of a variable cost, in a budget of its own.
    pub fn cost(&self) -> u64
        ensures { result ≡ self.now.cost }
    {
        self.cost
    }
}

/// The outcome of work on a makefile that looks at no file and stopped: if that is a fault, with the units
/// spent.
pub fn with_units(stop: PureStop<Fault>, cost: u64) -> PureStop<Failed>
    ensures { result ≡ outcome.with_units cost stop }
{
    match stop {
        PureStop::Fault(fault) => PureStop::Fault(Failed { fault, cost }),
        PureStop::Memory(refused) => PureStop::Memory(refused),
    }
}
