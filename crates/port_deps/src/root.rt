//! The roots of a ports tree: its ports, and the directories whose makefile has a fault.
ghost use Rattle.std.specs.Prelude.{◌≡◌};
ghost use Rattle.port_deps.specs.Roots.{state_lent};

use mk_base::Fault;
use port_rules::PortRecord;
use std::marker::Model;

/// A root of a ports tree: a port of it, or a directory of it whose makefile has a fault. All of it is lent.
#[derive(Debug, Drop)]
pub struct Root<'a> {
    path: &'a str,
    state: Result<&'a PortRecord, &'a Fault>,
}

impl<'a> Model for Root<'a> {
    ghost use Rattle.port_deps.specs.Roots.{RootValue, state_lent};

    ghost Value = { RootValue };

    ghost view = { λ r. record { path = r.path.now; state = state_lent r.state } };
}

impl<'a> Root<'a> {
    /// The root at this canonical path: the port, or the fault, that is found there.
    pub fn new(path: &'a str, state: Result<&'a PortRecord, &'a Fault>) -> Root<'a>
        ensures { result ≡ record { path = path.now; state = state_lent state.entry } }
    {
        Root { path, state }
    }

    /// The path of the root, in the canonical form and without a subpackage; `.` for the trees' own
    /// directory.
    pub fn path(&self) -> &'a str
        ensures { result.now ≡ self.now.path }
    {
        self.path
    }

    /// The state of the root: the port, or the fault of its makefile or of its record.
    pub fn state(&self) -> Result<&'a PortRecord, &'a Fault>
        ensures { state_lent result ≡ self.now.state }
    {
        self.state
    }
}
