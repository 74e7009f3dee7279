//! Records of ports, each in a budget of its own.
ghost use Rattle.mk_eval.specs.Outcome as outcome;
ghost use Rattle.port_rules.specs.Records.{record_of};

use crate::port_record::{PortRecord, read_port};
use mk_base::{Budget, PureStop, UNITS};
use mk_eval::{Evaluated, Failed, with_units};
use mk_paths::Name;
use std::alloc::Global;

/// The record of a port, and the units that it cost.
#[derive(Drop)]
pub struct Recorded {
    /// What the port is.
    pub port: PortRecord,
    /// The units spent.
    pub cost: u64,
}

/// The record of a port: what the port is, by the variables that the evaluation of its makefile, of this
/// name, left (bsd.port.mk(5)). It has a budget of 50,000 units of its own.
///
/// The variables are asked in this order. First come FLAVOR, FLAVORS, PSEUDO_FLAVORS, MULTI_PACKAGES,
/// MAINTAINER and CATEGORIES. Then come, for each package, its name (FULLPKGNAME, or else PKGNAME,
/// REVISION, EPOCH) and COMMENT. Then comes BUILD_DEPENDS, then for each package LIB_DEPENDS and
/// RUN_DEPENDS, and then TEST_DEPENDS. A variable that isn't defined costs nothing.
///
/// Each fault is at line 0 of the makefile, with the units that were spent. There are those of
/// `mk_env::expand_variable` for what is asked. After PSEUDO_FLAVORS it is `Flavor` if a chosen flavor
/// is neither in it nor in FLAVORS. After MULTI_PACKAGES it is `BadName` if a word of it isn't a dash
/// and a name, or is there twice. It is `NoName` if a package has no name, or an empty one, and
/// `BadName` if its name can't be a package's name. The other error is that memory runs out.
pub fn record(
    alloc: Global,
    evaluated: &Evaluated,
    name: &Name,
) -> Result<Recorded, PureStop<Failed>>
    ensures record { outcome.TellsPurely (λ x. x) result (record_of evaluated.now.env name.now) }
{
    let mut budget = Budget::new(UNITS);
    match read_port(alloc, &evaluated.env, &mut budget) {
        Ok(port) => Ok(Recorded {
            port,
            cost: budget.spent(),
        }),
        Err(stop) => {
            let stop = stop.blame(alloc, name.as_str(), 0);
            Err(with_units(stop, budget.spent()))
        }
    }
}
