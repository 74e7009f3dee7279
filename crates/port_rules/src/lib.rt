//! What a port is: its flavors, its packages with their names, and what it depends on, as its variables
//! say (bsd.port.mk(5)).
#![tactic(auto)]

mod asked_variables;
mod depends;
mod flavors;
mod laws;
mod package_names;
mod packages;
mod port_record;
mod records;
mod text_sets;

pub use asked_variables::words_in;
pub use depends::{Depend, DependKind};
pub use flavors::PortFlavors;
pub use laws::records_cost_few;
pub use packages::Package;
pub use port_record::PortRecord;
pub use records::{Recorded, record};
