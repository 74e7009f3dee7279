//! The worlds of all tenants, with an index of each that is kept, and a request answered over one of them.
#![tactic(auto)]

mod asking;
mod stored_tenants;
mod tenant;
mod tenant_turns;
mod tenants;

pub use stored_tenants::StoredTenants;
