//! The files, the search path and the profile of one tenant, in a database in memory of its own.
#![tactic(auto)]

mod asker;
mod contents;
mod faults;
mod file_lengths;
mod lent_files;
mod queries;
mod settings;
mod store;
mod tables;
mod tenant_files;
mod updates;

pub use asker::Asker;
pub use faults::PutFault;
pub use store::TenantStore;
pub use tenant_files::TenantFiles;
