//! The world of a case: the files and settings of one tenant, in memory.
use crate::evaluation::Way;
use mk_files::MemoryFiles;
use mk_paths::{SearchPath, Settings};
use mk_text::Profile;
use read_trace::Trace;
use std::alloc::{AllocError, Global};

/// The world of a case: a tenant's files and settings, and how makefiles are evaluated among them.
#[derive(Drop)]
pub struct World {
    pub files: MemoryFiles,
    pub settings: Settings,
    pub(crate) way: Way,
    /// What the last evaluation asked.
    pub(crate) asked: Trace,
}

impl World {
    /// A world of a case with no file and with the standard search path, in this profile.
    pub fn new(alloc: Global, profile: Profile) -> Result<World, AllocError> {
        Ok(World {
            files: MemoryFiles::new(alloc),
            settings: Settings {
                path: SearchPath::standard(alloc)?,
                profile,
            },
            way: Way::Whole,
            asked: Trace::new(alloc),
        })
    }
}
