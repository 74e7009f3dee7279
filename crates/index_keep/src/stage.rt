//! A stage of a refresh: paths, one after another, until each has its row.
ghost use Rattle.std.specs.Prelude.{◌≡◌, IfOk, OnOk};
ghost use Rattle.index_keep.specs.Right.{LeavesAskedFiles};
ghost use Rattle.index_keep.specs.WalkFacts.{AreLacking, FindsAmongBoth, FindsLacking, LearnsRow};
ghost use Rattle.index_keep.specs.WalkFacts.{PassesOn};

use crate::path_ask::FoundPath;
use mk_files::Files;
use mk_paths::{FilesFault, Settings};
use port_index::{KnownRow, MemoryRows, is_found_in};
use read_trace::Recorder;
use std::alloc::{AllocError, Global};

/// Paths that may lack a fresh row, how many of them have been passed, and what the fresh rows say.
#[derive(Debug, Drop)]
pub(crate) struct Stage {
    pub(crate) paths: Vec<String>,
    pub(crate) place: usize,
    pub(crate) known: MemoryRows,
}

impl Stage {
    /// A stage of a refresh that begins with these paths and these fresh rows.
    pub(crate) fn new(paths: Vec<String>, known: MemoryRows) -> Stage
        ensures { result ≡ record { paths = paths; place = 0; known = known } }
    {
        Stage {
            paths,
            place: 0,
            known,
        }
    }

    /// Goes on in a refresh's stage to the next path with a makefile that has no fresh row, if there is one,
    /// and gives the makefile. It fails if the files fail, or if memory runs out.
    pub(crate) fn pass<F: Files + Drop>(
        &mut self,
        alloc: Global,
        files: &mut Recorder<F>,
        settings: &Settings,
    ) -> Result<Option<FoundPath>, FilesFault>
        ensures passes { PassesOn F.view files.old settings.now self.old self.new result }
        ensures leaves { LeavesAskedFiles F.view result files.old files.new }
    {
        match self.lacking(alloc, files, settings)? {
            Some((place, found)) => {
                self.place = place;
                Ok(Some(found))
            }
            None => Ok(None),
        }
    }

    /// The next path of the stage with a makefile and without a fresh row, if there is one, with its place
    /// among the stage's paths.
    fn lacking<F: Files + Drop>(
        &self,
        alloc: Global,
        files: &mut Recorder<F>,
        settings: &Settings,
    ) -> Result<Option<(usize, FoundPath)>, FilesFault>
        ensures comes { FindsLacking F.view files.old settings.now self.now result }
        ensures leaves { LeavesAskedFiles F.view result files.old files.new }
    {
        for place in self.place..self.paths.len() {
            let path = self.paths[place].as_str();
            if self.known.get(path).is_some() {
                continue;
            }
            if let Some(found) = FoundPath::find(alloc, files, settings, path)? {
                return Ok(Some((place, found)));
            }
        }
        Ok(None)
    }

    /// Tells the stage of one more fresh row. If memory runs out, nothing changes.
    pub(crate) fn know(&mut self, path: String, row: KnownRow) -> Result<(), AllocError>
        ensures { OnOk result (LearnsRow path row self.old self.new) }
    {
        self.known.put(path, row)
    }
}

/// Those of these paths of a stage that have no fresh row.
pub(crate) fn lacking_among(
    alloc: Global,
    paths: &[String],
    known: &MemoryRows,
) -> Result<Vec<String>, AllocError>
    ensures { IfOk result (AreLacking paths.now known.now) }
{
    let mut lacking = Vec::new(alloc);
    let mut finder = known.finder();
    for path in paths {
        if finder.get(path).is_none() {
            lacking.push(String::from_str(alloc, path.as_str())?)?;
        }
    }
    Ok(lacking)
}

/// Those of these paths of a stage that are among others, which are in the order of their bytes.
pub(crate) fn found_among(
    alloc: Global,
    paths: &[String],
    others: &[String],
) -> Result<Vec<String>, AllocError>
    ensures { FindsAmongBoth paths.now others.now result }
{
    let mut found = Vec::new(alloc);
    for path in paths {
        if is_found_in(others, path) {
            found.push(String::from_str(alloc, path.as_str())?)?;
        }
    }
    Ok(found)
}
