//! The paths beside the listed ones on which the index depends: those with flavors that items name.
ghost use Rattle.index_keep.specs.Right.{LeavesAskedFiles};
ghost use Rattle.index_keep.specs.WalkFacts.{AddsThere, FindsBeside, TellsThere};

use crate::path_ask::FoundPath;
use mk_files::Files;
use mk_paths::{FilesFault, Settings};
use port_index::{MemoryRows, flavored_targets};
use read_trace::Recorder;
use std::alloc::Global;
use text_parts::put_in_order;

/// The paths beside the listed ones: those with flavors that have a makefile and that items of ports at
/// listed paths name, by the rows of these. They are in the order of their bytes, each once. Any other path
/// with a makefile is a directory, and so is listed. It fails if the files fail, or if memory runs out.
pub(crate) fn paths_beside<F: Files + Drop>(
    alloc: Global,
    files: &mut Recorder<F>,
    settings: &Settings,
    listed: &[String],
    known: &MemoryRows,
) -> Result<Vec<String>, FilesFault>
    ensures beside { FindsBeside F.view files.old settings.now known.now listed.now result }
    ensures leaves { LeavesAskedFiles F.view result files.old files.new }
{
    let mut beside = Vec::new(alloc);
    let mut finder = known.finder();
    for path in listed {
        let named = flavored_targets(alloc, finder.get(path))?;
        add_there(alloc, files, settings, known, named, &mut beside)?;
    }
    put_in_order(&mut beside);
    Ok(beside)
}

/// Adds those of these paths beside the listed ones that have a row or a makefile.
fn add_there<F: Files + Drop>(
    alloc: Global,
    files: &mut Recorder<F>,
    settings: &Settings,
    known: &MemoryRows,
    named: Vec<String>,
    beside: &mut Vec<String>,
) -> Result<(), FilesFault>
    ensures adds { AddsThere F.view files.old settings.now known.now named beside.old beside.new result }
    ensures leaves { LeavesAskedFiles F.view result files.old files.new }
{
    for path in named {
        if is_there(alloc, files, settings, known, path.as_str())? {
            beside.push(path)?;
        }
    }
    Ok(())
}

/// Whether a path beside the listed ones has a row or a makefile.
fn is_there<F: Files + Drop>(
    alloc: Global,
    files: &mut Recorder<F>,
    settings: &Settings,
    known: &MemoryRows,
    path: &str,
) -> Result<bool, FilesFault>
    ensures there { TellsThere F.view files.old settings.now known.now path.now result }
    ensures leaves { LeavesAskedFiles F.view result files.old files.new }
{
    if known.get(path).is_some() {
        return Ok(true);
    }
    Ok(FoundPath::find(alloc, files, settings, path)?.is_some())
}
