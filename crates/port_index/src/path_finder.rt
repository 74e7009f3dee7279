//! A finder of paths of the index that are asked for one after another.
ghost use Rattle.std.specs.Prelude.{map, string_bytes};
ghost use Rattle.port_index.specs.Finders.{FindsPaths, KeepsFinding, TellsIfFound};

use crate::tree_paths::is_found_in;

/// Finds paths among these, which are in the order of their bytes. If paths are asked for in that order, all take one pass;
/// any other path is searched.
#[derive(Debug, Drop)]
pub struct PathFinder<'a> {
    paths: &'a [String],
    place: usize,
}

impl<'a> PathFinder<'a> {
    /// A finder of paths among these.
    pub fn new(paths: &'a [String]) -> PathFinder<'a>
        ensures { FindsPaths (map string_bytes paths.now) result }
    {
        PathFinder { paths, place: 0 }
    }

    /// Whether the finder has this path: whether it is one of its paths.
    pub fn has(&mut self, path: &str) -> bool
        ensures has { TellsIfFound path.now self.old result }
        ensures finder { KeepsFinding self.old self.new }
    {
        while self.place < self.paths.len() {
            let ahead = self.paths[self.place].as_str();
            if ahead == path {
                return true;
            }
            if ahead > path {
                break;
            }
            self.place += 1;
        }
        is_found_in(self.paths, path)
    }
}
