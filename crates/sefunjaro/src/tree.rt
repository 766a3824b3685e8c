//! The archive of a source that is open.

use crate::error::Error;
use crate::source::OpenSource;
use std::alloc::Global;
use zone_tree::{TreeFault, tree_of_table};

impl OpenSource {
    ghost use Rattle.std.specs.Prelude.{◌≡◌, MatchResult, Ok};
    ghost use Rattle.zone_tree.specs.{Names.{finds_in_table}, Trees.{tree_by}};
    ghost use Rattle.sefunjaro.specs.{Causes.{IsTreeCause}, Sources.{release_in, table_in}};

    /// Every zone of the source, and every link, in a tar archive, as [`tree`](zone_tree::tree) writes it of the source's plain form:
    /// that text isn't read again.
    ///
    /// # Errors
    ///
    /// `Tree` has the first name in the archive's order that has no entry, and why; `NoMemory`.
    pub fn tree(&self, alloc: Global) -> Result<Vec<u8>, Error>
        ensures { MatchResult result (λ bytes. tree_by (release_in self.now) (finds_in_table (table_in self.now)) ≡ Ok bytes.items) (IsTreeCause (tree_by (release_in self.now) (finds_in_table (table_in self.now)))) }
    {
        match tree_of_table(alloc, self.release(), self.table()) {
            Ok(bytes) => Ok(bytes),
            Err(TreeFault::Source(_)) => unreachable!(),
            Err(TreeFault::Refused(name, why)) => Err(Error::Tree(TreeFault::Refused(name, why))),
            Err(TreeFault::NoMemory) => Err(Error::NoMemory),
        }
    }
}
