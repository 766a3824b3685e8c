//! Laws of the archives of sources.
ghost use Rattle.std.specs.Prelude.{◌≡◌, ℕ, List, None, Ok};
ghost use Rattle.zone_source.specs.{Faults.{source_fault}, Releases.{release_of}, Zones.{values_of}};
ghost use Rattle.zone_table.specs.{Tables.{IsTableOf}, declared.table.Table.{Table}};
ghost use Rattle.zone_tree.specs.{EverTrees.{IsEverTree}, Names.{finds_in_table}, TreeShape.{IsTree}, Trees.{or_cause, tree_by, tree_of}};

/// In the archive of a source a name has an entry exactly where a line gives it to a zone or by a link, so none of the source is
/// left out, and exactly where it finds a zone; none has the name of the file that says the release, which comes first where the source
/// names one. Each link is to a file that stands before it, so whoever unpacks the archive from
/// its beginning finds what the link is to.
pub fn names_and_links()
    ensures { (source bytes : List ℕ) → tree_of source ≡ Ok bytes → IsTree source bytes }
{}

/// So it is in the archive of a source for ever.
pub fn ever_names_and_links()
    ensures { (source bytes : List ℕ) → IsEverTree source bytes → IsTree source bytes }
{}

/// The archive of a source is that of its table with its release, where the source has no fault.
pub fn same_by_table()
    ensures { (source : List ℕ) (table : Table) → source_fault source ≡ None → IsTableOf table (values_of source)
        → tree_of source ≡ or_cause (tree_by (release_of source) (finds_in_table table)) }
{}
