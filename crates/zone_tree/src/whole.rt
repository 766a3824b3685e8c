//! The archive of a source.
ghost use Rattle.std.specs.{Prelude.{◌≡◌, ◌≤◌, length, map as each, Ok, Some, IfOk, IfErr, OnOk}, FinMap.{keys}, Option.{option_copied}};
ghost use Rattle.tz_lookup.specs.Databases.{name_shown};
ghost use Rattle.zone_table.specs.BoundedTables.{IsBoundedTable};
ghost use Rattle.zone_tree.specs.{Entries.{entry_of}, Names.{finds_by_table, finds_in_table}, EverTold.{IsEverFaultOf, IsFirstEver}, EverTrees.{IsEverTree, OfTree}, Told.{ArePut, IsFirst, IsFaultOf}, Trees.{entries_of, first_entries, tree_by, tree_of}};

use crate::archive::put_end;
use crate::entry::{VERSION_NAME, put_name, put_release};
use crate::ever::EverFiles;
use crate::files::{FilesTo2099, ZoneFiles};
use crate::names::{Names, archive_names};
use crate::refusal::{NameFault, TreeFault};
use basics::Text;
use std::alloc::Global;
use zone_line::LineParser;
use zone_source::{LIMIT, read_table, release_of};
use zone_table::Table;

/// Puts the file of a release at the end.
fn put_named(alloc: Global, release: &str, into: &mut Vec<u8>) -> Result<(), TreeFault>
    ensures ok { OnOk result (ArePut into.old.items into.new.items (first_entries (Some release.now))) }
    ensures err { IfErr result (IsFirst (first_entries (Some release.now))) }
{
    match put_release(alloc, release, into) {
        Ok(()) => Ok(()),
        Err(NameFault::Refused(why)) => {
            Err(TreeFault::Refused(Text::new(alloc, VERSION_NAME)?, why))
        }
        Err(NameFault::NoMemory) => Err(TreeFault::NoMemory),
    }
}

/// Puts what comes first at the end: the file of the release, if there is one.
fn put_first(alloc: Global, release: Option<&str>, into: &mut Vec<u8>) -> Result<(), TreeFault>
    ensures ok { OnOk result (ArePut into.old.items into.new.items (first_entries (option_copied release.entry))) }
    ensures err { IfErr result (IsFirst (first_entries (option_copied release.entry))) }
{
    match release {
        Some(release) => put_named(alloc, release, into),
        None => Ok(()),
    }
}

/// Puts the entries of some names at the end, in their order.
fn put_names<F: ZoneFiles>(
    alloc: Global,
    table: &Table,
    files: &F,
    names: &Names<'_>,
    ordered: &[&str],
    into: &mut Vec<u8>,
) -> Result<(), TreeFault>
    requires ready { F.ready files.now }
    requires zones { each name_shown names.now.zones.now ≡ keys table.now.zonesets }
    requires links { each name_shown names.now.links.now ≡ keys table.now.links }
    ensures ok { OnOk result (ArePut into.old.items into.new.items
        (entries_of (entry_of (finds_by_table table.now (F.content files.now))) (each name_shown ordered.now))) }
    ensures err { IfErr result (IsFirst (entries_of (entry_of (finds_by_table table.now (F.content files.now))) (each name_shown ordered.now))) }
{
    for name in ordered {
        match put_name(alloc, table, files, names, name, into) {
            Ok(()) => {}
            Err(NameFault::Refused(why)) => {
                return Err(TreeFault::Refused(Text::new(alloc, name)?, why));
            }
            Err(NameFault::NoMemory) => return Err(TreeFault::NoMemory),
        }
    }
    Ok(())
}

/// Every zone of a table, with such files, and every link, in a tar archive.
#[tactic(auto, unfolding(crate::specs::Trees::tree_by))]
pub(crate) fn tree_with<F: ZoneFiles>(
    alloc: Global,
    release: Option<&str>,
    table: &Table,
    files: &F,
) -> Result<Vec<u8>, TreeFault>
    requires { F.ready files.now }
    ensures ok { IfOk result (λ bytes. tree_by (option_copied release.entry) (finds_by_table table.now (F.content files.now)) ≡ Ok bytes.items) }
    ensures err { IfErr result (IsFirst (tree_by (option_copied release.entry) (finds_by_table table.now (F.content files.now)))) }
{
    let zones = table.zonesets.keys(alloc)?;
    let links = table.links.keys(alloc)?;
    let names = Names {
        zones: zones.as_slice(),
        links: links.as_slice(),
    };
    let ordered = archive_names(alloc, table, &names)?;
    let mut bytes = Vec::new(alloc);
    match put_first(alloc, release, &mut bytes) {
        Ok(()) => {}
        Err(fault) => return Err(fault),
    }
    match put_names(alloc, table, files, &names, ordered.as_slice(), &mut bytes) {
        Ok(()) => {}
        Err(fault) => return Err(fault),
    }
    put_end(&mut bytes)?;
    Ok(bytes)
}

/// Every zone of a table, and every link, in a tar archive, as [`tree`] has those of a source, with a release if there is one. A table
/// that `read_table` gives is bounded.
///
/// # Errors
///
/// `Refused` has the first name in the archive's order that has no entry, and why; `NoMemory`. `Source` never comes.
pub fn tree_of_table(
    alloc: Global,
    release: Option<&str>,
    table: &Table,
) -> Result<Vec<u8>, TreeFault>
    requires { IsBoundedTable table.now }
    ensures ok { IfOk result (λ bytes. tree_by (option_copied release.entry) (finds_in_table table.now) ≡ Ok bytes.items) }
    ensures err { IfErr result (IsFirst (tree_by (option_copied release.entry) (finds_in_table table.now))) }
{
    tree_with(alloc, release, table, &FilesTo2099 { table })
}

/// Every zone of a source, and every link, in a tar archive in the ustar format of POSIX: first, where the source names its release, a
/// file `+VERSION` with that in a line; then the zones in byte order of their names, each as a file with the bytes of its TZif file, and
/// then the links, in byte order, each a hard link to its zone's name. Mode 0644, owner 0, time 0. The source is at most 16,777,216 bytes long.
///
/// # Errors
///
/// `Source` has the first fault of the source; `Refused` the first name in the archive's order that has no entry, and why. Want
/// of memory is `NoMemory`, or the `NoMemory` of `Source`.
pub fn tree(alloc: Global, parser: &LineParser, source: &[u8]) -> Result<Vec<u8>, TreeFault>
    requires { length source.now ≤ LIMIT }
    ensures ok { IfOk result (λ bytes. tree_of source.now ≡ Ok bytes.items) }
    ensures err { IfErr result (IsFaultOf (tree_of source.now)) }
{
    let table = match read_table(alloc, parser, source) {
        Ok(table) => table,
        Err(error) => return Err(TreeFault::Source(error)),
    };
    let bytes = match tree_of_table(alloc, release_of(source), &table) {
        Ok(bytes) => bytes,
        Err(fault) => return Err(fault),
    };
    Ok(bytes)
}

/// As [`tree_of_table`], where each zone goes on for ever: its file is that of [`tzif_for_ever`](zone_tzif::tzif_for_ever).
///
/// # Errors
///
/// `Refused` has the first name in the archive's order that has no entry, and why; `NoMemory`. `Source` never comes.
pub fn tree_of_table_for_ever(
    alloc: Global,
    release: Option<&str>,
    table: &Table,
) -> Result<Vec<u8>, TreeFault>
    requires { IsBoundedTable table.now }
    ensures ok { IfOk result (λ bytes. OfTree (option_copied release.entry) table.now (λ tree. tree ≡ Ok bytes.items)) }
    ensures err { IfErr result (IsFirstEver (option_copied release.entry) table.now) }
{
    let files = EverFiles::of(alloc, table)?;
    match tree_with(alloc, release, table, &files) {
        Ok(bytes) => Ok(bytes),
        Err(fault) => Err(fault),
    }
}

/// As [`tree`], where each zone goes on for ever.
///
/// # Errors
///
/// Those of [`tree`].
pub fn tree_for_ever(
    alloc: Global,
    parser: &LineParser,
    source: &[u8],
) -> Result<Vec<u8>, TreeFault>
    requires { length source.now ≤ LIMIT }
    ensures ok { IfOk result (λ bytes. IsEverTree source.now bytes.items) }
    ensures err { IfErr result (IsEverFaultOf source.now) }
{
    let table = match read_table(alloc, parser, source) {
        Ok(table) => table,
        Err(error) => return Err(TreeFault::Source(error)),
    };
    let bytes = match tree_of_table_for_ever(alloc, release_of(source), &table) {
        Ok(bytes) => bytes,
        Err(fault) => return Err(fault),
    };
    Ok(bytes)
}
