//! The files of zones.
ghost use Rattle.std.specs.Prelude.{◌≡◌, ℕ, List, Result, Ok, IfOk, IfErr};
ghost use Rattle.tz_lookup.specs.{Compiles.{compiled_in}, Sets.{schedule_of, IsAccepted}};
ghost use Rattle.zone_tree.specs.{ArchiveEntries.{Content, of_file}, Contents.{has_mark, is_marked, file_or, file_unless, zone_content}, Told.{IsWhy}, declared.refusal.Why.{Why as WhyNot}};
ghost use Rattle.zone_table.specs.BoundedTables.{IsBoundedTable};
ghost use Rattle.zone_tzif.specs.Files.{consistent_fault};

use crate::refusal::{NameFault, Why};
use std::alloc::Global;
use tz_lookup::{FixedTimespanSet, SpanTable, ZoneFault, compile_zone};
use zone_table::Table;
use zone_tzif::{FileFault, consistent_tzif_of};
use zone_tzif_core::WriteFault;

/// How the zones of a table get their files.
pub(crate) trait ZoneFiles {
    /// What is asked of it.
    ghost ready: { Self → Type 0 };

    /// What the zone of a name has in an archive.
    ghost content: { Self → List ℕ → Result Content WhyNot };

    /// The file of a zone.
    fn file(&self, alloc: Global, name: &str) -> Result<Vec<u8>, NameFault>
        requires { ready self.now }
        ensures ok { IfOk result (λ file. content self.now name.now ≡ Ok (of_file file.items)) }
        ensures err { IfErr result (IsWhy (content self.now name.now)) };
}

/// The consistent files of the zones of a table, each compiled to the end of 2099.
#[derive(Clone, Copy, Drop)]
pub(crate) struct FilesTo2099<'t> {
    pub(crate) table: &'t Table,
}

impl<'t> ZoneFiles for FilesTo2099<'t> {
    ghost use Rattle.tz_lookup.specs.Compiles.{compiled_in};
    ghost use Rattle.zone_table.specs.BoundedTables.{IsBoundedTable};
    ghost use Rattle.zone_tree.specs.Contents.{zone_content};

    ghost ready = { λ files. IsBoundedTable files.table.now };

    ghost content = { λ files name. zone_content name (compiled_in files.table.now name) };

    fn file(&self, alloc: Global, name: &str) -> Result<Vec<u8>, NameFault> {
        file_of(alloc, self.table, name)
    }
}

/// Whether a `%` is left in a text.
fn has_mark(text: &str) -> bool
    ensures { result ≡ has_mark text.now }
{
    text.as_bytes().contains(&b'%')
}

/// Whether a `%` is left in the abbreviation of some span.
#[tactic(auto, unfolding(crate::specs::Contents::is_marked))]
pub(crate) fn is_marked<S: SpanTable>(set: &S) -> bool
    ensures { result ≡ is_marked (S.seen set.now) }
{
    for number in 0..set.entry_count() {
        if has_mark(set.span(number + 1).name.as_str()) {
            return true;
        }
    }
    has_mark(set.span(0).name.as_str())
}

/// The file of a set that has no `%` in an abbreviation.
fn file_of_unmarked(alloc: Global, set: &FixedTimespanSet) -> Result<Vec<u8>, NameFault>
    requires { IsAccepted (schedule_of set.now) }
    ensures ok { IfOk result (λ file. file_or (consistent_fault set.now) set.now ≡ Ok (of_file file.items)) }
    ensures err { IfErr result (IsWhy (file_or (consistent_fault set.now) set.now)) }
{
    match consistent_tzif_of(alloc, set) {
        Ok(file) => Ok(file),
        Err(FileFault::Times) => Err(NameFault::Refused(Why::File(WriteFault::Times))),
        Err(FileFault::Types) => Err(NameFault::Refused(Why::File(WriteFault::Types))),
        Err(FileFault::Names) => Err(NameFault::Refused(Why::File(WriteFault::Names))),
        Err(FileFault::NoMemory) => Err(NameFault::NoMemory),
    }
}

/// The file of a set.
fn file_of_set(alloc: Global, set: &FixedTimespanSet) -> Result<Vec<u8>, NameFault>
    requires { IsAccepted (schedule_of set.now) }
    ensures ok { IfOk result (λ file. file_unless (is_marked set.now) set.now ≡ Ok (of_file file.items)) }
    ensures err { IfErr result (IsWhy (file_unless (is_marked set.now) set.now)) }
{
    if is_marked(set) {
        Err(NameFault::Refused(Why::Format))
    } else {
        file_of_unmarked(alloc, set)
    }
}

/// The file of the zone that a name finds, to the end of 2099.
fn file_of(alloc: Global, table: &Table, name: &str) -> Result<Vec<u8>, NameFault>
    requires { IsBoundedTable table.now }
    ensures ok { IfOk result (λ file. zone_content name.now (compiled_in table.now name.now) ≡ Ok (of_file file.items)) }
    ensures err { IfErr result (IsWhy (zone_content name.now (compiled_in table.now name.now))) }
{
    match compile_zone(alloc, table, name) {
        Ok(set) => file_of_set(alloc, &set),
        Err(ZoneFault::UnknownZone) => Err(NameFault::Refused(Why::Name)),
        Err(ZoneFault::Schedule(fault)) => Err(NameFault::Refused(Why::Schedule(fault))),
        Err(ZoneFault::OffsetRange) => Err(NameFault::Refused(Why::OffsetRange)),
        Err(ZoneFault::NoMemory) => Err(NameFault::NoMemory),
    }
}
