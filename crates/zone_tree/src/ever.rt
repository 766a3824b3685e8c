//! The files of zones that go on for ever.
ghost use Rattle.std.specs.{Prelude.{◌≡◌, Err, IfErr, IfOk, IsTrue, Ok, map}, FinMap.{keys}};
ghost use Rattle.tz_ever.specs.{ZoneShown.{zone_set_of}, Opens.{IsFoundForEver}};
ghost use Rattle.zone_tree.specs.{ArchiveEntries.{of_file}, EverTold.{RefusesName, TellsWhy, made_shown}, EverTrees.{AreContents, HasContent, HasFile, file_why, footer_why, zone_why}};
ghost use Rattle.zone_table.specs.BoundedTables.{IsBoundedTable};

use crate::files::{ZoneFiles, is_marked};
use crate::refusal::{NameFault, Why};
use std::alloc::{AllocError, Global};
use tz_ever::{EverFault, ZoneSet};
use tz_lookup::ZoneFault;
use zone_spans::SpanFault;
use zone_table::Table;
use zone_tzif::{EverFileFault, EverTailFault, FileFault, tzif_for_ever};
use zone_tzif_core::WriteFault;

/// What was made of a zone: its file, or why there is none.
#[derive(Drop)]
pub(crate) struct Made<'t> {
    name: &'t str,
    file: Vec<u8>,
    why: Option<Why>,
}

/// The files of all zones of a table.
#[derive(Drop)]
pub(crate) struct EverFiles<'t> {
    made: Vec<Made<'t>>,
}

impl<'t> EverFiles<'t> {
    ghost use Rattle.std.specs.Prelude.{IfOk, map};
    ghost use Rattle.zone_table.specs.BoundedTables.{IsBoundedTable};
    ghost use Rattle.zone_tree.specs.{EverTold.{made_shown}, EverTrees.{AreContents}};

    /// Each zone opened for ever, and its file.
    pub(crate) fn of(alloc: Global, table: &'t Table) -> Result<EverFiles<'t>, AllocError>
        requires { IsBoundedTable table.now }
        ensures { IfOk result (λ files. AreContents table.now (map made_shown files.made.items)) }
    {
        let names = table.zonesets.keys(alloc)?;
        let mut made = Vec::new(alloc);
        for name in names.as_slice() {
            made.push(made_of(alloc, table, *name)?)?;
        }
        Ok(EverFiles { made })
    }
}

impl<'t> ZoneFiles for EverFiles<'t> {
    ghost use Rattle.std.specs.Prelude.{map};
    ghost use Rattle.zone_tree.specs.{EverTold.{made_shown}, EverTrees.{content_in}};

    ghost ready = { λ _. Unit {0} };

    ghost content = { λ files name. content_in (map made_shown files.made.items) name };

    fn file(&self, alloc: Global, name: &str) -> Result<Vec<u8>, NameFault> {
        for made in self.made.as_slice() {
            if name == made.name {
                return made.file_again(alloc);
            }
        }
        Err(NameFault::Refused(Why::Name))
    }
}

impl<'t> Made<'t> {
    ghost use Rattle.std.specs.Prelude.{◌≡◌, IfErr, IfOk, Ok};
    ghost use Rattle.zone_tree.specs.{ArchiveEntries.{of_file}, EverTold.{made_shown}, Told.{IsWhy}};

    /// The file once more.
    fn file_again(&self, alloc: Global) -> Result<Vec<u8>, NameFault>
        ensures ok { IfOk result (λ file. (made_shown self.now).1 ≡ Ok (of_file file.items)) }
        ensures err { IfErr result (IsWhy (made_shown self.now).1) }
    {
        match self.why {
            None => {
                let mut file = Vec::new(alloc);
                file.extend_from_slice(self.file.as_slice())?;
                Ok(file)
            }
            Some(why) => Err(NameFault::Refused(why)),
        }
    }
}

/// What is made of the zone of a name.
fn made_of<'t>(alloc: Global, table: &Table, name: &'t str) -> Result<Made<'t>, AllocError>
    requires { IsBoundedTable table.now }
    ensures named { IfOk result (λ made. (made_shown made).0 ≡ name.now) }
    ensures content { IfOk result (λ made. HasContent table.now name.now (made_shown made).1) }
{
    match file_of(alloc, table, name) {
        Ok(file) => Ok(Made {
            name,
            file,
            why: None,
        }),
        Err(NameFault::Refused(why)) => Ok(Made {
            name,
            file: Vec::new(alloc),
            why: Some(why),
        }),
        Err(NameFault::NoMemory) => Err(AllocError),
    }
}

/// The file of the zone that a name finds, for ever.
fn file_of(alloc: Global, table: &Table, name: &str) -> Result<Vec<u8>, NameFault>
    requires { IsBoundedTable table.now }
    ensures ok { IfOk result (λ file. HasFile table.now name.now file.items) }
    ensures err { IfErr result (RefusesName table.now name.now) }
{
    match ZoneSet::open(alloc, table, name) {
        Ok(set) => file_of_set(alloc, table, name, &set),
        Err(fault) => Err(unopened(fault)),
    }
}

/// The file of the set of a name's zone.
fn file_of_set(
    alloc: Global,
    table: &Table,
    name: &str,
    set: &ZoneSet,
) -> Result<Vec<u8>, NameFault>
    requires { IsFoundForEver table.now name.now (zone_set_of set.now) }
    ensures ok { IfOk result (λ file. HasFile table.now name.now file.items) }
    ensures err { IfErr result (RefusesName table.now name.now) }
{
    let _ = table;
    let _ = name;
    if is_marked(set.compact()) {
        return Err(NameFault::Refused(Why::Format));
    }
    match tzif_for_ever(alloc, set) {
        Ok(file) => Ok(file),
        Err(fault) => Err(unwritten(fault)),
    }
}

/// Why a zone is not opened.
fn unopened(fault: EverFault) -> NameFault
    ensures { TellsWhy (zone_why fault) result }
{
    match fault {
        EverFault::Zone(ZoneFault::UnknownZone) => NameFault::Refused(Why::Name),
        EverFault::Zone(ZoneFault::Schedule(fault)) => NameFault::Refused(Why::Schedule(fault)),
        EverFault::Zone(ZoneFault::OffsetRange) => NameFault::Refused(Why::OffsetRange),
        EverFault::Zone(ZoneFault::NoMemory) => NameFault::NoMemory,
        EverFault::LaterDay => NameFault::Refused(Why::Schedule(SpanFault::DayRange)),
        EverFault::RulesEnd => NameFault::Refused(Why::RulesEnd),
        EverFault::LaterOffset => NameFault::Refused(Why::OffsetRange),
    }
}

/// Why its file is not written.
fn unwritten(fault: EverFileFault) -> NameFault
    ensures { TellsWhy (file_why fault) result }
{
    match fault {
        EverFileFault::Footer(cause) => no_footer(cause),
        EverFileFault::File(FileFault::Times) => NameFault::Refused(Why::File(WriteFault::Times)),
        EverFileFault::File(FileFault::Types) => NameFault::Refused(Why::File(WriteFault::Types)),
        EverFileFault::File(FileFault::Names) => NameFault::Refused(Why::File(WriteFault::Names)),
        EverFileFault::File(FileFault::NoMemory) => NameFault::NoMemory,
    }
}

/// Why no footer carries it on.
fn no_footer(cause: EverTailFault) -> NameFault
    ensures { TellsWhy (footer_why cause) result }
{
    match cause {
        EverTailFault::NoMemory => NameFault::NoMemory,
        EverTailFault::Saving
        | EverTailFault::Shape
        | EverTailFault::OffsetRange
        | EverTailFault::Name
        | EverTailFault::NoRule => NameFault::Refused(Why::String(cause)),
    }
}
