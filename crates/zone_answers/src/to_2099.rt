//! Zones whose schedule ends with the year 2099.
ghost use Rattle.std.specs.Prelude.{◌≡◌, IfErr, IfOk};
ghost use Rattle.zone_table.specs.BoundedTables.{IsBoundedTable};
ghost use Rattle.tz_lookup.specs.{CompactShown.{seen}, Compiles.{compiled_in, IsCompiledAs, IsZoneFault}, Sets.{schedule_of, IsAccepted}};

use crate::error::{AnswerError, ReadingError};
use crate::opened::OpenedZone;
use crate::request::Request;
use crate::showing::{show, show_spelled};
use std::alloc::{AllocError, Global};
use tz_lookup::{
    CompactFault, CompactSet, CompactTz, FixedTimespanSet, Stretch, ZoneFault, compile_zone,
    stretch_of,
};
use zone_table::Table;

/// The spans of the zone that a name finds in a table, under that name. They can be looked up. The table is bounded.
///
/// # Errors
///
/// In this order: `UnknownZone` exactly where the name finds no zone; `Schedule` with the zone's first fault, which is
/// never want of memory; `OffsetRange` exactly where some span has an offset of 26 hours or more; `NoMemory`.
pub fn open_zone(alloc: Global, table: &Table, name: &str) -> Result<FixedTimespanSet, ZoneFault>
    requires { IsBoundedTable table.now }
    ensures ok { IfOk result (λ set. (set.name ≡ name.now) × IsCompiledAs set (compiled_in table.now name.now)) }
    ensures accepted { IfOk result (λ set. IsAccepted (schedule_of set)) }
    ensures err { IfErr result (IsZoneFault (compiled_in table.now name.now)) }
{
    compile_zone(alloc, table, name)
}

/// The compact form of a set that can be looked up.
fn compact(alloc: Global, set: &FixedTimespanSet) -> Result<CompactSet, AllocError>
    requires { IsAccepted (schedule_of set.now) }
    ensures { IfOk result (λ compact. seen compact ≡ set.now) }
{
    match CompactSet::build(alloc, set) {
        Ok(compact) => Ok(compact),
        Err(CompactFault::NoMemory) => Err(AllocError),
        Err(CompactFault::OffsetRange | CompactFault::Falling | CompactFault::Bound) =>
            unreachable!(),
    }
}

impl OpenedZone for CompactSet {
    ghost use Rattle.tz_lookup.specs.{CompactShown.{seen}, Sets.{schedule_of}, Stretches.{stretch_begin, stretch_end}};
    ghost use Rattle.zone_answers.specs.Found.{to_2099};
    ghost use Rattle.zone_spans.specs.Schedules.{total_at};

    ghost read = { to_2099 };

    ghost total_at = { λ set. total_at (schedule_of (seen set)) };

    ghost begins_at = { λ set. stretch_begin (schedule_of (seen set)) };

    ghost ends_at = { λ set. stretch_end (schedule_of (seen set)) };

    fn open(
        alloc: Global,
        table: &Table,
        name: &str,
        number: usize,
    ) -> Result<CompactSet, ReadingError> {
        match open_zone(alloc, table, name) {
            Ok(set) => Ok(compact(alloc, &set)?),
            Err(fault) => Err(ReadingError::Answer(AnswerError::of_zone(number, fault))),
        }
    }

    fn stretch_at(&self, second: i64) -> Stretch {
        stretch_of(self, second)
    }

    fn show(&self, request: &Request<'_>, text: &mut Vec<u8>) -> Result<bool, AllocError> {
        show(&CompactTz::new(self), request, text)
    }

    fn show_spelled(
        &self,
        request: &Request<'_>,
        spelled: &[u8],
        text: &mut Vec<u8>,
    ) -> Result<bool, AllocError> {
        show_spelled(&CompactTz::new(self), request, spelled, text)
    }
}
