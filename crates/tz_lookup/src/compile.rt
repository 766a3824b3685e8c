//! A zone compiled under a name.
ghost use Rattle.std.specs.Prelude.{◌≡◌, ◌≤◌, IfOk, IfErr, Some, Ok};
ghost use Rattle.zone_spans.specs.Years.{years_limit};
ghost use Rattle.zone_table.specs.BoundedTables.{IsBoundedTable};
ghost use Rattle.tz_lookup.specs.{Compiles.{compiled_in, compiled_in_over, IsCompiledAs, IsZoneFault}, Sets.{schedule_of, IsAccepted}};

use crate::set::{FixedTimespanSet, has_offsets};
use std::alloc::{AllocError, Global};
use zone_spans::{MOST_YEARS, SpanFault, TableTransitions};
use zone_table::Table;

/// Why a name has no set of spans that can be looked up.
#[derive(Clone, Copy, Debug, PartialEq, Eq)]
pub enum ZoneFault {
    /// The table has no zone of that name, and no link of it to one.
    UnknownZone,
    /// The zone has no schedule; never for want of memory.
    Schedule(SpanFault),
    /// Some span of the zone has an offset of 26 hours or more in size.
    OffsetRange,
    /// Memory ran out.
    NoMemory,
}

impl From<AllocError> for ZoneFault {
    ghost use Rattle.std.specs.Prelude.{◌≡◌};
    ghost use Rattle.tz_lookup.specs.declared.compile.ZoneFault.TheVariants.{NoMemory};

    ghost from_gives = { λ _ fault. fault ≡ NoMemory };

    fn from(_: AllocError) -> ZoneFault {
        ZoneFault::NoMemory
    }
}

/// The spans of the zone that a name finds in a table, under that name, which can be looked up. The table is bounded.
///
/// # Errors
///
/// In this order: `UnknownZone` exactly where the name finds no zone; `Schedule` with the zone's first fault;
/// `OffsetRange` exactly where some span's offset and saving add up to 26 hours or more in size.
pub fn compile_zone(alloc: Global, table: &Table, name: &str) -> Result<FixedTimespanSet, ZoneFault>
    requires { IsBoundedTable table.now }
    ensures ok { IfOk result (λ set. (set.name ≡ name.now) × IsCompiledAs set (compiled_in table.now name.now)) }
    ensures accepted { IfOk result (λ set. IsAccepted (schedule_of set)) }
    ensures err { IfErr result (IsZoneFault (compiled_in table.now name.now)) }
{
    compile_zone_over(alloc, table, name, MOST_YEARS)
}

/// As [`compile_zone`], over so many years from 1800 on, 1,000 at most.
///
/// # Errors
///
/// As of `compile_zone`, over these years.
pub fn compile_zone_over(
    alloc: Global,
    table: &Table,
    name: &str,
    years: u16,
) -> Result<FixedTimespanSet, ZoneFault>
    requires table { IsBoundedTable table.now }
    requires years { years ≤ years_limit }
    ensures ok { IfOk result (λ set. (set.name ≡ name.now) × IsCompiledAs set (compiled_in_over years table.now name.now)) }
    ensures accepted { IfOk result (λ set. IsAccepted (schedule_of set)) }
    ensures err { IfErr result (IsZoneFault (compiled_in_over years table.now name.now)) }
{
    let compiled = match table.timespans_over(alloc, name, years) {
        Ok(Some(compiled)) => compiled,
        Ok(None) => return Err(ZoneFault::UnknownZone),
        Err(SpanFault::NoMemory) => return Err(ZoneFault::NoMemory),
        Err(fault) => return Err(ZoneFault::Schedule(fault)),
    };
    let set = FixedTimespanSet::from_compiled(String::from_str(alloc, name)?, compiled);
    if has_offsets(&set) {
        Ok(set)
    } else {
        Err(ZoneFault::OffsetRange)
    }
}
