//! A zone of a table, opened to 2099 or for ever.
ghost use Rattle.std.specs.Prelude.{◌≡◌, IfErr, IfOk};
ghost use Rattle.tz_lookup.specs.{Sets.{IsAccepted, schedule_of}, declared.compile.ZoneFault.TheVariants.{NoMemory}};
ghost use Rattle.tz_ever.specs.{Opens.{DoesNotGoOn, IsEverFault, IsFoundForEver, IsGoing, IsLater, ending_by, fault_later, IsZoneToday}, declared.open.EverFault.TheVariants.{Zone}};
ghost use Rattle.tz_lookup.specs.declared.compact_set.CompactFault.TheVariants as compact_fault;
ghost use Rattle.zone_spans.specs.declared.fault.SpanFault.TheVariants as span_fault;
ghost use Rattle.zone_table.specs.BoundedTables.{IsBoundedTable};

use crate::cycle::for_ever;
use crate::laws;
use crate::recurrence::Recurrence;
use crate::zone_set::{EVER_YEARS, ZoneSet};
use std::alloc::Global;
use tz_lookup::{CompactFault, FixedTimespanSet, ZoneFault, compile_zone, compile_zone_over};
use zone_spans::{SpanFault, TableTransitions};
use zone_table::Table;

/// Why a name has no zone for ever.
#[derive(Clone, Copy, Debug, PartialEq, Eq)]
pub enum EverFault {
    /// As of [`compile_zone`]: no zone, no schedule, an offset of 26 hours or more before 2100, or no memory.
    Zone(ZoneFault),
    /// The zone doesn't go on, since a day of its lines lies in another year than its own in one of the years 2100 to 2503.
    LaterDay,
    /// The zone doesn't go on: its last line has an end, another line or a rule of the last one begins or ends after 2099, or what the
    /// rules do doesn't come again after 400 years.
    RulesEnd,
    /// Some span from 2100 on has an offset of 26 hours or more in size, and none before it.
    LaterOffset,
}

impl ZoneSet {
    ghost use Rattle.std.specs.Prelude.{◌≡◌, IfErr, IfOk};
    ghost use Rattle.zone_table.specs.BoundedTables.{IsBoundedTable};
    ghost use Rattle.tz_lookup.specs.Compiles.{IsCompiledAs, IsZoneFault, compiled_in};
    ghost use Rattle.tz_ever.specs.{ZoneShown.{recurrence_of, zone_set_of}, Opens.{IsEverFault, IsFoundForEver, IsZoneToday}, declared.recurrence.Recurrence.TheVariants.{Later, Never}};

    /// The zone that a name finds in a table, with its rules up to the end of 2099. The table is bounded.
    ///
    /// # Errors
    ///
    /// Those of [`compile_zone`].
    pub fn open_to_2099(alloc: Global, table: &Table, name: &str) -> Result<ZoneSet, ZoneFault>
        requires { IsBoundedTable table.now }
        ensures ok { IfOk result (λ zone. IsCompiledAs (zone_set_of zone) (compiled_in table.now name.now)) }
        ensures named { IfOk result (λ zone. (zone_set_of zone).name ≡ name.now) }
        ensures ends { IfOk result (λ zone. recurrence_of zone ≡ Never) }
        ensures err { IfErr result (IsZoneFault (compiled_in table.now name.now)) }
    {
        let set = compile_zone(alloc, table, name)?;
        match ZoneSet::build(alloc, &set, Recurrence::Never) {
            Ok(zone) => Ok(zone),
            Err(fault) => Err(no_space(fault)),
        }
    }

    /// The zone that a name finds in a table, for ever: what its lines show at any instant, expanded over as many years as the
    /// instant asks for. The table is bounded. The cost is that of expanding the lines over some 2,400 years.
    ///
    /// # Errors
    ///
    /// In this order: those of [`compile_zone`]; `LaterDay` and `RulesEnd` exactly where the zone doesn't go on, for a day of 2100 to 2503
    /// or without one; `LaterOffset` exactly where some span of the years from 2100 on has an offset of 26 hours or more in size.
    pub fn open(alloc: Global, table: &Table, name: &str) -> Result<ZoneSet, EverFault>
        requires { IsBoundedTable table.now }
        ensures ok { IfOk result (λ zone. IsFoundForEver table.now name.now (zone_set_of zone)) }
        ensures goes { IfOk result (λ zone. recurrence_of zone ≡ Later) }
        ensures err { IfErr result (IsEverFault table.now name.now) }
    {
        test_today(alloc, table, name)?;
        match ZoneSet::carry_on(alloc, table, name) {
            Ok(zone) => Ok(zone),
            Err(fault) => Err(fault),
        }
    }

    /// The same of a name whose zone has a schedule today, as [`is_today`](crate::laws::is_today) says of one that was compiled: so that
    /// whoever needs both compiles it once.
    ///
    /// # Errors
    ///
    /// As [`ZoneSet::open`], but of [`compile_zone`]'s want of memory alone.
    pub fn carry_on(alloc: Global, table: &Table, name: &str) -> Result<ZoneSet, EverFault>
        requires table { IsBoundedTable table.now }
        requires today { IsZoneToday table.now name.now }
        ensures ok { IfOk result (λ zone. IsFoundForEver table.now name.now (zone_set_of zone)) }
        ensures goes { IfOk result (λ zone. recurrence_of zone ≡ Later) }
        ensures err { IfErr result (IsEverFault table.now name.now) }
    {
        test_going(alloc, table, name)?;
        let set = later_set(alloc, table, name)?;
        laws::repeats_at_the_seam();
        match ZoneSet::build(alloc, &set, Recurrence::Later) {
            Ok(zone) => Ok(zone),
            Err(fault) => Err(no_room(fault)),
        }
    }
}

/// Whether the zone has a schedule today.
fn test_today(alloc: Global, table: &Table, name: &str) -> Result<(), EverFault>
    requires { IsBoundedTable table.now }
    ensures ok { IfOk result (λ _. IsZoneToday table.now name.now) }
    ensures err { IfErr result (IsEverFault table.now name.now) }
{
    let today = match compile_zone(alloc, table, name) {
        Ok(today) => today,
        Err(fault) => return Err(EverFault::Zone(fault)),
    };
    drop(today);
    Ok(())
}

/// Whether such a zone goes on.
fn test_going(alloc: Global, table: &Table, name: &str) -> Result<(), EverFault>
    requires table { IsBoundedTable table.now }
    requires today { IsZoneToday table.now name.now }
    ensures ok { IfOk result (λ _. IsGoing table.now name.now) }
    ensures err { IfErr result (IsEverFault table.now name.now) }
{
    match table.goes_on(alloc, name) {
        Ok(Some(true)) => Ok(()),
        Ok(Some(false)) => Err(ending(alloc, table, name)),
        Ok(None) => unreachable!(),
        Err(fault) => Err(no_memory(fault)),
    }
}

/// Why a zone doesn't go on.
fn ending(alloc: Global, table: &Table, name: &str) -> EverFault
    requires table { IsBoundedTable table.now }
    requires ends { DoesNotGoOn table.now name.now }
    ensures { IsEverFault table.now name.now result }
{
    match compile_zone_over(alloc, table, name, EVER_YEARS) {
        Ok(later) => {
            drop(later);
            EverFault::RulesEnd
        }
        Err(ZoneFault::UnknownZone) => EverFault::RulesEnd,
        Err(ZoneFault::Schedule(fault)) => ending_by(fault),
        Err(ZoneFault::OffsetRange) => EverFault::RulesEnd,
        Err(ZoneFault::NoMemory) => EverFault::Zone(ZoneFault::NoMemory),
    }
}

fn ending_by(fault: SpanFault) -> EverFault
    ensures { result ≡ ending_by fault }
{
    match fault {
        SpanFault::DayRange => EverFault::LaterDay,
        _ => EverFault::RulesEnd,
    }
}

fn no_memory(fault: SpanFault) -> EverFault
    requires { fault ≡ span_fault.NoMemory }
    ensures { result ≡ Zone NoMemory }
{
    let _ = fault;
    EverFault::Zone(ZoneFault::NoMemory)
}

/// The spans over 704 years of a zone that goes on.
fn later_set(alloc: Global, table: &Table, name: &str) -> Result<FixedTimespanSet, EverFault>
    requires table { IsBoundedTable table.now }
    requires going { IsGoing table.now name.now }
    ensures ok { IfOk result (IsFoundForEver table.now name.now) }
    ensures accepted { IfOk result (λ set. IsAccepted (schedule_of set)) }
    ensures err { IfErr result (IsEverFault table.now name.now) }
{
    for_ever::before_2100();
    for_ever::as_before();
    for_ever::shows_over_enough_years();
    laws::shows_for_ever();
    match compile_zone_over(alloc, table, name, EVER_YEARS) {
        Ok(set) => Ok(set),
        Err(fault) => Err(later_fault(fault)),
    }
}

/// What a fault of the later years is.
fn later_fault(fault: ZoneFault) -> EverFault
    requires { IsLater fault }
    ensures { result ≡ fault_later fault }
{
    match fault {
        ZoneFault::OffsetRange => EverFault::LaterOffset,
        ZoneFault::NoMemory => EverFault::Zone(ZoneFault::NoMemory),
        ZoneFault::UnknownZone => unreachable!(),
        ZoneFault::Schedule(_) => unreachable!(),
    }
}

fn no_space(fault: CompactFault) -> ZoneFault
    requires { fault ≡ compact_fault.NoMemory }
    ensures { result ≡ NoMemory }
{
    let _ = fault;
    ZoneFault::NoMemory
}

fn no_room(fault: CompactFault) -> EverFault
    requires { fault ≡ compact_fault.NoMemory }
    ensures { result ≡ Zone NoMemory }
{
    let _ = fault;
    EverFault::Zone(ZoneFault::NoMemory)
}
