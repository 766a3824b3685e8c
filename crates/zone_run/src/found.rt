//! Zones as programs ask them.
ghost use Rattle.std.specs.Prelude.{◌≡◌, IfErr, IfOk, Ok};
ghost use Rattle.zone_table.specs.BoundedTables.{IsBoundedTable};
ghost use Rattle.tz_lookup.specs.{Compiles.{spans_of}, Sets.{IsAccepted, schedule_of}, declared.set.FixedTimespanSet.{FixedTimespanSet}};
ghost use Rattle.zone_run.specs.{Readings.{Reading, Spans, found_in_table}, Responses.{TellsCause}};

use std::alloc::Global;
use tz_lookup::{FixedTimespanSet, ZoneFault, compile_zone};
use zone_table::Table;

/// Why a name finds no zone to ask.
#[derive(Clone, Copy, Debug, PartialEq, Eq)]
pub enum FindFault {
    /// No zone, no schedule, an offset of 26 hours or more, or no memory.
    Zone(ZoneFault),
    /// What the zone's rules do ends, where it is to go on for ever.
    RulesEnd,
}

/// A zone that is read from a table in some way, and then asked.
pub trait FoundZone: Drop {
    /// How the lines of a zone are read: the spans that speak for it, or why it can't be asked.
    ghost read: { Reading Spans };

    /// These spans, under the name that found them.
    ghost seen: { Self → FixedTimespanSet };

    /// The zone that a name finds in a table, which is bounded. Its spans can be looked up.
    ///
    /// # Errors
    ///
    /// Why the zone can't be asked, or want of memory.
    fn find(alloc: Global, table: &Table, name: &str) -> Result<Self, FindFault>
        requires { IsBoundedTable table.now }
        ensures spans { IfOk result (λ zone. found_in_table read table.now name.now ≡ Ok (spans_of (seen zone))) }
        ensures name { IfOk result (λ zone. (seen zone).name ≡ name.now) }
        ensures accepted { IfOk result (λ zone. IsAccepted (schedule_of (seen zone))) }
        ensures err { IfErr result (TellsCause (found_in_table read table.now name.now)) };
}

impl FoundZone for FixedTimespanSet {
    ghost use Rattle.zone_run.specs.Readings.{to_2099};

    ghost read = { to_2099 };

    ghost seen = { λ set. set };

    fn find(alloc: Global, table: &Table, name: &str) -> Result<FixedTimespanSet, FindFault> {
        match compile_zone(alloc, table, name) {
            Ok(set) => Ok(set),
            Err(fault) => Err(FindFault::Zone(fault)),
        }
    }
}
