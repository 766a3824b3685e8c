//! A zone's spans, kept compactly, and whether its changes come again.
ghost use Rattle.std.specs.Prelude.{◌<◌, ◌≤◌, ℤ, length};
ghost use Rattle.zone_spans.specs.Schedules.{instants};
ghost use Rattle.tz_lookup.specs.{Sets.{schedule_of, IsAccepted, IsOrderlyZone}, CompactShown.{seen}};
ghost use Rattle.tz_ever.specs.Recurrences.{RepeatsAs, zone_total};

use crate::recurrence::Recurrence;
use std::alloc::Global;
use tz_lookup::{CompactFault, CompactSet, FixedTimespanSet};

/// How many years, from 1800 on, the spans of a zone of a table that goes on for ever are worked out for.
pub const EVER_YEARS: u16 = 704;

/// 2^58 entries and more are never kept: their times alone would take 2 exbibytes.
const TOO_MANY: usize = 288_230_376_151_711_744;

/// A zone, wherever it comes from: its spans, kept compactly, and whether the changes of the years 2102 to 2501 come again in other
/// cycles of 400 years. [`ZoneTz`](crate::ZoneTz) asks it. Contracts see the set that it was built from, and its recurrence.
#[derive(Debug, Drop)]
pub struct ZoneSet {
    set: CompactSet,
    recurrence: Recurrence,
    ghost repeats: { RepeatsAs recurrence (seen set) },
    ghost accepted: { IsAccepted (schedule_of (seen set)) },
    ghost few: { length (seen set).others < 288230376151711744 },
    ghost two: { IsOrderlyZone (schedule_of (seen set)) → (time : ℤ) → length (instants (zone_total recurrence (seen set)) time) ≤ 2 },
}

impl ZoneSet {
    ghost use Rattle.std.specs.Prelude.{◌≡◌, MatchResult};
    ghost use Rattle.tz_lookup.specs.{Sets.{schedule_of, IsAccepted}, CompactFaults.{IsCompactFault}, CompactShown.{seen}};
    ghost use Rattle.tz_ever.specs.{Recurrences.{RepeatsAs}, ZoneShown.{recurrence_of, zone_set_of}};

    /// A set whose changes come again as that says, kept compactly: where they do, it shows at the seam what it shows a cycle later.
    ///
    /// # Errors
    ///
    /// Those of [`CompactSet::build`]; `NoMemory` also where there are 2^58 entries or more.
    pub fn build(
        alloc: Global,
        set: &FixedTimespanSet,
        recurrence: Recurrence,
    ) -> Result<ZoneSet, CompactFault>
        requires { RepeatsAs recurrence set.now }
        ensures { MatchResult result
            (λ zone. IsAccepted (schedule_of set.now) × (zone_set_of zone ≡ set.now) × (recurrence_of zone ≡ recurrence))
            (IsCompactFault (schedule_of set.now)) }
    {
        match CompactSet::build(alloc, set) {
            Ok(set) => {
                if set.span_count() <= TOO_MANY {
                    Ok(ZoneSet { set, recurrence })
                } else {
                    Err(CompactFault::NoMemory)
                }
            }
            Err(fault) => Err(fault),
        }
    }

    /// The compact set.
    pub fn compact(&self) -> &CompactSet
        ensures seen { seen result.now ≡ zone_set_of self.now }
        ensures accepted { IsAccepted (schedule_of (zone_set_of self.now)) }
    {
        &self.set
    }

    /// Whether the changes come again.
    pub fn recurrence(&self) -> Recurrence
        ensures { result ≡ recurrence_of self.now }
    {
        self.recurrence
    }
}
