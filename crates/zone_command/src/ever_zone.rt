//! Zones that go on for ever, as the answerer opens them.
ghost use Rattle.std.specs.Prelude.{◌≡◌};
ghost use Rattle.tz_ever.specs.{ZoneShown.{recurrence_of}, declared.recurrence.Recurrence.TheVariants.{Later}};
ghost use Rattle.zone_command.specs.EverRefused.{Refuses, find_fault};

use std::alloc::{AllocError, Global};
use tz_ever::{EverFault, ZoneSet, ZoneTz, laws, zone_stretch};
use tz_lookup::{Stretch, ZoneFault};
use zone_answers::{AnswerError, OpenedZone, ReadingError, Request, show, show_spelled};
use zone_run::FindFault;
use zone_spans::SpanFault;
use zone_table::Table;

/// A zone that goes on for ever, kept compactly.
#[derive(Drop)]
pub(crate) struct EverZone {
    set: ZoneSet,
    ghost goes: { recurrence_of set ≡ Later },
}

impl OpenedZone for EverZone {
    ghost use Rattle.tz_ever.specs.{Recurrences.{zone_total}, Stretches.{zone_begin, zone_end}, ZoneShown.{recurrence_of, zone_set_of}};
    ghost use Rattle.zone_command.specs.EverReadings.{for_ever};

    ghost read = { for_ever };

    ghost total_at = { λ zone. zone_total (recurrence_of zone.set) (zone_set_of zone.set) };

    ghost begins_at = { λ zone. zone_begin (recurrence_of zone.set) (zone_set_of zone.set) };

    ghost ends_at = { λ zone. zone_end (recurrence_of zone.set) (zone_set_of zone.set) };

    fn open(
        alloc: Global,
        table: &Table,
        name: &str,
        number: usize,
    ) -> Result<EverZone, ReadingError> {
        match ZoneSet::open(alloc, table, name) {
            Ok(set) => Ok(EverZone { set }),
            Err(fault) => Err(refused(number, find_fault(fault))),
        }
    }

    fn stretch_at(&self, second: i64) -> Stretch {
        laws::zone_holds_in_seconds();
        zone_stretch(&self.set, second)
    }

    fn show(&self, request: &Request<'_>, text: &mut Vec<u8>) -> Result<bool, AllocError> {
        show(&ZoneTz::new(&self.set), request, text)
    }

    fn show_spelled(
        &self,
        request: &Request<'_>,
        spelled: &[u8],
        text: &mut Vec<u8>,
    ) -> Result<bool, AllocError> {
        show_spelled(&ZoneTz::new(&self.set), request, spelled, text)
    }
}

/// The fault of a zone that stands for one of a zone for ever.
fn find_fault(fault: EverFault) -> FindFault
    ensures { result ≡ find_fault fault }
{
    match fault {
        EverFault::Zone(fault) => FindFault::Zone(fault),
        EverFault::LaterDay => FindFault::Zone(ZoneFault::Schedule(SpanFault::DayRange)),
        EverFault::RulesEnd => FindFault::RulesEnd,
        EverFault::LaterOffset => FindFault::Zone(ZoneFault::OffsetRange),
    }
}

/// Why the zone that the nth request names can't be asked, or want of memory.
fn refused(number: usize, fault: FindFault) -> ReadingError
    ensures { Refuses number fault result }
{
    match fault {
        FindFault::Zone(fault) => ReadingError::Answer(AnswerError::of_zone(number, fault)),
        FindFault::RulesEnd => ReadingError::RulesEnd(number),
    }
}
