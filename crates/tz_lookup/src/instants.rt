//! Every instant that a set of spans reads as one local time, one after another, by looking at each span.
ghost use Rattle.tz_lookup.specs.Sets.{schedule_of, IsAccepted};

use crate::lookups::SpanTable;
use crate::set::FixedTimespanSet;
use crate::time_zone::SpanScan;
use civil_base::{OffsetDateTime, PlainDateTime};

/// The date-times that a zone reads as one local time, the earliest first, each once: at most one for each span. It takes
/// no memory.
#[derive(Drop)]
pub struct InstantsIn<'a, S: SpanTable> {
    set: &'a S,
    scan: SpanScan,
    ghost accepted: { IsAccepted (schedule_of (S.seen set.now)) },
}

/// Those of a set of spans.
pub type InstantsLocal<'a> = InstantsIn<'a, FixedTimespanSet>;

impl<'a, S: SpanTable> InstantsIn<'a, S> {
    ghost use Rattle.std.specs.Prelude.{◌≡◌, ◌≤◌, ◌+◌, map, length};
    ghost use Rattle.zone_spans.specs.Schedules.{total_at};
    ghost use Rattle.civil_base.specs.DateTimes.{instant};
    ghost use Rattle.tz_lookup.specs.{InForce.{all_in_force, shown_of, AreInstants}, InstantsLeft.{dates_left}, Sets.{schedule_of, IsAccepted}};

    /// The instants that the set, which can be looked up, reads as that local time.
    pub fn new(set: &'a S, local: &PlainDateTime) -> InstantsIn<'a, S>
        requires accepted { IsAccepted (schedule_of (S.seen set.now)) }
        ensures all { map shown_of (dates_left result) ≡ all_in_force (total_at (schedule_of (S.seen set.now))) local.now }
        ensures few { length (dates_left result) ≤ length (S.seen set.now).others + 1 }
        ensures exact { AreInstants (total_at (schedule_of (S.seen set.now))) local.now (map instant (dates_left result)) }
    {
        InstantsIn {
            set,
            scan: SpanScan::new(local),
        }
    }
}

impl<'a, S: SpanTable> Iterator for InstantsIn<'a, S> {
    type Item = OffsetDateTime;

    ghost use Rattle.std.specs.Iterator.{YieldsFirst, item_count};
    ghost use Rattle.tz_lookup.specs.InstantsLeft.{dates_left};

    ghost next_gives = { YieldsFirst dates_left };

    ghost remaining = { item_count dates_left };

    fn next(&mut self) -> Option<OffsetDateTime> {
        self.scan.next(self.set)
    }
}
