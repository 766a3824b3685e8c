//! The front of a set for ever.
ghost use Rattle.std.specs.Prelude.{◌≡◌, ◌<◌, ◌≤◌, length, take};
ghost use Rattle.tz_ever.specs.ZoneShown.{zone_set_of};
ghost use Rattle.tz_lookup.specs.{Sets.{IsAccepted, schedule_of, shifts_of}, Spans.{IsCut}};
ghost use Rattle.zone_tzif.specs.EverFiles.{entries_until};

use tz_ever::ZoneSet;
use tz_lookup::{FixedTimespan, SpanTable};

/// 2102-01-01 00:00:00 UTC.
pub(crate) const CYCLE_BEGIN: i64 = 4_165_516_800;

/// The first entries of a set for ever, as a table of spans.
#[derive(Clone, Copy, Debug, Drop)]
pub(crate) struct Until<'a> {
    set: &'a ZoneSet,
    count: usize,
    ghost within: { count ≤ length (zone_set_of set.now).others },
    ghost bound: { count < 18446744073709551615 },
}

impl<'a> Until<'a> {
    ghost use Rattle.std.specs.Prelude.{◌≡◌};
    ghost use Rattle.tz_ever.specs.ZoneShown.{zone_set_of};
    ghost use Rattle.tz_lookup.specs.Sets.{IsAccepted, schedule_of};
    ghost use Rattle.zone_tzif.specs.{Agreement.{cycle_begin}, EverFiles.{until}, Until.{until_of}};

    /// The entries up to 2102-01-01 00:00:00 UTC.
    pub(crate) fn new(set: &'a ZoneSet) -> Until<'a>
        ensures is { until_of result ≡ until cycle_begin (zone_set_of set.now) }
        ensures accepted { IsAccepted (schedule_of (until_of result)) }
    {
        let count = count_until(set.compact(), CYCLE_BEGIN);
        Until { set, count }
    }
}

impl<'a> SpanTable for Until<'a> {
    ghost use Rattle.zone_tzif.specs.Until.{until_of};

    ghost seen = { until_of };

    fn entry_count(&self) -> usize {
        self.count
    }

    fn time(&self, index: usize) -> i64 {
        self.set.compact().time(index)
    }

    fn span(&self, index: usize) -> &FixedTimespan {
        self.set.compact().span(index)
    }
}

/// How many entries of a set that can be looked up come at a second or before.
pub(crate) fn count_until<S: SpanTable>(set: &S, second: i64) -> usize
    requires { IsAccepted (schedule_of (S.seen set.now)) }
    ensures is { take result (S.seen set.now).others ≡ entries_until second (S.seen set.now).others }
    ensures cut { IsCut (shifts_of (S.seen set.now)) result second }
    ensures within { result ≤ length (S.seen set.now).others }
    ensures bound { result < 18446744073709551615 }
{
    for i in 0..set.entry_count() {
        if second < set.time(i) {
            return i;
        }
    }
    set.entry_count()
}
