//! A zone of one's own: whatever has the laws of a `TimeZone` can be asked by every call of the library.
ghost use Rattle.std.specs.Prelude.{◌≡◌, ℤ, ◌≤◌, length, false, int_lt};
ghost use Rattle.civil_base.specs.{DateTimes.{instant, local_of}, Instants.{instant_at}, Ranges.{IsOffset}};
ghost use Rattle.zone_spans.specs.Schedules.{instants};
ghost use Rattle.zone_uses.specs.Moves.{total_around};

use civil_base::{OffsetDateTime, PlainDateTime, UtcOffset};
use tz_lookup::{Offset, OffsetResult, TimeZone};

/// A zone that changes its offset once, at an instant in nanoseconds from 1970-01-01 00:00:00 UTC, and never has a saving.
#[derive(Clone, Copy, Debug, Drop)]
pub struct Moved<'a> {
    name: &'a str,
    change: OffsetDateTime,
    before: UtcOffset,
    after: UtcOffset,
    ghost in_range: { (t : ℤ) → IsOffset (total_around (instant change) before after t) },
    ghost two: { (time : ℤ) → length (instants (total_around (instant change) before after) time) ≤ 2 },
}

/// One of the two offsets of a [`Moved`].
#[derive(Clone, Copy, Debug, Drop)]
pub struct MovedOffset<'a> {
    name: &'a str,
    offset: UtcOffset,
}

impl<'a> Moved<'a> {
    ghost use Rattle.std.specs.Prelude.{◌≡◌, map};
    ghost use Rattle.tz_lookup.specs.Answers.{listed, EachOf};
    ghost use Rattle.civil_base.specs.DateTimes.{instant};
    ghost use Rattle.zone_uses.specs.{Moves.{around_list, total_around}, MovedShown.{name_shown, total_shown}};

    /// The zone of that name, that has the first offset before the instant of a date-time, and the second from it on.
    #[tactic(auto, unfolding(crate::specs::MovedShown::total_shown))]
    pub fn new(
        name: &'a str,
        change: &OffsetDateTime,
        before: UtcOffset,
        after: UtcOffset,
    ) -> Moved<'a>
        ensures name { name_shown result ≡ name.now }
        ensures total { total_shown result ≡ total_around (instant change.now) before after }
    {
        // Read for what they say of every offset: that it is in range.
        let _before = before.whole_seconds();
        let _after = after.whole_seconds();
        Moved {
            name,
            change: *change,
            before,
            after,
        }
    }

    /// One of the offsets.
    fn answer(&self, offset: UtcOffset) -> MovedOffset<'a>
        ensures name { result.name.now ≡ self.now.name.now }
        ensures offset { result.offset ≡ offset }
    {
        MovedOffset {
            name: self.name,
            offset,
        }
    }

    /// The offsets of a local time, by whether it lies before the change at the first of them, and at the second.
    fn on_sides(&self, early: bool, still_early: bool) -> OffsetResult<MovedOffset<'a>>
        ensures totals { map (λ offset. offset.offset) (listed result) ≡ around_list early still_early self.now.before self.now.after }
        ensures names { EachOf (λ offset. offset.name.now ≡ self.now.name.now) result }
    {
        match (early, still_early) {
            (true, true) => OffsetResult::Some(self.answer(self.before)),
            (true, false) => {
                OffsetResult::Ambiguous(self.answer(self.before), self.answer(self.after))
            }
            (false, true) => OffsetResult::None,
            (false, false) => OffsetResult::Some(self.answer(self.after)),
        }
    }
}

impl<'a> Offset for MovedOffset<'a> {
    ghost total = { λ offset. offset.offset };

    ghost called = { λ offset. offset.name.now };

    ghost is_saving = { λ _. false };

    fn to_utc(&self) -> UtcOffset {
        self.offset
    }

    fn name(&self) -> &str {
        self.name
    }

    fn is_dst(&self) -> bool {
        false
    }
}

/// Whether clocks of an offset show the date and time that a date-time shows at UTC before an instant.
fn is_before(local: &OffsetDateTime, offset: UtcOffset, change: &OffsetDateTime) -> bool
    ensures { result ≡ int_lt (instant_at (local_of local.now) offset) (instant change.now) }
{
    let shown = PlainDateTime::new(local.date(), local.time()).assume_offset(offset);
    lies_before(&shown, change)
}

/// Whether an instant lies before another.
fn lies_before(time: &OffsetDateTime, change: &OffsetDateTime) -> bool
    ensures { result ≡ int_lt (instant time.now) (instant change.now) }
{
    time.unix_timestamp_nanos() < change.unix_timestamp_nanos()
}

impl<'a> TimeZone for Moved<'a> {
    type Offset = MovedOffset<'a>;

    ghost total_at = { λ zone. total_around (instant zone.change) zone.before zone.after };

    ghost orderly = { λ zone. Unit {0} };

    ghost gives = { λ zone _ name saving. (name ≡ zone.name.now) × (saving ≡ false) };

    ghost called = { λ zone. zone.name.now };

    ghost primary = { λ zone. zone.before };

    ghost begins = { λ zone name saving. (name ≡ zone.name.now) × (saving ≡ false) };

    fn get_offset_utc(&self, date_time: &OffsetDateTime) -> MovedOffset<'a> {
        if lies_before(date_time, &self.change) {
            self.answer(self.before)
        } else {
            self.answer(self.after)
        }
    }

    fn get_offset_local(&self, date_time: &OffsetDateTime) -> OffsetResult<MovedOffset<'a>> {
        self.on_sides(
            is_before(date_time, self.before, &self.change),
            is_before(date_time, self.after, &self.change),
        )
    }

    fn get_offset_primary(&self) -> MovedOffset<'a> {
        self.answer(self.before)
    }

    fn name(&self) -> &str {
        self.name
    }

    ghost in_range = { λ zone t. zone.in_range t };

    ghost two_at_most = { λ zone time _. zone.two time };
}
