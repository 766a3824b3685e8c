//! A zone of one offset.
ghost use Rattle.std.specs.Prelude.{◌≡◌, ℕ, ℤ, ◌≤◌, length, false, List};
ghost use Rattle.civil_base.specs.Ranges.{IsOffset};
ghost use Rattle.zone_spans.specs.Schedules.{instants};
ghost use Rattle.tz_lookup.specs.Answers.{listed};

use crate::time_zone::{AllInstants, Offset, OffsetResult, PrimitiveDateTimeExt, TimeZone};
use civil_base::{OffsetDateTime, PlainDateTime, UtcOffset};

/// A zone that has one offset for good, which is no saving.
#[derive(Clone, Copy, Debug, Drop)]
pub struct Fixed<'a> {
    name: &'a str,
    offset: UtcOffset,
    ghost in_range: { IsOffset offset },
    ghost two: { (time : ℤ) → length (instants (λ _. offset) time) ≤ 2 },
}

/// The offset of a [`Fixed`].
#[derive(Clone, Copy, Debug, Drop)]
pub struct FixedOffset<'a> {
    name: &'a str,
    offset: UtcOffset,
}

impl<'a> Fixed<'a> {
    ghost use Rattle.std.specs.Prelude.{◌≡◌};
    ghost use Rattle.tz_lookup.specs.FixedZones.{name_shown, offset_shown};

    /// The zone of that name and offset.
    pub fn new(name: &'a str, offset: UtcOffset) -> Fixed<'a>
        ensures name { name_shown result ≡ name.now }
        ensures offset { offset_shown result ≡ offset }
    {
        // Read for what it says of every offset: that it is in range.
        let _in_range = offset.whole_seconds();
        Fixed { name, offset }
    }

    fn answer(&self) -> FixedOffset<'a>
        ensures name { result.name.now ≡ name_shown self.now }
        ensures offset { result.offset ≡ offset_shown self.now }
    {
        FixedOffset {
            name: self.name,
            offset: self.offset,
        }
    }
}

impl<'a> Offset for FixedOffset<'a> {
    ghost total = { λ offset. offset.offset };

    ghost called = { λ offset. offset.name.now };

    ghost is_saving = { λ _. false };

    fn to_utc(&self) -> UtcOffset {
        self.offset
    }

    fn name(&self) -> &str {
        self.name
    }

    fn is_dst(&self) -> bool {
        false
    }
}

impl<'a> TimeZone for Fixed<'a> {
    type Offset = FixedOffset<'a>;

    ghost total_at = { λ zone t. zone.offset };

    ghost orderly = { λ zone. Unit {0} };

    ghost gives = { λ zone _ name saving. (name ≡ zone.name.now) × (saving ≡ false) };

    ghost called = { λ zone. zone.name.now };

    ghost primary = { λ zone. zone.offset };

    ghost begins = { λ zone name saving. (name ≡ zone.name.now) × (saving ≡ false) };

    fn get_offset_utc(&self, _date_time: &OffsetDateTime) -> FixedOffset<'a> {
        self.answer()
    }

    fn get_offset_local(&self, _date_time: &OffsetDateTime) -> OffsetResult<FixedOffset<'a>> {
        OffsetResult::Some(self.answer())
    }

    fn get_offset_primary(&self) -> FixedOffset<'a> {
        self.answer()
    }

    fn name(&self) -> &str {
        self.name
    }

    ghost in_range = { λ zone t. zone.in_range };

    ghost two_at_most = { λ zone time _. zone.two time };
}

impl<'a> AllInstants for Fixed<'a> {
    type Cursor = OffsetResult<OffsetDateTime>;

    ghost left = { λ _. listed };

    fn begin(&self, local: &PlainDateTime) -> OffsetResult<OffsetDateTime> {
        local.assume_timezone(self)
    }

    fn next(&self, cursor: &mut OffsetResult<OffsetDateTime>) -> Option<OffsetDateTime> {
        cursor.take_next()
    }
}
