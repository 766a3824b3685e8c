//! The offsets that POSIX TZ strings give.
ghost use Rattle.std.specs.Prelude.{◌≡◌};

use civil_base::{OffsetDateTime, UtcOffset};
use tz_lookup::{Offset, TimeZone, Tz, TzOffset};

/// An offset that a [`PosixTz`](crate::PosixTz) gives.
#[derive(Clone, Debug, Drop, PartialEq, Eq)]
pub struct PosixTzOffset<'a> {
    source: Source<'a>,
}

/// Where an offset is from.
#[derive(Clone, Debug, Drop, PartialEq, Eq)]
enum Source<'a> {
    /// A zone of the database.
    Zone(TzOffset<'a>),
    /// The text.
    Text {
        name: &'a str,
        offset: UtcOffset,
        saving: bool,
    },
}

impl<'a> PosixTzOffset<'a> {
    ghost use Rattle.civil_base.specs.DateTimes.{instant};
    ghost use Rattle.tz_lookup.specs.Zones.{set_of};
    ghost use Rattle.tz_posix.specs.{Offsets.{given_of}, PosixZones.{Gives, zone as zone_of}};

    /// The offset of a zone at an instant.
    pub(crate) fn in_zone(zone: &Tz<'a>, date_time: &OffsetDateTime) -> PosixTzOffset<'a>
        ensures { Gives (zone_of (set_of zone.now)) (instant date_time.now) (given_of result) }
    {
        PosixTzOffset {
            source: Source::Zone(zone.get_offset_utc(date_time)),
        }
    }

    /// An offset that the text names.
    pub(crate) fn of_text(name: &'a str, offset: UtcOffset, saving: bool) -> PosixTzOffset<'a>
        ensures { given_of result ≡ record { total = offset; name = name.now; saving = saving } }
    {
        PosixTzOffset {
            source: Source::Text {
                name,
                offset,
                saving,
            },
        }
    }
}

impl<'a> Offset for PosixTzOffset<'a> {
    ghost use Rattle.tz_posix.specs.Offsets.{given_of};

    ghost total = { λ offset. (given_of offset).total };

    ghost called = { λ offset. (given_of offset).name };

    ghost is_saving = { λ offset. (given_of offset).saving };

    fn to_utc(&self) -> UtcOffset {
        match &self.source {
            Source::Zone(offset) => offset.to_utc(),
            Source::Text { offset, .. } => *offset,
        }
    }

    fn name(&self) -> &str {
        match &self.source {
            Source::Zone(offset) => offset.name(),
            Source::Text { name, .. } => name,
        }
    }

    fn is_dst(&self) -> bool {
        match &self.source {
            Source::Zone(offset) => offset.is_dst(),
            Source::Text { saving, .. } => *saving,
        }
    }
}
