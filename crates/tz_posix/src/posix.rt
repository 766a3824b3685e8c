//! POSIX TZ strings as time zones.
ghost use Rattle.std.specs.{Prelude.{◌≡◌, IfOk, option_map, unsigned_abs, ◌≤◌}, Result.{result_err}};
ghost use Rattle.civil_base.specs.{DateTimes.{instant}, Ranges.{far_seconds}};
ghost use Rattle.tz_lookup.specs.Zones.{set_of};
ghost use Rattle.tz_posix.specs.{Offsets.{given_of}, PosixZones.{either, Gives, GivesByRule, IsOf, posix_refusal, iana_of}, InForce.{rule_refusal}, NamedShown.{named_of}, Yearly.{time_shown}};

use crate::error::Error;
use crate::offset::PosixTzOffset;
use crate::rule::YearlyRule;
use civil_base::{OffsetDateTime, UtcOffset};
use tz_lookup::{Offset, TimeZone, Tz};

/// A time zone that a POSIX TZ string names or describes.
#[derive(Clone, Debug, Drop, PartialEq, Eq)]
pub struct PosixTz<'a> {
    pub(crate) kind: Kind<'a>,
}

/// An abbreviation and its offset.
#[derive(Clone, Debug, Drop, PartialEq, Eq)]
pub(crate) struct Named<'a> {
    pub(crate) name: &'a str,
    pub(crate) offset: UtcOffset,
}

/// What a text stands for.
#[derive(Clone, Debug, Drop, PartialEq, Eq)]
pub(crate) enum Kind<'a> {
    /// A zone of the database.
    Zone(Tz<'a>),
    /// Standard time alone.
    Fixed(Named<'a>),
    /// Standard time, daylight saving time and the rule that tells when.
    Ruled(Named<'a>, Named<'a>, YearlyRule),
    /// Standard time, daylight saving time and a zone of the database that tells when.
    Borrowed(Named<'a>, Named<'a>, Tz<'a>),
}

impl<'a> PosixTz<'a> {
    ghost use Rattle.tz_posix.specs.PosixShown.{posix_of, Converts};

    /// The offset in force at an instant.
    ///
    /// By a rule, daylight saving time holds from the start, read at the standard offset, up to, without, the end, read at
    /// the offset of daylight saving time, both in the year of the instant's date at the standard offset; where the end
    /// lies before the start, before the end and from the start on. Without a rule it holds where `America/New_York` has
    /// it. The name is that of what holds, and `is_dst` tells whether daylight saving time does; a zone of the database
    /// gives its own.
    ///
    /// # Errors
    ///
    /// With a rule, in this order: `ComponentRange` exactly where that year lies outside -9999 to 9999; the refusal of the
    /// start's `to_date`; the refusal of the end's. Without one there is none.
    pub fn get_offset(&self, date_time: &OffsetDateTime) -> Result<PosixTzOffset<'a>, Error>
        ensures refused { result_err result ≡ posix_refusal (posix_of self.now) (instant date_time.now) }
        ensures value { IfOk result (λ offset. Gives (posix_of self.now) (instant date_time.now) (given_of offset)) }
    {
        match &self.kind {
            Kind::Zone(zone) => Ok(PosixTzOffset::in_zone(zone, date_time)),
            Kind::Fixed(standard) => Ok(standard.given(false)),
            Kind::Ruled(standard, saving, rule) => {
                ruled(standard, saving, rule, date_time.unix_timestamp())
            }
            Kind::Borrowed(standard, saving, zone) => Ok(chosen(
                standard,
                saving,
                zone.get_offset_utc(date_time).is_dst(),
            )),
        }
    }

    /// The same instant at the offset in force.
    ///
    /// # Errors
    ///
    /// As `get_offset`, then `ComponentRange` exactly where the date at that offset lies outside the years -9999 to 9999.
    pub fn convert(&self, date_time: &OffsetDateTime) -> Result<OffsetDateTime, Error>
        ensures { Converts (posix_of self.now) (instant date_time.now) result }
    {
        match self.get_offset(date_time) {
            Ok(offset) => match date_time.to_offset(offset.to_utc()) {
                Some(converted) => Ok(converted),
                None => Err(Error::ComponentRange),
            },
            Err(error) => Err(error),
        }
    }

    /// The zone of the database that a string of the short form names; none for one of the other form.
    pub fn as_iana(&self) -> Option<Tz<'a>>
        ensures { option_map set_of result ≡ iana_of (posix_of self.now) }
    {
        match &self.kind {
            Kind::Zone(zone) => Some(*zone),
            _ => None,
        }
    }
}

impl<'a> Named<'a> {
    /// The same once more.
    pub(crate) fn copied(&self) -> Named<'a>
        ensures { named_of result ≡ named_of self.now }
    {
        Named {
            name: self.name,
            offset: self.offset,
        }
    }

    fn given(&self, saving: bool) -> PosixTzOffset<'a>
        ensures { given_of result ≡ record { total = (named_of self.now).total; name = (named_of self.now).name; saving = saving } }
    {
        PosixTzOffset::of_text(self.name, self.offset, saving)
    }
}

/// Standard time, or daylight saving time where it holds.
fn chosen<'a>(standard: &Named<'a>, saving: &Named<'a>, holds: bool) -> PosixTzOffset<'a>
    ensures is { IsOf (either (named_of standard.now) (named_of saving.now) holds) (given_of result) }
    ensures saving { (given_of result).saving ≡ holds }
{
    if holds {
        saving.given(true)
    } else {
        standard.given(false)
    }
}

/// What a rule gives a second.
fn ruled<'a>(
    standard: &Named<'a>,
    saving: &Named<'a>,
    rule: &YearlyRule,
    second: i64,
) -> Result<PosixTzOffset<'a>, Error>
    requires { unsigned_abs second ≤ far_seconds }
    ensures refused { result_err result ≡ rule_refusal (named_of standard.now).total rule.now.start.date rule.now.end.date second }
    ensures value { IfOk result (λ offset. GivesByRule (named_of standard.now) (named_of saving.now)
        (time_shown rule.now.start) (time_shown rule.now.end) second (given_of offset)) }
{
    match rule.is_saving(standard.offset, saving.offset, second) {
        Ok(holds) => Ok(chosen(standard, saving, holds)),
        Err(error) => Err(error),
    }
}
