//! Dates and times of day that are written and exist.
ghost use Rattle.std.specs.{Prelude.{◌≡◌, ◌<◌, ◌≤◌, ◌^◌, true, Some, None, pos, IfOk, if◌then◌else◌}, Result.{result_map_both}};
ghost use Rattle.basics.specs.Days.{day};
ghost use Rattle.civil_base.specs.{Clock.{time_at}, Instants.{instant_at}, Offsets.{signed_by}, Ranges.{is_offset as in_offsets}, DateTimes.{instant, offset_of}};
ghost use Rattle.zone_words.specs.{Numbers.{seconds_east}, Readings.{is_date, is_time, is_offset, moment_in, in_years, zoned_in, count_in}};

use crate::TextFault;
use crate::form::{WrittenCount, WrittenDate, WrittenInstant, WrittenOffset, WrittenTime};
use civil_base::{Date, Month, OffsetDateTime, PlainDateTime, Time, UtcOffset};

fn date_of(date: WrittenDate) -> Option<Date>
    ensures { result ≡ (if is_date date then Some (day (pos date.year) date.month date.day) else None) }
{
    let month = Month::try_from(date.month).ok()?;
    Date::from_calendar_date(i32::from(date.year), month, date.day).ok()
}

fn time_of(time: WrittenTime) -> Option<Time>
    ensures { result ≡ (if is_time time then Some (time_at time.hour time.minute time.second time.nanosecond) else None) }
{
    Time::from_hms_nano(time.hour, time.minute, time.second, time.nanosecond).ok()
}

/// The local time of that date and time.
#[tactic(auto, unfolding(crate::specs::Readings::moment_in, crate::specs::Numbers::moment))]
pub(crate) fn moment_in(date: WrittenDate, time: WrittenTime) -> Result<PlainDateTime, TextFault>
    ensures { result ≡ moment_in date time }
{
    let Some(date) = date_of(date) else {
        return Err(TextFault::NoSuchDate);
    };
    let Some(time) = time_of(time) else {
        return Err(TextFault::NoSuchTime);
    };
    Ok(PlainDateTime::new(date, time))
}

/// The seconds, below zero where that is asked, which an offset can have.
fn signed(negative: bool, size: u32) -> i32
    requires { size < 86_400 }
    ensures value { result ≡ signed_by negative size }
    ensures offset { in_offsets result ≡ true }
{
    if negative {
        -(size as i32)
    } else {
        size as i32
    }
}

/// The offset, where it is less than 24 hours.
#[tactic(auto, unfolding(crate::specs::Numbers::seconds_east))]
fn east_of(offset: WrittenOffset) -> Option<UtcOffset>
    ensures { result ≡ (if is_offset offset then Some (seconds_east offset) else None) }
{
    if offset.hours > 23 || offset.minutes > 59 {
        return None;
    }
    let size = (u32::from(offset.hours) * 60 + u32::from(offset.minutes)) * 60;
    UtcOffset::from_whole_seconds(signed(offset.west, size)).ok()
}

/// The instant at UTC, where its date lies in the years.
#[tactic(auto, unfolding(crate::specs::Readings::in_years))]
pub(crate) fn in_years(nanos: i128) -> Result<OffsetDateTime, TextFault>
    ensures value { result_map_both instant (λ fault. fault) result ≡ in_years nanos }
    ensures utc { IfOk result (λ value. offset_of value ≡ pos 0) }
{
    match OffsetDateTime::from_unix_timestamp_nanos(nanos) {
        Ok(value) => Ok(value),
        Err(_) => Err(TextFault::OutOfYears),
    }
}

/// The instant of a local time at that offset.
#[tactic(auto, unfolding(civil_base::specs::DateTimes::instant))]
fn instant_of(local: PlainDateTime, offset: UtcOffset) -> Result<OffsetDateTime, TextFault>
    ensures value { result_map_both instant (λ fault. fault) result ≡ in_years (instant_at local offset) }
    ensures utc { IfOk result (λ value. offset_of value ≡ pos 0) }
{
    in_years(local.assume_offset(offset).unix_timestamp_nanos())
}

/// The instant of a date, a time and an offset.
#[tactic(auto, unfolding(crate::specs::Readings::zoned_in))]
pub(crate) fn zoned_in(form: WrittenInstant) -> Result<OffsetDateTime, TextFault>
    ensures value { result_map_both instant (λ fault. fault) result ≡ zoned_in form }
    ensures utc { IfOk result (λ value. offset_of value ≡ pos 0) }
{
    let local = moment_in(form.date, form.time)?;
    match east_of(form.offset) {
        Some(offset) => instant_of(local, offset),
        None => Err(TextFault::OffsetRange),
    }
}

/// The instant of a count.
#[tactic(auto, unfolding(crate::specs::Readings::count_in, crate::specs::Numbers::counted))]
pub(crate) fn count_in(form: WrittenCount) -> Result<OffsetDateTime, TextFault>
    requires { form.seconds ≤ 10 ^ 25 }
    ensures value { result_map_both instant (λ fault. fault) result ≡ count_in form }
    ensures utc { IfOk result (λ value. offset_of value ≡ pos 0) }
{
    let size = (form.seconds * 1_000_000_000 + u128::from(form.nanosecond)) as i128;
    in_years(if form.before { -size } else { size })
}
