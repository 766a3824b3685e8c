//! Dates, times and instants: days by another calendar's count, texts that are read and written again, and what the constants are.
ghost use Rattle.std.specs.Prelude.{◌≡◌, pos, neg_ℤ};
ghost use Rattle.basics.specs.Days.{day as day_at};
ghost use Rattle.civil_base.specs.{Clock.{time_at}, DateTimes.{instant, offset_of}};

use crate::tests::checks::{hash_of, holds};
use civil_base::Month::{December, February, January, March, October};
use civil_base::Weekday::{Friday, Monday, Sunday, Thursday, Tuesday, Wednesday};
use civil_base::{
    Date, Month, OffsetDateTime, PlainDateTime, SignedDuration, Time, Timestamp, UtcDateTime,
    UtcOffset, Weekday, read_local, read_zoned, write_local, write_zoned,
};

// Whether what is read from a text is written as that text again.
fn is_local_again(text: &str) -> bool {
    let mut into = [0; 30];
    match read_local(text) {
        Some(local) => {
            let end = write_local(&local, &mut into);
            &into[..end] == text.as_bytes()
        }
        None => false,
    }
}

fn is_zoned_again(text: &str) -> bool {
    let mut into = [0; 40];
    match read_zoned(text) {
        Some(zoned) => {
            let end = write_zoned(&zoned, &mut into);
            &into[..end] == text.as_bytes()
        }
        None => false,
    }
}

fn texts() -> bool {
    is_local_again("1970-01-01 01:30:00.000000000")
        & is_zoned_again("1970-01-01 01:30:00.000000000 +01:30:00")
        & is_local_again("-9999-01-01 00:00:00.000000000")
        & is_zoned_again("-9999-01-01 00:00:00.000000000 +01:30:00")
        & is_local_again("9999-12-31 23:59:59.999999999")
        & is_zoned_again("9999-12-31 23:59:59.999999999 -25:59:59")
        & is_local_again("0000-02-29 12:34:56.789012345")
        & is_zoned_again("0000-02-29 12:34:56.789012345 +00:00:00")
        & is_local_again("-0001-12-31 00:00:00.000000001")
        & is_zoned_again("-0001-12-31 00:00:00.000000001 -00:00:01")
}

// Year, month, day, day of the year, Julian day and weekday, by Python's `datetime`, in cycles of 400 years before year 1.
const DATES: [(i32, Month, u8, u16, i32, Weekday); 27] = [
    (-9999, January, 1, 1, -1_930_999, Monday),
    (-9999, December, 31, 365, -1_930_635, Monday),
    (-401, March, 1, 60, 1_574_657, Monday),
    (-400, February, 29, 60, 1_575_022, Tuesday),
    (-101, December, 31, 365, 1_684_535, Sunday),
    (-100, February, 28, 59, 1_684_594, Wednesday),
    (-4, December, 31, 366, 1_719_964, Tuesday),
    (-1, January, 1, 1, 1_720_695, Friday),
    (0, February, 29, 60, 1_721_119, Tuesday),
    (0, December, 31, 366, 1_721_425, Sunday),
    (1, January, 1, 1, 1_721_426, Monday),
    (4, February, 29, 60, 1_722_580, Sunday),
    (100, March, 1, 60, 1_757_644, Monday),
    (400, December, 31, 366, 1_867_522, Sunday),
    (1582, October, 15, 288, 2_299_161, Friday),
    (1600, February, 29, 60, 2_305_507, Tuesday),
    (1700, March, 1, 60, 2_342_032, Monday),
    (1900, February, 28, 59, 2_415_079, Wednesday),
    (1969, December, 31, 365, 2_440_587, Wednesday),
    (1970, January, 1, 1, 2_440_588, Thursday),
    (2000, February, 29, 60, 2_451_604, Tuesday),
    (2000, December, 31, 366, 2_451_910, Sunday),
    (2023, December, 31, 365, 2_460_310, Sunday),
    (2024, December, 30, 365, 2_460_675, Monday),
    (2100, March, 1, 60, 2_488_129, Monday),
    (9996, December, 31, 366, 5_372_389, Tuesday),
    (9999, December, 31, 365, 5_373_484, Friday),
];

/// Whether the date of a row is counted as the row says, and is the date of its counts.
fn is_counted(row: &(i32, Month, u8, u16, i32, Weekday)) -> bool {
    let (year, month, day, ordinal, julian_day, weekday) = *row;
    let Ok(date) = Date::from_calendar_date(year, month, day) else {
        return false;
    };
    (date.to_ordinal_date() == (year, ordinal))
        & (date.to_julian_day() == julian_day)
        & (date.weekday() == weekday)
        & (Date::from_ordinal_date(year, ordinal) == Ok(date))
        & (Date::from_julian_day(julian_day) == Ok(date))
}

#[test]
fn days_are_counted(rt: HostRuntime) {
    for row in &DATES {
        holds(&rt, "counts of a day", is_counted(row));
    }
}

// What the constants are.
fn first_date() -> Date
    ensures { result ≡ day_at (neg_ℤ (pos 9999)) 1 1 }
{
    Date::MIN
}

fn last_date() -> Date
    ensures { result ≡ day_at (pos 9999) 12 31 }
{
    Date::MAX
}

#[tactic(auto, unfolding(civil_base::specs::Clock::time_at))]
fn midnight() -> Time
    ensures { result ≡ time_at 0 0 0 0 }
{
    Time::MIDNIGHT
}

fn no_offset() -> UtcOffset
    ensures { result ≡ pos 0 }
{
    UtcOffset::UTC
}

#[tactic(auto, unfolding(civil_base::specs::DateTimes::instant, civil_base::specs::DateTimes::local_of, civil_base::specs::DateTimes::offset_of))]
fn epoch() -> OffsetDateTime
    ensures instant { instant result ≡ pos 0 }
    ensures offset { offset_of result ≡ pos 0 }
{
    OffsetDateTime::UNIX_EPOCH
}

fn utc_epoch() -> UtcDateTime
    ensures { result ≡ pos 0 }
{
    UtcDateTime::UNIX_EPOCH
}

fn instant_epoch() -> Timestamp
    ensures { result ≡ pos 0 }
{
    Timestamp::UNIX_EPOCH
}

/// The first and the last day, and the one after the first.
fn ends_of_all_days() -> bool {
    let (first, last) = (first_date(), last_date());
    let Some(second) = first.next_day() else {
        return false;
    };
    let Some(day) = SignedDuration::from_whole_nanoseconds(86_400_000_000_000) else {
        return false;
    };
    (first.to_calendar_date() == (-9999, January, 1))
        & (last.year() == 9999)
        & (last.month() == December)
        & (last.day() == 31)
        & (last.ordinal() == 365)
        & (second.previous_day() == Some(Date::MIN))
        & (first.checked_add(day) == Some(second))
        & (second.checked_sub(day) == Some(first))
}

fn times() -> bool {
    let Ok(time) = Time::from_hms_nano(23, 59, 58, 7) else {
        return false;
    };
    (time.hour() == 23)
        & (time.minute() == 59)
        & (time.second() == 58)
        & (time.nanosecond() == 7)
        & (Time::from_hms(0, 0, 0) == Ok(midnight()))
        & (midnight().as_hms_nano() == (0, 0, 0, 0))
}

fn offsets() -> bool {
    let Ok(behind) = UtcOffset::from_whole_seconds(-5415) else {
        return false;
    };
    (UtcOffset::from_hms(-1, 30, 15) == Ok(behind))
        & (behind.as_hms() == (-1, -30, -15))
        & (behind.whole_hours() == -1)
        & (behind.minutes_past_hour() == -30)
        & (behind.seconds_past_minute() == -15)
        & behind.is_negative()
        & !behind.is_positive()
        & !behind.is_utc()
        & (no_offset().whole_seconds() == 0)
}

/// Of the epoch where clocks show half past one.
fn has_parts(shown: &OffsetDateTime) -> bool {
    let plain = PlainDateTime::new(shown.date(), Time::MIDNIGHT);
    (*shown == epoch())
        & (hash_of(shown) == hash_of(&epoch()))
        & (shown.offset().whole_seconds() == 5400)
        & (shown.time().as_hms() == (1, 30, 0))
        & (shown.year() == 1970)
        & (plain.time() == midnight())
        & (plain.year() == 1970)
        & (plain.date() == OffsetDateTime::UNIX_EPOCH.date())
        & (plain.assume_utc() == epoch())
        & (plain.assume_offset(shown.offset()) < epoch())
}

/// Whether date-times are one at one instant.
fn date_times() -> bool {
    let Ok(offset) = UtcOffset::from_whole_seconds(5400) else {
        return false;
    };
    match epoch().to_offset(offset) {
        Some(shown) => has_parts(&shown),
        None => false,
    }
}

/// An instant 5001 milliseconds before the epoch, and the epoch.
fn instants() -> bool {
    let Ok(early) = Timestamp::from_milliseconds(-5001) else {
        return false;
    };
    (early.as_nanoseconds() == -5_001_000_000)
        & (early < Timestamp::UNIX_EPOCH)
        & (hash_of(&early) != hash_of(&Timestamp::UNIX_EPOCH))
        & (Timestamp::new(-6, 999_000_000) == Ok(early))
        & (Timestamp::from_nanoseconds(-5_001_000_000) == Ok(early))
        & (Timestamp::from_seconds(0) == Ok(instant_epoch()))
        & (UtcDateTime::from_unix_timestamp_nanos(0) == Ok(utc_epoch()))
        & (OffsetDateTime::from_unix_timestamp(0) == Ok(epoch()))
        & (OffsetDateTime::from_unix_timestamp_nanos(0) == Ok(epoch()))
}

/// Of the first instant of all years, at UTC.
fn is_first(shown: &OffsetDateTime) -> bool {
    let Ok(first) = UtcDateTime::from_unix_timestamp(-377_705_116_800) else {
        return false;
    };
    (first.unix_timestamp() == -377_705_116_800)
        & (first.unix_timestamp_nanos() == -377_705_116_800_000_000_000)
        & (shown.unix_timestamp() == -377_705_116_800)
        & (shown.unix_timestamp_nanos() == -377_705_116_800_000_000_000)
}

fn first_instants() -> bool {
    let first = UtcDateTime::new(Date::MIN, Time::MIDNIGHT);
    match first.to_offset(UtcOffset::UTC) {
        Some(shown) => is_first(&shown),
        None => false,
    }
}

#[test]
fn values(rt: HostRuntime) {
    holds(&rt, "texts that are written again", texts());
    holds(&rt, "ends of all days", ends_of_all_days());
    holds(&rt, "times", times());
    holds(&rt, "offsets", offsets());
    holds(&rt, "date-times", date_times());
    holds(&rt, "instants", instants());
    holds(&rt, "first instants", first_instants());
}
