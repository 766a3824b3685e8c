//! The plain text of what a line means.
ghost use Rattle.std.specs.{Prelude.{◌≡◌, ◌++◌, ◌<◌, [], ◌∷◌, decimal, OnOk, option_map}, Fmt.{signed_decimal}};
ghost use Rattle.zone_table.specs.Values.{line_value, rule_value, info_value, saving_value};
ghost use Rattle.zone_plain_lines.specs.PlainTexts.{two_digits, sign, clock_text, time_text, mark_text, month_text, weekday_text, day_text, year_text, to_text, letters_text, saving_text, years_text, moment_text, rule_text, end_text, stretch_text, info_text, plain_text};

use itoa::Buffer;
use std::alloc::AllocError;
use zone_table::{
    ChangeTime, DaySpec, Line, LineInfo as ZoneInfo, LineSaving as Saving, Month, Rule, TimeSpec,
    TimeSpecAndType, TimeType, Weekday, Year,
};

/// Writes a text.
fn put(into: &mut Vec<u8>, text: &str) -> Result<(), AllocError>
    ensures { OnOk result (into.new.items ≡ into.old.items ++ text.now) }
{
    into.extend_from_slice(text.as_bytes())?;
    Ok(())
}

/// Writes a space and a text.
fn put_field(into: &mut Vec<u8>, text: &str) -> Result<(), AllocError>
    ensures { OnOk result (into.new.items ≡ into.old.items ++ 32 ∷ text.now) }
{
    into.extend_from_slice(b" ")?;
    into.extend_from_slice(text.as_bytes())?;
    Ok(())
}

/// Writes a number in two digits.
fn put_two(into: &mut Vec<u8>, number: u8) -> Result<(), AllocError>
    ensures { OnOk result (into.new.items ≡ into.old.items ++ two_digits number) }
{
    into.extend_from_slice(&[b'0' + number / 10, b'0' + number % 10])?;
    Ok(())
}

/// Writes a number.
fn put_number(into: &mut Vec<u8>, number: i64) -> Result<(), AllocError>
    ensures { OnOk result (into.new.items ≡ into.old.items ++ signed_decimal number) }
{
    let mut digits = Buffer::new();
    put(into, digits.format(number))
}

/// Writes a number that has no sign.
fn put_count(into: &mut Vec<u8>, number: u8) -> Result<(), AllocError>
    ensures { OnOk result (into.new.items ≡ into.old.items ++ decimal number) }
{
    let mut digits = Buffer::new();
    put(into, digits.format(number))
}

/// The sign of a time: a hyphen, or nothing.
fn sign(hours: i8, minutes: i8, seconds: i8) -> &'static str
    ensures { result.now ≡ sign hours minutes seconds }
{
    if hours < 0 || minutes < 0 || seconds < 0 {
        "-"
    } else {
        ""
    }
}

/// Writes a sign, hours and minutes.
#[tactic(auto, using(std::proofs::Common::append_assoc), unfolding(crate::specs::PlainTexts::clock_text))]
fn put_clock(into: &mut Vec<u8>, sign: &str, hours: i8, minutes: i8) -> Result<(), AllocError>
    ensures { OnOk result (into.new.items ≡ into.old.items ++ clock_text sign.now hours minutes) }
{
    put(into, sign)?;
    put_count(into, hours.unsigned_abs())?;
    put(into, ":")?;
    put_two(into, minutes.unsigned_abs())
}

/// Writes a time.
#[tactic(auto, using(std::proofs::Common::append_assoc), unfolding(crate::specs::PlainTexts::time_text))]
fn put_time(into: &mut Vec<u8>, time: TimeSpec) -> Result<(), AllocError>
    ensures { OnOk result (into.new.items ≡ into.old.items ++ time_text time) }
{
    match time {
        TimeSpec::Hours(hours) => put_number(into, i64::from(hours))?,
        TimeSpec::HoursMinutes(hours, minutes) => {
            put_clock(into, sign(hours, minutes, 0), hours, minutes)?;
        }
        TimeSpec::HoursMinutesSeconds(hours, minutes, seconds) => {
            put_clock(into, sign(hours, minutes, seconds), hours, minutes)?;
            put(into, ":")?;
            put_two(into, seconds.unsigned_abs())?;
        }
        TimeSpec::Zero => put(into, "-")?,
    }
    Ok(())
}

/// The mark of a clock.
fn mark_text(clock: TimeType) -> &'static str
    ensures { result.now ≡ mark_text clock }
{
    match clock {
        TimeType::Wall => "",
        TimeType::Standard => "s",
        TimeType::UTC => "u",
    }
}

/// The short name of a month.
#[tactic(auto, unfolding(zone_table::specs::Months::month_name))]
fn month_text(month: Month) -> &'static str
    ensures { result.now ≡ month_text month }
{
    match month {
        Month::January => "Jan",
        Month::February => "Feb",
        Month::March => "Mar",
        Month::April => "Apr",
        Month::May => "May",
        Month::June => "Jun",
        Month::July => "Jul",
        Month::August => "Aug",
        Month::September => "Sep",
        Month::October => "Oct",
        Month::November => "Nov",
        Month::December => "Dec",
    }
}

/// The short name of a weekday.
#[tactic(auto, unfolding(zone_table::specs::Weekdays::weekday_name))]
fn weekday_text(weekday: Weekday) -> &'static str
    ensures { result.now ≡ weekday_text weekday }
{
    match weekday {
        Weekday::Sunday => "Sun",
        Weekday::Monday => "Mon",
        Weekday::Tuesday => "Tue",
        Weekday::Wednesday => "Wed",
        Weekday::Thursday => "Thu",
        Weekday::Friday => "Fri",
        Weekday::Saturday => "Sat",
    }
}

/// Writes a weekday, what stands between it and a number, and the number.
fn put_sided(into: &mut Vec<u8>, weekday: Weekday, side: &str, number: i8) -> Result<(), AllocError>
    ensures { OnOk result (into.new.items ≡ into.old.items ++ ((weekday_text weekday ++ side.now) ++ signed_decimal number)) }
{
    put(into, weekday_text(weekday))?;
    put(into, side)?;
    put_number(into, i64::from(number))
}

/// Writes a day of a month.
#[tactic(auto, using(std::proofs::Common::append_assoc), unfolding(crate::specs::PlainTexts::day_text))]
fn put_day(into: &mut Vec<u8>, day: DaySpec) -> Result<(), AllocError>
    ensures { OnOk result (into.new.items ≡ into.old.items ++ day_text day) }
{
    match day {
        DaySpec::Ordinal(number) => put_number(into, i64::from(number))?,
        DaySpec::Last(weekday) => {
            put(into, "last")?;
            put(into, weekday_text(weekday))?;
        }
        DaySpec::LastOnOrBefore(weekday, number) => put_sided(into, weekday, "<=", number)?,
        DaySpec::FirstOnOrAfter(weekday, number) => put_sided(into, weekday, ">=", number)?,
    }
    Ok(())
}

/// Writes a year.
#[tactic(auto, using(std::proofs::Common::append_assoc), unfolding(crate::specs::PlainTexts::year_text))]
fn put_year(into: &mut Vec<u8>, year: Year) -> Result<(), AllocError>
    ensures { OnOk result (into.new.items ≡ into.old.items ++ year_text year) }
{
    match year {
        Year::Minimum => put(into, "min")?,
        Year::Maximum => put(into, "max")?,
        Year::Number(number) => put_number(into, number)?,
    }
    Ok(())
}

/// Writes the last year of a rule.
#[tactic(auto, using(std::proofs::Common::append_assoc), unfolding(crate::specs::PlainTexts::to_text))]
fn put_to(into: &mut Vec<u8>, year: Option<Year>) -> Result<(), AllocError>
    ensures { OnOk result (into.new.items ≡ into.old.items ++ to_text year) }
{
    match year {
        Some(year) => put_year(into, year)?,
        None => put(into, "only")?,
    }
    Ok(())
}

/// The letters of a rule.
fn letters_text<'a>(letters: Option<&'a str>) -> &'a str
    ensures { result.now ≡ letters_text (option_map (λ t. t.now) letters.entry) }
{
    match letters {
        Some(letters) => letters,
        None => "-",
    }
}

/// Writes what is added to an offset.
#[tactic(auto, using(std::proofs::Common::append_assoc), unfolding(crate::specs::PlainTexts::saving_text))]
fn put_saving(into: &mut Vec<u8>, saving: &Saving<'_>) -> Result<(), AllocError>
    ensures { OnOk result (into.new.items ≡ into.old.items ++ saving_text (saving_value saving.now)) }
{
    match saving {
        Saving::NoSaving => put(into, "-")?,
        Saving::OneOff(amount) => put_time(into, *amount)?,
        Saving::Multiple(name) => put(into, name)?,
    }
    Ok(())
}

/// Writes a rule up to its years.
#[tactic(auto, using(std::proofs::Common::append_assoc), unfolding(crate::specs::PlainTexts::years_text))]
fn put_years(into: &mut Vec<u8>, rule: &Rule<'_>) -> Result<(), AllocError>
    ensures { OnOk result (into.new.items ≡ into.old.items ++ years_text (rule_value rule.now)) }
{
    put(into, "Rule")?;
    put_field(into, rule.name)?;
    put(into, " ")?;
    put_year(into, rule.from_year)?;
    put(into, " ")?;
    put_to(into, rule.to_year)
}

/// Writes the day of a month, and a time of that day.
#[tactic(auto, using(std::proofs::Common::append_assoc), unfolding(crate::specs::PlainTexts::moment_text))]
fn put_moment(
    into: &mut Vec<u8>,
    month: Month,
    day: DaySpec,
    time: TimeSpecAndType,
) -> Result<(), AllocError>
    ensures { OnOk result (into.new.items ≡ into.old.items ++ moment_text month day time) }
{
    put_field(into, month_text(month))?;
    put(into, " ")?;
    put_day(into, day)?;
    put(into, " ")?;
    put_time(into, time.0)?;
    put(into, mark_text(time.1))
}

/// Writes a rule.
#[tactic(auto, using(std::proofs::Common::append_assoc), unfolding(crate::specs::PlainTexts::rule_text))]
fn put_rule(into: &mut Vec<u8>, rule: &Rule<'_>) -> Result<(), AllocError>
    ensures { OnOk result (into.new.items ≡ into.old.items ++ rule_text (rule_value rule.now)) }
{
    put_years(into, rule)?;
    put(into, " -")?;
    put_moment(into, rule.month, rule.day, rule.time)?;
    put(into, " ")?;
    put_time(into, rule.time_to_add)?;
    put_field(into, letters_text(rule.letters))
}

/// Writes an end.
#[tactic(auto, using(std::proofs::Common::append_assoc), unfolding(crate::specs::PlainTexts::end_text))]
fn put_end(into: &mut Vec<u8>, end: ChangeTime) -> Result<(), AllocError>
    ensures { OnOk result (into.new.items ≡ into.old.items ++ end_text end) }
{
    put(into, " ")?;
    match end {
        ChangeTime::UntilYear(year) => put_year(into, year)?,
        ChangeTime::UntilMonth(year, month) => {
            put_year(into, year)?;
            put_field(into, month_text(month))?;
        }
        ChangeTime::UntilDay(year, month, day) => {
            put_year(into, year)?;
            put_field(into, month_text(month))?;
            put(into, " ")?;
            put_day(into, day)?;
        }
        ChangeTime::UntilTime(year, month, day, time) => {
            put_year(into, year)?;
            put_moment(into, month, day, time)?;
        }
    }
    Ok(())
}

/// Writes an offset, what is added to it, and a format.
#[tactic(auto, using(std::proofs::Common::append_assoc), unfolding(crate::specs::PlainTexts::stretch_text))]
fn put_stretch(into: &mut Vec<u8>, info: &ZoneInfo<'_>) -> Result<(), AllocError>
    ensures { OnOk result (into.new.items ≡ into.old.items ++ stretch_text (info_value info.now)) }
{
    put(into, " ")?;
    put_time(into, info.utc_offset)?;
    put(into, " ")?;
    put_saving(into, &info.saving)?;
    put_field(into, info.format)
}

/// Writes what a zone's line says of a stretch of time.
#[tactic(auto, using(std::proofs::Common::append_assoc), unfolding(crate::specs::PlainTexts::info_text))]
fn put_info(into: &mut Vec<u8>, info: &ZoneInfo<'_>) -> Result<(), AllocError>
    ensures { OnOk result (into.new.items ≡ into.old.items ++ info_text (info_value info.now)) }
{
    put_stretch(into, info)?;
    match info.time {
        Some(end) => put_end(into, end)?,
        None => (),
    }
    Ok(())
}

/// Writes the plain text of what a line means, without a line feed.
///
/// # Errors
///
/// Want of memory alone.
#[tactic(auto, using(std::proofs::Common::append_assoc), unfolding(crate::specs::PlainTexts::plain_text))]
pub fn put_plain(into: &mut Vec<u8>, line: &Line<'_>) -> Result<(), AllocError>
    ensures { OnOk result (into.new.items ≡ into.old.items ++ plain_text (line_value line.now)) }
{
    match line {
        Line::Space => (),
        Line::Zone(zone) => {
            put(into, "Zone")?;
            put_field(into, zone.name)?;
            put_info(into, &zone.info)?;
        }
        Line::Continuation(info) => put_info(into, info)?,
        Line::Rule(rule) => put_rule(into, rule)?,
        Line::Link(link) => {
            put(into, "Link")?;
            put_field(into, link.existing)?;
            put_field(into, link.new)?;
        }
    }
    Ok(())
}
