//! The texts of candidates.
ghost use Rattle.std.specs.{Prelude.{◌≡◌, ◌++◌, codes, IsTrue, OnOk, IfOk, string_bytes}, Char.{is_ascii_alphabetic}, Fmt.{decimal}, List.{list_all}};
ghost use Rattle.zone_tail.specs.{Ready.{CanBeWritten, CanWriteRule}, Tails.{can_be_written}, Texts.{change_text, clock_text, is_plain, minute_text, name_text, offset_text, rule_text, saving_text, second_text, text_of, time_text, two_digits}};

use crate::candidate::Candidate;
use crate::rule::{Change, YearlyRule};
use itoa::Buffer;
use std::alloc::{AllocError, Global};

/// The fewest letters and the most of a name without brackets.
const FEWEST: usize = 3;

const MOST: usize = 16;

/// An hour, which the offset of daylight saving time is ahead where it isn't written, and 2:00, the time of a change where none is.
const HOUR: i64 = 3_600;

const TWO_HOURS: u32 = 7_200;

/// The text of a candidate, with the names of standard time and of daylight saving time.
#[tactic(auto, unfolding(crate::specs::Texts::text_of))]
pub(crate) fn candidate_text(
    alloc: Global,
    standard: &str,
    saving: &str,
    candidate: &Candidate,
) -> Result<String, AllocError>
    requires { CanBeWritten candidate.now }
    ensures { IfOk result (λ text. string_bytes text ≡ text_of standard.now saving.now candidate.now) }
{
    match candidate {
        Candidate::Fixed(total) => steady_text(alloc, standard, *total),
        Candidate::Ruled(rule) => ruled_text(alloc, standard, saving, rule),
    }
}

/// The string of standard time alone, by its name and its total, in seconds east of UTC and less than 25 hours in size.
///
/// # Errors
///
/// Want of memory alone.
pub fn steady_text(alloc: Global, name: &str, total: i64) -> Result<String, AllocError>
    requires { IsTrue (can_be_written total) }
    ensures { IfOk result (λ text. string_bytes text ≡ name_text name.now ++ offset_text total) }
{
    let mut text = String::new(alloc);
    add_name(&mut text, name)?;
    add_offset(&mut text, total)?;
    Ok(text)
}

/// The front of a string: standard and daylight saving time, each by its name and its total, in seconds east of UTC and less than 25 hours
/// in size.
///
/// # Errors
///
/// Want of memory alone.
pub fn totals_text(
    alloc: Global,
    standard_name: &str,
    standard: i64,
    saving_name: &str,
    saving: i64,
) -> Result<String, AllocError>
    requires standard { IsTrue (can_be_written standard) }
    requires saving { IsTrue (can_be_written saving) }
    ensures { IfOk result (λ text. string_bytes text ≡ name_text standard_name.now ++ offset_text standard
        ++ name_text saving_name.now ++ saving_text standard saving) }
{
    let mut text = String::new(alloc);
    add_name(&mut text, standard_name)?;
    add_offset(&mut text, standard)?;
    add_name(&mut text, saving_name)?;
    add_saving(&mut text, standard, saving)?;
    Ok(text)
}

/// That of a rule.
#[tactic(auto, using(std::proofs::Common::append_assoc))]
fn ruled_text(
    alloc: Global,
    standard: &str,
    saving: &str,
    rule: &YearlyRule,
) -> Result<String, AllocError>
    requires { CanWriteRule rule.now.standard rule.now.saving }
    ensures { IfOk result (λ text. string_bytes text ≡ name_text standard.now ++ offset_text rule.now.standard
        ++ name_text saving.now ++ saving_text rule.now.standard rule.now.saving ++ rule_text rule.now) }
{
    let mut text = totals_text(alloc, standard, rule.standard, saving, rule.saving)?;
    add_rule(&mut text, rule)?;
    Ok(text)
}

/// Whether a name is written without brackets.
fn is_plain(name: &str) -> bool
    ensures { result ≡ is_plain name.now }
{
    FEWEST <= name.len() && name.len() <= MOST && has_letters(name)
}

fn has_letters(name: &str) -> bool
    ensures { result ≡ list_all is_ascii_alphabetic name.now }
{
    name.as_bytes()
        .iter()
        .all(|byte| byte.is_ascii_alphabetic())
}

/// Adds a name, in brackets but where it has 3 to 16 letters and nothing else.
///
/// # Errors
///
/// Want of memory alone. A part may then be added.
#[tactic(auto, unfolding(crate::specs::Texts::name_text))]
pub fn add_name(text: &mut String, name: &str) -> Result<(), AllocError>
    ensures { OnOk result (string_bytes text.new ≡ string_bytes text.old ++ name_text name.now) }
{
    if is_plain(name) {
        add(text, name)
    } else {
        add(text, "<")?;
        add(text, name)?;
        add(text, ">")
    }
}

/// Adds an offset of so many seconds east of UTC, less than 25 hours in size, which POSIX writes as negative where it lies east.
///
/// # Errors
///
/// Want of memory alone. A part may then be added.
#[tactic(auto, unfolding(crate::specs::Texts::offset_text))]
pub fn add_offset(text: &mut String, east: i64) -> Result<(), AllocError>
    requires { IsTrue (can_be_written east) }
    ensures { OnOk result (string_bytes text.new ≡ string_bytes text.old ++ offset_text east) }
{
    let size = east.unsigned_abs() as u32;
    if 0 < east {
        add(text, "-")?;
        add_time(text, size)
    } else {
        add_time(text, size)
    }
}

/// Adds the offset of daylight saving time, where it isn't an hour ahead of standard time; both in seconds east of UTC.
///
/// # Errors
///
/// Want of memory alone. A part may then be added.
#[tactic(auto, unfolding(crate::specs::Texts::saving_text))]
pub fn add_saving(text: &mut String, standard: i64, saving: i64) -> Result<(), AllocError>
    requires { CanWriteRule standard saving }
    ensures { OnOk result (string_bytes text.new ≡ string_bytes text.old ++ saving_text standard saving) }
{
    if saving == standard + HOUR {
        Ok(())
    } else {
        add_offset(text, saving)
    }
}

/// The start and the end of a rule.
#[tactic(auto, unfolding(crate::specs::Texts::rule_text))]
fn add_rule(text: &mut String, rule: &YearlyRule) -> Result<(), AllocError>
    ensures { OnOk result (string_bytes text.new ≡ string_bytes text.old ++ rule_text rule.now) }
{
    add(text, ",")?;
    add_change(text, &rule.start)?;
    add(text, ",")?;
    add_change(text, &rule.end)
}

/// Adds the date of a change, as `M3.5.0`: the month, which of its days with the weekday, and the weekday.
///
/// # Errors
///
/// Want of memory alone. A part may then be added.
pub fn add_date(text: &mut String, month: u8, week: u8, weekday: u8) -> Result<(), AllocError>
    ensures { OnOk result (string_bytes text.new ≡ string_bytes text.old
        ++ codes "M" ++ decimal month ++ codes "." ++ decimal week ++ codes "." ++ decimal weekday) }
{
    add(text, "M")?;
    add_number(text, u32::from(month))?;
    add(text, ".")?;
    add_number(text, u32::from(week))?;
    add(text, ".")?;
    add_number(text, u32::from(weekday))
}

#[tactic(auto, using(std::proofs::Common::append_assoc), unfolding(crate::specs::Texts::change_text))]
fn add_change(text: &mut String, change: &Change) -> Result<(), AllocError>
    ensures { OnOk result (string_bytes text.new ≡ string_bytes text.old ++ change_text change.now) }
{
    add_date(text, change.month, change.week, change.weekday)?;
    add_clock(text, change.second)
}

/// The time of a change, where it isn't 2:00.
fn add_clock(text: &mut String, second: u32) -> Result<(), AllocError>
    ensures { OnOk result (string_bytes text.new ≡ string_bytes text.old ++ clock_text second) }
{
    if second == TWO_HOURS {
        Ok(())
    } else {
        add(text, "/")?;
        add_time(text, second)
    }
}

/// Adds so many seconds as hours, and minutes and seconds as far as they are needed.
///
/// # Errors
///
/// Want of memory alone. A part may then be added.
#[tactic(auto, unfolding(crate::specs::Texts::time_text))]
pub fn add_time(text: &mut String, seconds: u32) -> Result<(), AllocError>
    ensures { OnOk result (string_bytes text.new ≡ string_bytes text.old ++ time_text seconds) }
{
    add_number(text, seconds / 3600)?;
    add_minute(text, seconds / 60 % 60, seconds % 60)
}

fn add_minute(text: &mut String, minute: u32, second: u32) -> Result<(), AllocError>
    ensures { OnOk result (string_bytes text.new ≡ string_bytes text.old ++ minute_text minute second) }
{
    if minute == 0 && second == 0 {
        Ok(())
    } else {
        add(text, ":")?;
        add_two_digits(text, minute)?;
        add_second(text, second)
    }
}

fn add_second(text: &mut String, second: u32) -> Result<(), AllocError>
    ensures { OnOk result (string_bytes text.new ≡ string_bytes text.old ++ second_text second) }
{
    if second == 0 {
        Ok(())
    } else {
        add(text, ":")?;
        add_two_digits(text, second)
    }
}

fn add_two_digits(text: &mut String, number: u32) -> Result<(), AllocError>
    ensures { OnOk result (string_bytes text.new ≡ string_bytes text.old ++ two_digits number) }
{
    if number < 10 {
        add(text, "0")?;
        add_number(text, number)
    } else {
        add_number(text, number)
    }
}

/// Adds a number in decimal digits.
///
/// # Errors
///
/// Want of memory alone.
pub fn add_number(text: &mut String, number: u32) -> Result<(), AllocError>
    ensures { OnOk result (string_bytes text.new ≡ string_bytes text.old ++ decimal number) }
{
    let mut buffer = Buffer::new();
    add(text, buffer.format(number))
}

/// Adds one text behind another.
///
/// # Errors
///
/// Want of memory alone.
pub fn add(text: &mut String, more: &str) -> Result<(), AllocError>
    ensures { OnOk result (string_bytes text.new ≡ string_bytes text.old ++ more.now) }
{
    text.push_str(more)
}
