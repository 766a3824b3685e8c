//! The columns of lines, and what the lines mean.
ghost use Rattle.std.specs.Prelude.{◌≡◌, option_map, ◌≤◌, length};
ghost use Rattle.zone_table.specs.Values.{saving_value, line_value, link, rule_value, info_value};
ghost use Rattle.zone_plain_lines.specs.Steps.{shown_by};
ghost use Rattle.zone_plain_lines.specs.Columns.{column, texts, numbered_year, year_of, to_of, is_after, years_of, type_of, begins_number, begins_white, ruleset_name, zone_name, saving_of, is_filled, is_letter, has_byte, is_format, letters_of};
ghost use Rattle.zone_plain_lines.specs.Meanings.{offset_of, save_of, moment_of, end_of, end_at, info_of, rule_of, link_of, meaning, first_line_of, is_ruled};

use crate::cause::PlainCause;
use crate::clock::{amount_of, amount_spec, at_of, clock_spec, day_of, if_there, saved};
use crate::quotes::is_white;
use crate::words::{LineWord, from_word, line_word, month_of, to_word};
use basics::{cut, has_parts, i64_in};
use zone_table::{
    ChangeTime, DaySpec, Line, LineInfo as ZoneInfo, LineSaving as Saving, Link, Month, Rule,
    TimeSpec, TimeSpecAndType, Year, Zone,
};

/// The field at a place, which counts from 0; nothing past the end.
pub(crate) fn column<'a>(fields: &[&'a str], place: usize) -> &'a str
    ensures { result.now ≡ column (texts fields.now) place }
{
    match fields.get(place) {
        Some(field) => field,
        None => "",
    }
}

/// A year by its number, which is a whole one.
#[tactic(auto, unfolding(crate::specs::Columns::numbered_year))]
fn numbered_year(text: &str) -> Result<Year, PlainCause>
    ensures { result ≡ numbered_year text.now }
{
    match i64_in(text) {
        Some(number) => Ok(Year::Number(number)),
        None => Err(PlainCause::Year),
    }
}

/// A year: a word or a number.
#[tactic(auto, unfolding(crate::specs::Columns::year_of))]
pub(crate) fn year_of(text: &str) -> Result<Year, PlainCause>
    ensures { result ≡ year_of text.now }
{
    match from_word(text) {
        Some(year) => Ok(year),
        None => numbered_year(text),
    }
}

/// The last year of a rule: `only` is none of its own.
#[tactic(auto, unfolding(crate::specs::Columns::to_of))]
fn to_of(text: &str) -> Result<Option<Year>, PlainCause>
    ensures { result ≡ to_of text.now }
{
    if let Some(last) = to_word(text) {
        return Ok(last);
    }
    let year = numbered_year(text)?;
    Ok(Some(year))
}

/// Whether the one year is after the other.
pub(crate) fn is_after(one: Year, other: Year) -> bool
    ensures { result ≡ is_after one other }
{
    match other {
        Year::Minimum => match one {
            Year::Minimum => false,
            Year::Number(_) | Year::Maximum => true,
        },
        Year::Number(last) => match one {
            Year::Minimum => false,
            Year::Number(first) => last < first,
            Year::Maximum => true,
        },
        Year::Maximum => false,
    }
}

/// The years of a rule: FROM isn't after TO.
#[tactic(auto, unfolding(crate::specs::Columns::years_of))]
pub(crate) fn years_of(from: &str, to: &str) -> Result<(Year, Option<Year>), PlainCause>
    ensures { result ≡ years_of from.now to.now }
{
    let from = year_of(from)?;
    let to = to_of(to)?;
    match to {
        Some(last) if is_after(from, last) => Err(PlainCause::YearOrder),
        _ => Ok((from, to)),
    }
}

/// Refuses a TYPE other than a hyphen.
pub(crate) fn type_of(text: &str) -> Result<(), PlainCause>
    ensures { result ≡ type_of text.now }
{
    if text == "-" {
        Ok(())
    } else {
        Err(PlainCause::Type)
    }
}

/// Whether the text begins with a digit, a hyphen or a plus.
fn begins_number(text: &[u8]) -> bool
    ensures { result ≡ begins_number text.now }
{
    match text {
        [first, ..] => first.is_ascii_digit() || *first == b'-' || *first == b'+',
        [] => true,
    }
}

/// Whether white space comes first, as it can within quotes.
fn begins_white(text: &[u8]) -> bool
    ensures { result ≡ begins_white text.now }
{
    match text {
        [first, ..] => is_white(*first),
        [] => false,
    }
}

/// The name of a ruleset, which doesn't begin as a number does, nor with white space.
#[tactic(auto, unfolding(crate::specs::Columns::ruleset_name))]
pub(crate) fn ruleset_name(text: &str) -> Result<&str, PlainCause>
    ensures { shown_by (λ name. name.now) result ≡ ruleset_name text.now }
{
    if begins_number(text.as_bytes()) || begins_white(text.as_bytes()) {
        Err(PlainCause::RulesetName)
    } else {
        Ok(text)
    }
}

/// The name of a zone, or the new name of a link, which is the path of a file; `-` is none.
#[tactic(auto, unfolding(crate::specs::Columns::zone_name))]
pub(crate) fn zone_name(text: &str) -> Result<&str, PlainCause>
    ensures { shown_by (λ name. name.now) result ≡ zone_name text.now }
{
    if text == "-" || !has_parts(text.as_bytes()) {
        Err(PlainCause::Name)
    } else {
        Ok(text)
    }
}

/// What is added to the standard offset: a hyphen and 0 are nothing, what begins as a number is an amount, and all else is the name
/// of a ruleset.
#[tactic(auto, unfolding(crate::specs::Columns::saving_of))]
pub(crate) fn saving_of(text: &str) -> Result<Saving<'_>, PlainCause>
    ensures { shown_by saving_value result ≡ saving_of text.now }
{
    if text == "-" {
        return Ok(Saving::NoSaving);
    }
    if !begins_number(text.as_bytes()) {
        return Ok(Saving::Multiple(text));
    }
    let amount = saved(text)?;
    if amount.seconds == 0 {
        Ok(Saving::NoSaving)
    } else {
        Ok(Saving::OneOff(clock_spec(amount)))
    }
}

/// Whether what stands before a `%` and after it makes a format: an `s` under a ruleset, or a `z`, and no further `%` and no slash.
fn is_filled(is_ruled: bool, before: &str, after: &str) -> bool
    ensures { result ≡ is_filled is_ruled before.now after.now }
{
    is_letter(is_ruled, after.as_bytes())
        && !has_byte(b'%', after.as_bytes())
        && !has_byte(b'/', before.as_bytes())
        && !has_byte(b'/', after.as_bytes())
}

/// Whether the text begins with `z`, or with `s` under a ruleset.
fn is_letter(is_ruled: bool, text: &[u8]) -> bool
    ensures { result ≡ is_letter is_ruled text.now }
{
    match text {
        [first, ..] => *first == b'z' || *first == b's' && is_ruled,
        [] => false,
    }
}

/// Whether the byte stands somewhere in the text.
fn has_byte(byte: u8, text: &[u8]) -> bool
    ensures { result ≡ has_byte byte text.now }
{
    text.contains(&byte)
}

/// Whether the text is a format under a ruleset or none.
#[tactic(auto, unfolding(crate::specs::Columns::is_format))]
pub(crate) fn is_format(is_ruled: bool, text: &str) -> bool
    ensures { result ≡ is_format is_ruled text.now }
{
    if text == "-" {
        return false;
    }
    match cut('%', text) {
        Some((before, after)) => is_filled(is_ruled, before, after),
        None => true,
    }
}

/// The letters of a rule: a hyphen is none.
pub(crate) fn letters_of(text: &str) -> Option<&str>
    ensures { option_map (λ letters. letters.now) result ≡ letters_of text.now }
{
    if text == "-" { None } else { Some(text) }
}

/// A standard offset.
#[tactic(auto, unfolding(crate::specs::Meanings::offset_of))]
fn offset_of(text: &str) -> Result<TimeSpec, PlainCause>
    ensures { result ≡ offset_of text.now }
{
    let amount = amount_of(text)?;
    Ok(amount_spec(amount))
}

/// The saving of a rule.
#[tactic(auto, unfolding(crate::specs::Meanings::save_of))]
fn save_of(text: &str) -> Result<TimeSpec, PlainCause>
    ensures { result ≡ save_of text.now }
{
    let amount = saved(text)?;
    Ok(amount_spec(amount))
}

/// The month, the day and the time of a rule, whose day each of its years has to have.
#[tactic(auto, unfolding(crate::specs::Meanings::moment_of))]
fn moment_of(
    first: Year,
    last: Option<Year>,
    month: &str,
    on: &str,
    at: &str,
) -> Result<(Month, DaySpec, TimeSpecAndType), PlainCause>
    ensures { result ≡ moment_of first last month.now on.now at.now }
{
    let month = month_of(month)?;
    let day = day_of(month, on)?;
    if_there(first, last, month, day)?;
    let time = at_of(at)?;
    Ok((month, day, time))
}

/// A Rule line, by its ten fields.
#[tactic(auto, unfolding(crate::specs::Meanings::rule_of))]
fn rule_of<'a>(fields: &[&'a str]) -> Result<Rule<'a>, PlainCause>
    ensures { shown_by rule_value result ≡ rule_of (texts fields.now) }
{
    if fields.len() != 10 {
        return Err(PlainCause::FieldCount);
    }
    let name = ruleset_name(column(fields, 1))?;
    let (from_year, to_year) = years_of(column(fields, 2), column(fields, 3))?;
    type_of(column(fields, 4))?;
    let (month, day, time) = moment_of(
        from_year,
        to_year,
        column(fields, 5),
        column(fields, 6),
        column(fields, 7),
    )?;
    let time_to_add = save_of(column(fields, 8))?;
    let letters = letters_of(column(fields, 9));
    Ok(Rule {
        name,
        from_year,
        to_year,
        month,
        day,
        time,
        time_to_add,
        letters,
    })
}

/// The end of a zone's line, by as many fields as are left from a place on.
#[tactic(auto, unfolding(crate::specs::Meanings::end_at))]
fn end_at(fields: &[&str], from: usize, count: usize) -> Result<ChangeTime, PlainCause>
    requires { from ≤ 1_000 }
    ensures { result ≡ end_at (texts fields.now) from count }
{
    let year = year_of(column(fields, from))?;
    if count == 1 {
        return Ok(ChangeTime::UntilYear(year));
    }
    let month = month_of(column(fields, from + 1))?;
    if count == 2 {
        return Ok(ChangeTime::UntilMonth(year, month));
    }
    let day = day_of(month, column(fields, from + 2))?;
    if_there(year, None, month, day)?;
    if count == 3 {
        return Ok(ChangeTime::UntilDay(year, month, day));
    }
    let time = at_of(column(fields, from + 3))?;
    Ok(ChangeTime::UntilTime(year, month, day, time))
}

/// The end of a zone's line, where it has one.
#[tactic(auto, unfolding(crate::specs::Meanings::end_of))]
fn end_of(fields: &[&str], from: usize, count: usize) -> Result<Option<ChangeTime>, PlainCause>
    requires { from ≤ 1_000 }
    ensures { result ≡ end_of (texts fields.now) from count }
{
    if count == 0 {
        return Ok(None);
    }
    let end = end_at(fields, from, count)?;
    Ok(Some(end))
}

/// Whether a ruleset is named.
fn is_ruled(saving: &Saving<'_>) -> bool
    ensures { result ≡ is_ruled (saving_value saving.now) }
{
    match saving {
        Saving::Multiple(_) => true,
        Saving::NoSaving | Saving::OneOff(_) => false,
    }
}

/// What a zone's line says of a stretch of time, by its fields from a place on: three, and up to four of an end.
#[tactic(auto, unfolding(crate::specs::Meanings::info_of))]
fn info_of<'a>(fields: &[&'a str], from: usize) -> Result<ZoneInfo<'a>, PlainCause>
    requires { from ≤ 2 }
    ensures { shown_by info_value result ≡ info_of (texts fields.now) from }
{
    if fields.len() < from + 3 || from + 7 < fields.len() {
        return Err(PlainCause::FieldCount);
    }
    let utc_offset = offset_of(column(fields, from))?;
    let saving = saving_of(column(fields, from + 1))?;
    let format = column(fields, from + 2);
    if !is_format(is_ruled(&saving), format) {
        return Err(PlainCause::Format);
    }
    let time = end_of(fields, from + 3, fields.len() - (from + 3))?;
    Ok(ZoneInfo {
        utc_offset,
        saving,
        format,
        time,
    })
}

/// A Link line, by its three fields.
#[tactic(auto, unfolding(crate::specs::Meanings::link_of))]
fn link_of<'a>(fields: &[&'a str]) -> Result<Link<'a>, PlainCause>
    ensures { shown_by (λ l. link l.existing.now l.new.now) result ≡ link_of (texts fields.now) }
{
    if fields.len() != 3 {
        return Err(PlainCause::FieldCount);
    }
    let new = zone_name(column(fields, 2))?;
    Ok(Link {
        existing: column(fields, 1),
        new,
    })
}

/// A line that doesn't continue a zone, by its fields.
#[tactic(auto, unfolding(crate::specs::Meanings::first_line_of))]
fn first_line_of<'a>(fields: &[&'a str]) -> Result<Line<'a>, PlainCause>
    ensures { shown_by line_value result ≡ first_line_of (texts fields.now) }
{
    match line_word(column(fields, 0))? {
        LineWord::Rule => {
            let rule = rule_of(fields)?;
            Ok(Line::Rule(rule))
        }
        LineWord::Zone => {
            let info = info_of(fields, 2)?;
            let name = zone_name(column(fields, 1))?;
            Ok(Line::Zone(Zone { name, info }))
        }
        LineWord::Link => {
            let link = link_of(fields)?;
            Ok(Line::Link(link))
        }
    }
}

/// What a line means, by its fields: a blank line nothing; after a zone's line with an end the next line of the zone,
/// whatever its first word; and elsewhere what its first word says.
///
/// # Errors
///
/// The first cause of the line's columns, from the left.
#[tactic(auto, unfolding(crate::specs::Meanings::meaning))]
pub fn meaning<'a>(is_continued: bool, fields: &[&'a str]) -> Result<Line<'a>, PlainCause>
    ensures { shown_by line_value result ≡ meaning is_continued (texts fields.now) }
{
    if fields.is_empty() {
        return Ok(Line::Space);
    }
    if is_continued {
        let info = info_of(fields, 0)?;
        return Ok(Line::Continuation(info));
    }
    first_line_of(fields)
}
