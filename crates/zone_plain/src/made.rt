//! The rulesets that are made, their names, and the text that stands for `%z`.
ghost use Rattle.std.specs.{Prelude.{◌≡◌, [], ◌∷◌, map, flat_map, IfOk, ◌<◌, ◌++◌, decimal, string_bytes, OnOk, ◌+◌, ◌+ℤ◌, true, Some, None, if◌then◌else◌}, List.{list_all}};
ghost use Rattle.zone_table.specs.{Values.{line_value, rule_value, rule}, Seconds.{seconds_of}};
ghost use Rattle.zone_plain.specs.{Made.{made_rule, is_rule_said, renamed}, ToldOffsets.{IsAdded, AreAdded, value_in, made_lines, is_made_said}, MadeNames.{letter, made_name}, OffsetTexts.{seconds_text, minutes_text, offset_text, has_text}};
ghost use Rattle.zone_plain_lines.specs.PlainTexts.{two_digits};

use crate::offsets::line_in;
use crate::parts::put_text;
use itoa::Buffer;
use std::alloc::{AllocError, Global};
use zone_line::{Line, LineReader, Rule};
use zone_plain_lines::write_said;
use zone_table::TimeSpec;

/// Whether a total has a text: its hours have two digits.
pub(crate) fn has_text(total: i64) -> bool
    ensures { result ≡ has_text total }
{
    total.unsigned_abs() < 360_000
}

/// The sum of an offset and a saving, where it has a text.
fn named_total(offset: i64, saving: TimeSpec) -> Option<i64>
    ensures { result ≡ (if has_text (offset +ℤ seconds_of saving) then Some (offset +ℤ seconds_of saving) else None) }
{
    let total = offset.checked_add(saving.as_seconds())?;
    if has_text(total) { Some(total) } else { None }
}

/// A digit.
fn digit(number: u64) -> char
    requires { number < 10 }
    ensures digit { result ≡ 48 + number }
    ensures ascii { result < 128 }
{
    char::from(b'0' + number as u8)
}

/// Writes a number in two digits.
fn put_two(into: &mut String, number: u64) -> Result<(), AllocError>
    requires { number < 100 }
    ensures { OnOk result (string_bytes into.new ≡ string_bytes into.old ++ two_digits number) }
{
    into.push(digit(number / 10))?;
    into.push(digit(number % 10))?;
    Ok(())
}

/// Writes seconds, where they aren't 0.
fn put_seconds(into: &mut String, seconds: u64) -> Result<(), AllocError>
    requires { seconds < 100 }
    ensures { OnOk result (string_bytes into.new ≡ string_bytes into.old ++ seconds_text seconds) }
{
    if seconds == 0 {
        return Ok(());
    }
    put_two(into, seconds)
}

/// Writes minutes, and seconds where they aren't 0; nothing at 0.
#[tactic(auto, using(std::proofs::Common::append_assoc))]
fn put_minutes(into: &mut String, seconds: u64) -> Result<(), AllocError>
    requires { seconds < 3_600 }
    ensures { OnOk result (string_bytes into.new ≡ string_bytes into.old ++ minutes_text seconds) }
{
    if seconds == 0 {
        return Ok(());
    }
    put_two(into, seconds / 60)?;
    put_seconds(into, seconds % 60)
}

/// Writes a sign and hours.
#[tactic(auto, using(std::proofs::Common::append_assoc))]
fn put_hours(into: &mut String, is_negative: bool, hours: u64) -> Result<(), AllocError>
    requires { hours < 100 }
    ensures { OnOk result (string_bytes into.new ≡ string_bytes into.old ++ (if is_negative then 45 else 43) ∷ two_digits hours) }
{
    into.push(if is_negative { '-' } else { '+' })?;
    put_two(into, hours)
}

/// The text of a total in seconds: `+hh`, `+hhmm` or `+hhmmss`, the shortest that says all.
#[tactic(auto, using(std::proofs::Common::append_assoc), unfolding(crate::specs::OffsetTexts::offset_text))]
pub(crate) fn offset_text(alloc: Global, total: i64) -> Result<String, AllocError>
    requires { has_text total ≡ true }
    ensures { IfOk result (λ text. string_bytes text ≡ offset_text total) }
{
    let size = total.unsigned_abs();
    let mut text = String::new(alloc);
    put_hours(&mut text, total < 0, size / 3_600)?;
    put_minutes(&mut text, size % 3_600)?;
    Ok(text)
}

/// The byte of a digit as a letter from a to j.
fn letter(digit: u8) -> char
    ensures letter { result ≡ letter digit }
    ensures ascii { result < 128 }
{
    char::from(b'a' + digit % 16)
}

/// Writes digits as letters.
fn put_letters(into: &mut String, digits: &[u8]) -> Result<(), AllocError>
    ensures { OnOk result (string_bytes into.new ≡ string_bytes into.old ++ map letter digits.now) }
{
    for digit in digits {
        into.push(letter(*digit))?;
    }
    Ok(())
}

/// The name of the ruleset of that number, which counts from 0, behind a mark.
#[tactic(auto, unfolding(crate::specs::MadeNames::made_name))]
pub(crate) fn made_name(alloc: Global, mark: &str, number: usize) -> Result<String, AllocError>
    ensures { IfOk result (λ name. string_bytes name ≡ made_name mark.now number) }
{
    let mut name = String::new(alloc);
    name.push_str(mark)?;
    let mut digits = Buffer::new();
    put_letters(&mut name, digits.format(number).as_bytes())?;
    Ok(name)
}

/// Adds a line, if it can be said. Answers whether it can.
pub(crate) fn add_said(
    alloc: Global,
    reader: &mut LineReader<'_>,
    line: &Line<'_>,
    into: &mut Vec<u8>,
) -> Result<bool, AllocError>
    ensures { IfOk result (IsAdded into.old.items into.new.items (line_value line.now)) }
{
    let mut text = Vec::new(alloc);
    if !write_said(alloc, reader, line, &mut text)? {
        return Ok(false);
    }
    put_text(into, text.as_slice())?;
    Ok(true)
}

/// The rule under another name and with other letters.
fn renamed<'a>(old: &Rule<'_>, name: &'a str, letters: &'a str) -> Line<'a>
    ensures { line_value result ≡ rule (renamed (rule_value old.now) name.now letters.now) }
{
    Line::Rule(Rule {
        name,
        from_year: old.from_year,
        to_year: old.to_year,
        month: old.month,
        day: old.day,
        time: old.time,
        time_to_add: old.time_to_add,
        letters: Some(letters),
    })
}

/// Adds the rule that is made of a rule for an offset, under a name. Answers whether its total has a text and it can be said.
fn add_rule(
    alloc: Global,
    reader: &mut LineReader<'_>,
    old: &Rule<'_>,
    name: &str,
    offset: i64,
    made: &mut Vec<u8>,
) -> Result<bool, AllocError>
    ensures { IfOk result (AreAdded made.old.items made.new.items (rule (made_rule name.now offset (rule_value old.now)) ∷ [])
        (is_rule_said name.now offset (rule_value old.now))) }
{
    let total = match named_total(offset, old.time_to_add) {
        Some(total) => total,
        None => return Ok(false),
    };
    let letters = offset_text(alloc, total)?;
    add_said(alloc, reader, &renamed(old, name, letters.as_str()), made)
}

/// Adds the rule that is made of a line, if it is a rule.
fn add_line(
    alloc: Global,
    reader: &mut LineReader<'_>,
    line: &Line<'_>,
    name: &str,
    offset: i64,
    made: &mut Vec<u8>,
) -> Result<bool, AllocError>
    ensures { IfOk result (AreAdded made.old.items made.new.items (made_lines name.now offset (line_value line.now)) (is_made_said name.now offset (line_value line.now))) }
{
    match line {
        Line::Rule(rule) => add_rule(alloc, reader, rule, name, offset, made),
        Line::Space | Line::Zone(_) | Line::Continuation(_) | Line::Link(_) => Ok(true),
    }
}

/// Adds the rules that are made of the rules at some places for an offset, under a name. Answers whether each can be said.
pub(crate) fn add_rules(
    alloc: Global,
    reader: &mut LineReader<'_>,
    lines: &[Line<'_>],
    places: &[usize],
    name: &str,
    offset: i64,
    made: &mut Vec<u8>,
) -> Result<bool, AllocError>
    ensures { IfOk result (AreAdded made.old.items made.new.items (flat_map (made_lines name.now offset) (map (value_in (map line_value lines.now)) places.now))
        (list_all (is_made_said name.now offset) (map (value_in (map line_value lines.now)) places.now))) }
{
    for index in 0..places.len() {
        let line = line_in(lines, places[index]);
        if !add_line(alloc, reader, &line, name, offset, made)? {
            return Ok(false);
        }
    }
    Ok(true)
}
