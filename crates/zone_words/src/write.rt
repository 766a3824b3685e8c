//! Times written for people, by RFC 3339 and as seconds.
ghost use Rattle.std.specs.Prelude.{◌≡◌, ◌++◌, ◌∷◌, [], ◌+◌, ◌*◌, ◌/◌, ◌%◌, ◌<◌, ◌≤◌, length, take, is_ok, ℤ, pos, int_lt, unsigned_abs, if◌then◌else◌};
ghost use Rattle.civil_base.specs.{DateTimes.{instant}, Clock.{nanosecond_of}, Ranges.{far_seconds}, Layout.{local_text, nine_digits, year_sign, date_digits, day_part, time_part, digit as digit_of}};
ghost use Rattle.basics.specs.Dates.{year_of};
ghost use Rattle.zone_words.specs.Written.{shortest, pointed, clock_text, moment_text, seconds_shown, offset_shown, people_text, rfc3339_text, epoch_text, seconds_text};

use civil_base::{OffsetDateTime, PlainDateTime, UtcOffset, write_local};
use itoa::Buffer;
use std::alloc::AllocError;

/// Writes the bytes at that place, and answers where they end.
fn put(into: &mut [u8], at: usize, bytes: &[u8]) -> usize
    requires { at + length bytes.now ≤ length into.old }
    ensures text { take result into.new ≡ take at into.old ++ bytes.now }
    ensures end { result ≡ at + length bytes.now }
{
    let end = at + bytes.len();
    into[at..end].copy_from_slice(bytes);
    end
}

/// The digits without the zeros at their end.
fn shortest(digits: &[u8]) -> &[u8]
    ensures value { result.now ≡ shortest digits.now }
    ensures bound { length result.now ≤ length digits.now }
{
    let mut kept = 0;
    for (place, digit) in digits.iter().enumerate() {
        if *digit != b'0' {
            kept = place + 1;
        }
    }
    &digits[..kept]
}

/// Writes a point and the digits that a fraction wants at that place, and answers where they end.
fn put_fraction(into: &mut [u8], at: usize, digits: &[u8]) -> usize
    requires room { at + 10 ≤ length into.old }
    requires nine { length digits.now ≡ 9 }
    ensures text { take result into.new ≡ take at into.old ++ pointed (shortest digits.now) }
    ensures end { result ≡ at + length (pointed (shortest digits.now)) }
    ensures bound { result ≤ at + 10 }
{
    let digits = shortest(digits);
    if digits.is_empty() {
        return at;
    }
    let after_point = put(into, at, b".");
    put(into, after_point, digits)
}

/// The date with the sign of its year, the hour to the second, and the nine digits of the fraction in a local text.
fn parts(text: &[u8]) -> (&[u8], &[u8], &[u8])
    requires { 29 ≤ length text.now }
    ensures date { (x : ℤ) → local_text x ≡ text.now → result.0.now ≡ year_sign (year_of (day_part x)) ++ date_digits (day_part x) }
    ensures clock { (x : ℤ) → local_text x ≡ text.now → result.1.now ≡ clock_text (time_part x) }
    ensures fraction { (x : ℤ) → local_text x ≡ text.now → result.2.now ≡ nine_digits (nanosecond_of (time_part x)) }
    ensures lengths { (length result.0.now + 19 ≡ length text.now) × (length result.1.now ≡ 8) × (length result.2.now ≡ 9) }
{
    let (date, time) = text.split_at(text.len() - 19);
    (date, &time[1..9], &time[10..])
}

/// Writes a local time at the front, with that byte between date and time, and answers where it ends.
fn put_moment(into: &mut [u8], local: &PlainDateTime, separator: u8) -> usize
    requires { 30 ≤ length into.old }
    ensures text { take result into.new ≡ moment_text separator local.now }
    ensures bound { result ≤ 30 }
{
    let mut text = [0; 30];
    let end = write_local(local, &mut text);
    let (date, clock, digits) = parts(&text[..end]);
    let after_date = put(into, 0, date);
    let after_separator = put(into, after_date, &[separator]);
    let after_second = put(into, after_separator, clock);
    put_fraction(into, after_second, digits)
}

/// The decimal digit at the place of that power of ten, as ASCII.
fn digit(number: u32, place: u32) -> u8
    requires { 0 < place }
    ensures { result ≡ digit_of number place }
{
    b'0' + (number / place % 10) as u8
}

fn nine_digits(number: u32) -> [u8; 9]
    ensures { result ≡ nine_digits number }
{
    [
        digit(number, 100_000_000),
        digit(number, 10_000_000),
        digit(number, 1_000_000),
        digit(number, 100_000),
        digit(number, 10_000),
        digit(number, 1000),
        digit(number, 100),
        digit(number, 10),
        digit(number, 1),
    ]
}

fn sign_of(offset: UtcOffset) -> u8
    ensures { result ≡ (if int_lt offset (pos 0) then 45 else 43) }
{
    if offset.is_negative() { b'-' } else { b'+' }
}

/// Writes an offset at that place, and answers where it ends.
fn put_offset(into: &mut [u8], at: usize, offset: UtcOffset) -> usize
    requires { at + 9 ≤ length into.old }
    ensures text { take result into.new ≡ take at into.old ++ offset_shown offset }
    ensures bound { result ≤ at + 9 }
{
    let size = offset.whole_seconds().unsigned_abs();
    let (hours, minutes, seconds) = (size / 3600, size / 60 % 60, size % 60);
    let parts = [
        sign_of(offset),
        digit(hours, 10),
        digit(hours, 1),
        b':',
        digit(minutes, 10),
        digit(minutes, 1),
    ];
    let end = put(into, at, &parts);
    put_seconds(into, end, seconds)
}

/// Writes a colon and seconds at that place, or nothing where they are 0, and answers where they end.
fn put_seconds(into: &mut [u8], at: usize, seconds: u32) -> usize
    requires { at + 3 ≤ length into.old }
    ensures text { take result into.new ≡ take at into.old ++ seconds_shown seconds }
    ensures bound { result ≤ at + 3 }
{
    if seconds == 0 {
        return at;
    }
    put(into, at, &[b':', digit(seconds, 10), digit(seconds, 1)])
}

/// Adds a local time to a text, as `2024-10-27 02:30:00`, with a fraction only where it isn't 0.
///
/// # Errors
///
/// Want of memory alone. The text is as before then.
pub fn add_local(into: &mut Vec<u8>, local: &PlainDateTime) -> Result<(), AllocError>
    ensures items { into.new.items ≡ (if is_ok result then into.old.items ++ moment_text 32 local.now else into.old.items) }
{
    let mut text = [0; 30];
    let end = put_moment(&mut text, local, b' ');
    into.extend_from_slice(&text[..end])
}

/// Adds an offset to a text, as `+02:00`, with its seconds only where they aren't 0.
///
/// # Errors
///
/// Want of memory alone. The text is as before then.
pub fn add_offset(into: &mut Vec<u8>, offset: UtcOffset) -> Result<(), AllocError>
    ensures items { into.new.items ≡ (if is_ok result then into.old.items ++ offset_shown offset else into.old.items) }
{
    let mut text = [0; 9];
    let end = put_offset(&mut text, 0, offset);
    into.extend_from_slice(&text[..end])
}

/// Adds a local time and its offset to a text by RFC 3339, as `2024-10-27T02:30:00+02:00`. Two values have texts that RFC 3339
/// lacks: a year below 0 has a `-`, and an offset that isn't of whole minutes has its seconds, as `+00:09:21`.
///
/// # Errors
///
/// Want of memory alone. The text is as before then.
#[tactic(auto, unfolding(crate::specs::Written::rfc3339_text))]
pub fn add_rfc3339(
    into: &mut Vec<u8>,
    local: &PlainDateTime,
    offset: UtcOffset,
) -> Result<(), AllocError>
    ensures items { into.new.items ≡ (if is_ok result then into.old.items ++ rfc3339_text local.now offset else into.old.items) }
{
    let mut text = [0; 39];
    let after_time = put_moment(&mut text, local, b'T');
    let end = put_offset(&mut text, after_time, offset);
    into.extend_from_slice(&text[..end])
}

/// Adds a local time, its offset and a name to a text for people, as `2024-10-27 02:30:00 +02:00 CEST`.
///
/// # Errors
///
/// Want of memory alone. The text is as before then.
#[tactic(auto, unfolding(crate::specs::Written::people_text))]
pub fn add_people(
    into: &mut Vec<u8>,
    local: &PlainDateTime,
    offset: UtcOffset,
    name: &str,
) -> Result<(), AllocError>
    ensures items { into.new.items ≡ (if is_ok result then into.old.items ++ people_text local.now offset name.now else into.old.items) }
{
    let mut text = [0; 41];
    let after_time = put_moment(&mut text, local, b' ');
    let after_space = put(&mut text, after_time, b" ");
    let after_offset = put_offset(&mut text, after_space, offset);
    let end = put(&mut text, after_offset, b" ");
    add_both(into, &text[..end], name.as_bytes())
}

/// Adds two pieces to a text, or neither.
fn add_both(into: &mut Vec<u8>, first: &[u8], second: &[u8]) -> Result<(), AllocError>
    ensures { into.new.items ≡ (if is_ok result then into.old.items ++ (first.now ++ second.now) else into.old.items) }
{
    let before = into.len();
    into.extend_from_slice(first)?;
    let added = into.extend_from_slice(second);
    if added.is_err() {
        into.truncate(before);
    }
    added
}

/// Adds an instant to a text as its seconds since 1970 UTC, as `@1729989000`, with a fraction only where it isn't 0.
///
/// # Errors
///
/// Want of memory alone. The text is as before then.
#[tactic(auto, unfolding(crate::specs::Written::epoch_text, crate::specs::Written::seconds_text))]
pub fn add_epoch(into: &mut Vec<u8>, value: &OffsetDateTime) -> Result<(), AllocError>
    ensures items { into.new.items ≡ (if is_ok result then into.old.items ++ epoch_text (instant value.now) else into.old.items) }
{
    let mut text = [0; 52];
    let after_mark = put(&mut text, 0, b"@");
    let end = put_count(&mut text, after_mark, value);
    into.extend_from_slice(&text[..end])
}

/// Adds an instant to a text as its seconds since 1970 UTC, as `1729989000`, with a fraction only where it isn't 0.
///
/// # Errors
///
/// Want of memory alone. The text is as before then.
pub fn add_seconds(into: &mut Vec<u8>, value: &OffsetDateTime) -> Result<(), AllocError>
    ensures items { into.new.items ≡ (if is_ok result then into.old.items ++ seconds_text (instant value.now) else into.old.items) }
{
    let mut text = [0; 51];
    let end = put_count(&mut text, 0, value);
    into.extend_from_slice(&text[..end])
}

/// Writes the seconds at that place, and answers where they end.
#[tactic(auto, using(std::proofs::Common::append_assoc), unfolding(crate::specs::Written::seconds_text, crate::specs::Written::fraction_text))]
fn put_count(into: &mut [u8], at: usize, value: &OffsetDateTime) -> usize
    requires { at + 51 ≤ length into.old }
    ensures text { take result into.new ≡ take at into.old ++ seconds_text (instant value.now) }
    ensures bound { result ≤ at + 51 }
{
    let nanos = value.unix_timestamp_nanos();
    let (seconds, nanosecond) = parted(nanos.unsigned_abs());
    let after_sign = put(into, at, count_sign(nanos));
    let after_seconds = put(into, after_sign, Buffer::new().format(seconds).as_bytes());
    put_fraction(into, after_seconds, &nine_digits(nanosecond))
}

/// The seconds and the nanoseconds past them.
fn parted(size: u128) -> (u64, u32)
    requires { size ≤ far_seconds * 1000000000 }
    ensures seconds { result.0 ≡ size / 1000000000 }
    ensures nanoseconds { result.1 ≡ size % 1000000000 }
{
    ((size / 1_000_000_000) as u64, (size % 1_000_000_000) as u32)
}

/// What stands before the digits.
fn count_sign(nanos: i128) -> &'static [u8]
    ensures value { result.now ≡ (if int_lt nanos (pos 0) then 45 ∷ [] else []) }
    ensures bound { length result.now ≤ 1 }
{
    if nanos < 0 { b"-" } else { b"" }
}
