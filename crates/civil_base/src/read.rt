//! Values written as texts, and read back from them.
//!
//! A local text is read exactly. A zoned text is read loosely, the value found is written, and the two texts are compared.
ghost use Rattle.std.specs.Prelude.{◌≡◌, ◌≢◌, ℕ, ℤ, ◌<◌, ◌≤◌, pos, ◌+ℤ◌, ◌*ℤ◌, int_lt, unsigned_abs, ◌+◌, ◌*◌, ◌/◌, ◌%◌, [], ◌∷◌, ◌++◌, List, length, slice_index, true, false, IfSome, IsSomeAnd, MatchOption, take, if◌then◌else◌};
ghost use Rattle.basics.specs.Dates.{year_of};
ghost use Rattle.civil_base.specs.{DateParts.{HasParts}, Clock.{nanos_per_day, hour_of, minute_of, second_of}, DateTimes.{offset_of, instant}, Instants.{local_at}, LocalTimes.{local_time_in}};
ghost use Rattle.civil_base.specs.{Layout.{local_text, zoned_text, day_part, time_part, date_digits, time_text, offset_text, two_digits, four_digits, nine_digits, year_sign, digit as digit_of}, Ranges.{IsDay, IsInYears, IsOffset}, ReadAs.{IsReadAs}};

use crate::utc_offset::signed;
use crate::{Date, Month, OffsetDateTime, PlainDateTime, Time, UtcOffset};

/// The date and time with the local text `YYYY-MM-DD hh:mm:ss.nnnnnnnnn`, with a `-` before a year below 0. There is none
/// exactly where the text is no such text: each value has one spelling, and nothing stands before or after it.
pub fn read_local(text: &str) -> Option<PlainDateTime>
    ensures value { result ≡ local_time_in text.now }
    ensures exact { MatchOption result ((x : ℤ) → IsInYears x → local_text x ≢ text.now)
        (λ value. local_text value ≡ text.now) }
    ensures years { IfSome result IsInYears }
    ensures only { IfSome result (λ value. (x : ℤ) → IsInYears x → local_text x ≡ text.now → x ≡ value) }
{
    value_with(text)
}

// The same, by what the text says of the value.
fn value_with(text: &str) -> Option<PlainDateTime>
    ensures exact { MatchOption result ((x : ℤ) → IsInYears x → local_text x ≢ text.now)
        (λ value. local_text value ≡ text.now) }
    ensures years { IfSome result IsInYears }
    ensures only { IfSome result (λ value. (x : ℤ) → IsInYears x → local_text x ≡ text.now → x ≡ value) }
{
    parse_local(text.as_bytes())
}

/// The date-time with the zoned text: a local text, a space and the offset as `+hh:mm:ss` or `-hh:mm:ss`. There is none
/// exactly where the text is no such text: each value has one spelling, and nothing stands before or after it.
pub fn read_zoned(text: &str) -> Option<OffsetDateTime>
    ensures exact { MatchOption result
        ((t o : ℤ) → IsInYears (local_at t o) → IsOffset o → zoned_text t o ≢ text.now)
        (λ value. IsReadAs text.now (instant value) (offset_of value)) }
    ensures all { (t o : ℤ) → IsReadAs text.now t o
        → IsSomeAnd result (λ value. (instant value ≡ t) × (offset_of value ≡ o)) }
{
    let bytes = text.as_bytes();
    let value = parse_zoned(bytes)?;
    let mut zoned = [0; 40];
    let end = write_zoned(&value, &mut zoned);
    if &zoned[..end] == bytes {
        Some(value)
    } else {
        None
    }
}

// The value whose zoned text this is; any value or none for another text.
fn parse_zoned(bytes: &[u8]) -> Option<OffsetDateTime>
    ensures found { (t o : ℤ) → IsInYears (local_at t o) → IsOffset o → zoned_text t o ≡ bytes.now
        → IsSomeAnd result (λ value. (instant value ≡ t) × (offset_of value ≡ o)) }
{
    if bytes.len() < 10 {
        return None;
    }
    let (local, offset) = bytes.split_at(bytes.len() - 10);
    let local = parse_local(local)?;
    let offset = parse_offset(offset)?;
    Some(local.assume_offset(offset))
}

// The value whose local text this is.
fn parse_local(bytes: &[u8]) -> Option<PlainDateTime>
    ensures found { (x : ℤ) → IsInYears x → local_text x ≡ bytes.now → result ≡ Some x }
    ensures spelled { IfSome result (λ x. local_text x ≡ bytes.now) }
    ensures years { IfSome result IsInYears }
{
    let (negative, unsigned) = split_sign(bytes);
    if unsigned.len() != 29 {
        return None;
    }
    let (date, time) = unsigned.split_at(10);
    let date = parse_date(negative, date)?;
    let time = parse_time(time)?;
    Some(joined(date, time))
}

// That date and time.
fn joined(date: Date, time: Time) -> PlainDateTime
    ensures value { result ≡ date *ℤ pos nanos_per_day +ℤ pos time }
    ensures day { day_part result ≡ date }
    ensures time { time_part result ≡ time }
    ensures years { IsInYears result }
{
    PlainDateTime::new(date, time)
}

// Whether the bytes begin with a `-`, and what follows it.
fn split_sign(bytes: &[u8]) -> (bool, &[u8])
    ensures minus { (rest : List ℕ) → bytes.now ≡ 45 ∷ rest → (result.0 ≡ true) × (result.1.now ≡ rest) }
    ensures none { slice_index bytes.now 0 ≢ 45 → (result.0 ≡ false) × (result.1.now ≡ bytes.now) }
    ensures both { bytes.now ≡ (if result.0 then 45 ∷ [] else []) ++ result.1.now }
{
    match bytes {
        [b'-', rest @ ..] => (true, rest),
        _ => (false, bytes),
    }
}

// The date of the bytes `YYYY-MM-DD`, whose year is below 0 or not.
fn parse_date(negative: bool, bytes: &[u8]) -> Option<Date>
    requires { length bytes.now ≡ 10 }
    ensures found { (k : ℤ) → IsDay k → int_lt (year_of k) (pos 0) ≡ negative → bytes.now ≡ date_digits k
        → result ≡ Some k }
    ensures spelled { IfSome result (λ k. (bytes.now ≡ date_digits k) × (int_lt (year_of k) (pos 0) ≡ negative)) }
{
    let year = four(bytes[0], bytes[1], bytes[2], bytes[3]);
    let month = two(bytes[5], bytes[6]);
    let day = two(bytes[8], bytes[9]);
    let marked = (bytes[4] == b'-') & (bytes[7] == b'-');
    if marked {
        date_with(negative, year, month, day)
    } else {
        None
    }
}

// The date with these parts, the year by its size.
fn date_with(negative: bool, size: u16, month: u8, day: u8) -> Option<Date>
    ensures found { (k : ℤ) → IsDay k → HasParts k negative size month day → result ≡ Some k }
    ensures parts { IfSome result (λ k. HasParts k negative size month day × IsDay k) }
{
    let is_minus_zero = negative & (size == 0);
    if is_minus_zero {
        return None;
    }
    let year = signed(negative, u32::from(size));
    let month = Month::try_from(month).ok()?;
    Date::from_calendar_date(year, month, day).ok()
}

// The time of the bytes ` hh:mm:ss.nnnnnnnnn`.
fn parse_time(bytes: &[u8]) -> Option<Time>
    requires { length bytes.now ≡ 19 }
    ensures found { (t : ℕ) → t < nanos_per_day → bytes.now ≡ 32 ∷ time_text t → result ≡ Some t }
    ensures spelled { IfSome result (λ t. bytes.now ≡ 32 ∷ time_text t) }
{
    let hour = two(bytes[1], bytes[2]);
    let minute = two(bytes[4], bytes[5]);
    let second = two(bytes[7], bytes[8]);
    let (_, rest) = bytes.split_at(10);
    let nano = nine(rest);
    let marked = (bytes[0] == b' ') & (bytes[3] == b':') & (bytes[6] == b':') & (bytes[9] == b'.');
    if marked {
        Time::from_hms_nano(hour, minute, second, nano).ok()
    } else {
        None
    }
}

// The offset of the bytes ` +hh:mm:ss` or ` -hh:mm:ss`; any offset or none for other bytes.
fn parse_offset(bytes: &[u8]) -> Option<UtcOffset>
    requires { length bytes.now ≡ 10 }
    ensures found { (o : ℤ) → IsOffset o → bytes.now ≡ 32 ∷ offset_text o → result ≡ Some o }
{
    let hours = two(bytes[2], bytes[3]);
    let minutes = two(bytes[5], bytes[6]);
    let seconds = two(bytes[8], bytes[9]);
    let size = (u32::from(hours) * 60 + u32::from(minutes)) * 60 + u32::from(seconds);
    UtcOffset::from_whole_seconds(signed(bytes[1] == b'-', size)).ok()
}

// The number of two digits, which is below 100; 100 or more where one of the bytes is no digit.
fn two(tens: u8, ones: u8) -> u8
    ensures value { (n : ℕ) → n < 100 → tens ≡ digit_of n 10 → ones ≡ digit_of n 1 → result ≡ n }
    ensures spelled { result < 100 → (tens ≡ digit_of result 10) × (ones ≡ digit_of result 1) }
{
    tens_value(tens) + ones_value(ones)
}

// Ten times the value of a digit; 100 for any other byte.
fn tens_value(byte: u8) -> u8
    ensures digit { (d : ℕ) → d < 10 → byte ≡ 48 + d → result ≡ 10 * d }
    ensures other { result < 100 → byte ≡ 48 + result / 10 }
    ensures whole { result % 10 ≡ 0 }
    ensures most { result ≤ 100 }
{
    TENS[byte as usize]
}

// The value of a digit; 100 for any other byte.
fn ones_value(byte: u8) -> u8
    ensures digit { (d : ℕ) → d < 10 → byte ≡ 48 + d → result ≡ d }
    ensures other { result < 100 → byte ≡ 48 + result }
    ensures one { result < 100 → result < 10 }
    ensures most { result ≤ 100 }
{
    ONES[byte as usize]
}

// Ten times the value of each byte that is a digit, and 100.
const TENS: &[u8] = b"\
    \x64\x64\x64\x64\x64\x64\x64\x64\x64\x64\x64\x64\x64\x64\x64\x64\
    \x64\x64\x64\x64\x64\x64\x64\x64\x64\x64\x64\x64\x64\x64\x64\x64\
    \x64\x64\x64\x64\x64\x64\x64\x64\x64\x64\x64\x64\x64\x64\x64\x64\
    \x00\x0a\x14\x1e\x28\x32\x3c\x46\x50\x5a\x64\x64\x64\x64\x64\x64\
    \x64\x64\x64\x64\x64\x64\x64\x64\x64\x64\x64\x64\x64\x64\x64\x64\
    \x64\x64\x64\x64\x64\x64\x64\x64\x64\x64\x64\x64\x64\x64\x64\x64\
    \x64\x64\x64\x64\x64\x64\x64\x64\x64\x64\x64\x64\x64\x64\x64\x64\
    \x64\x64\x64\x64\x64\x64\x64\x64\x64\x64\x64\x64\x64\x64\x64\x64\
    \x64\x64\x64\x64\x64\x64\x64\x64\x64\x64\x64\x64\x64\x64\x64\x64\
    \x64\x64\x64\x64\x64\x64\x64\x64\x64\x64\x64\x64\x64\x64\x64\x64\
    \x64\x64\x64\x64\x64\x64\x64\x64\x64\x64\x64\x64\x64\x64\x64\x64\
    \x64\x64\x64\x64\x64\x64\x64\x64\x64\x64\x64\x64\x64\x64\x64\x64\
    \x64\x64\x64\x64\x64\x64\x64\x64\x64\x64\x64\x64\x64\x64\x64\x64\
    \x64\x64\x64\x64\x64\x64\x64\x64\x64\x64\x64\x64\x64\x64\x64\x64\
    \x64\x64\x64\x64\x64\x64\x64\x64\x64\x64\x64\x64\x64\x64\x64\x64\
    \x64\x64\x64\x64\x64\x64\x64\x64\x64\x64\x64\x64\x64\x64\x64\x64\
";

// The value of each byte that is a digit, and 100.
const ONES: &[u8] = b"\
    \x64\x64\x64\x64\x64\x64\x64\x64\x64\x64\x64\x64\x64\x64\x64\x64\
    \x64\x64\x64\x64\x64\x64\x64\x64\x64\x64\x64\x64\x64\x64\x64\x64\
    \x64\x64\x64\x64\x64\x64\x64\x64\x64\x64\x64\x64\x64\x64\x64\x64\
    \x00\x01\x02\x03\x04\x05\x06\x07\x08\x09\x64\x64\x64\x64\x64\x64\
    \x64\x64\x64\x64\x64\x64\x64\x64\x64\x64\x64\x64\x64\x64\x64\x64\
    \x64\x64\x64\x64\x64\x64\x64\x64\x64\x64\x64\x64\x64\x64\x64\x64\
    \x64\x64\x64\x64\x64\x64\x64\x64\x64\x64\x64\x64\x64\x64\x64\x64\
    \x64\x64\x64\x64\x64\x64\x64\x64\x64\x64\x64\x64\x64\x64\x64\x64\
    \x64\x64\x64\x64\x64\x64\x64\x64\x64\x64\x64\x64\x64\x64\x64\x64\
    \x64\x64\x64\x64\x64\x64\x64\x64\x64\x64\x64\x64\x64\x64\x64\x64\
    \x64\x64\x64\x64\x64\x64\x64\x64\x64\x64\x64\x64\x64\x64\x64\x64\
    \x64\x64\x64\x64\x64\x64\x64\x64\x64\x64\x64\x64\x64\x64\x64\x64\
    \x64\x64\x64\x64\x64\x64\x64\x64\x64\x64\x64\x64\x64\x64\x64\x64\
    \x64\x64\x64\x64\x64\x64\x64\x64\x64\x64\x64\x64\x64\x64\x64\x64\
    \x64\x64\x64\x64\x64\x64\x64\x64\x64\x64\x64\x64\x64\x64\x64\x64\
    \x64\x64\x64\x64\x64\x64\x64\x64\x64\x64\x64\x64\x64\x64\x64\x64\
";

// The number of four digits, which is below 10,000; 10,000 or more where one of the bytes is no digit.
fn four(thousands: u8, hundreds: u8, tens: u8, ones: u8) -> u16
    ensures value { (n : ℕ) → n < 10000 → thousands ≡ digit_of n 1000 → hundreds ≡ digit_of n 100 → tens ≡ digit_of n 10
        → ones ≡ digit_of n 1 → result ≡ n }
    ensures spelled { result < 10000 → (thousands ≡ digit_of result 1000) × (hundreds ≡ digit_of result 100)
        × (tens ≡ digit_of result 10) × (ones ≡ digit_of result 1) }
{
    let (front, back) = (two(thousands, hundreds), two(tens, ones));
    let are_digits = (front < 100) & (back < 100);
    if are_digits {
        100 * u16::from(front) + u16::from(back)
    } else {
        u16::MAX
    }
}

// The number of nine digits, which is below 1,000,000,000; more where one of the bytes is no digit.
fn nine(digits: &[u8]) -> u32
    requires { length digits.now ≡ 9 }
    ensures value { (n : ℕ) → n < 1000000000 → digits.now ≡ nine_digits n → result ≡ n }
    ensures spelled { result < 1000000000 → digits.now ≡ nine_digits result }
{
    let front = four(digits[0], digits[1], digits[2], digits[3]);
    let back = four(digits[4], digits[5], digits[6], digits[7]);
    nine_of(front, back, digit_value(digits[8]))
}

// The number of four digits, four and one; 1,000,000,000 or more where one of the three is too large.
fn nine_of(front: u16, back: u16, last: u8) -> u32
    ensures value { front < 10000 → back < 10000 → last < 10 → result ≡ (front * 10000 + back) * 10 + last }
    ensures parts { result < 1000000000 → (front < 10000) × (back < 10000) × (last < 10) }
{
    let are_digits = (front < 10_000) & (back < 10_000) & (last < 10);
    if are_digits {
        (u32::from(front) * 10_000 + u32::from(back)) * 10 + u32::from(last)
    } else {
        u32::MAX
    }
}

// The value of a digit, which is below 10; 10 or more for any other byte.
fn digit_value(byte: u8) -> u8
    ensures value { (d : ℕ) → d < 10 → byte ≡ 48 + d → result ≡ d }
    ensures spelled { result < 10 → byte ≡ 48 + result }
{
    byte.wrapping_sub(b'0')
}

/// Writes the local text `YYYY-MM-DD hh:mm:ss.nnnnnnnnn` at the front of the array, and answers its length: 29 bytes, or
/// 30 with a `-` before a year below 0.
pub fn write_local(value: &PlainDateTime, into: &mut [u8; 30]) -> usize
    ensures text { take result into.new ≡ local_text value.now }
    ensures length { result ≡ length (local_text value.now) }
    ensures bound { result ≤ 30 }
    ensures years { IsInYears value.now }

    // No other value has this text.
    ensures only { (x : ℤ) → IsInYears x → local_text x ≡ local_text value.now → x ≡ value.now }
{
    put_local(into, *value)
}

/// Writes the local text, a space and the offset as `+hh:mm:ss` or `-hh:mm:ss` at the front of the array, and answers
/// the length: 39 bytes, or 40 with a `-` before a year below 0.
pub fn write_zoned(value: &OffsetDateTime, into: &mut [u8; 40]) -> usize
    ensures text { take result into.new ≡ zoned_text (instant value.now) (offset_of value.now) }
    ensures length { result ≡ length (zoned_text (instant value.now) (offset_of value.now)) }
    ensures bound { result ≤ 40 }

    // Each value is in its ranges.
    ensures years { IsInYears (local_at (instant value.now) (offset_of value.now)) }
    ensures offset { IsOffset (offset_of value.now) }

    // No other value has this text.
    ensures only { (t o : ℤ) → IsInYears (local_at t o) → IsOffset o
        → zoned_text t o ≡ zoned_text (instant value.now) (offset_of value.now)
        → (t ≡ instant value.now) × (o ≡ offset_of value.now) }
{
    let end = put_local(into, value.local());
    put(into, end, &spaced_offset(value.offset()))
}

// Writes the local text at the front, and answers where it ends.
fn put_local(into: &mut [u8], local: PlainDateTime) -> usize
    requires { 30 ≤ length into.old }
    ensures text { take result into.new ≡ local_text local }
    ensures end { result ≡ length (local_text local) }
    ensures bound { result ≤ 30 }
    ensures years { IsInYears local }
{
    let (year, month, day) = local.date().to_calendar_date();
    let time = local.time();
    let after_sign = put_sign(into, year);
    let after_date = put(
        into,
        after_sign,
        &date_bytes(year.unsigned_abs(), u8::from(month), day),
    );
    let after_second = put(into, after_date, &spaced_second(time));
    put(into, after_second, &nanosecond_bytes(time.nanosecond()))
}

// Writes a `-` at the front where the year is below 0, and answers where it ends.
fn put_sign(into: &mut [u8], year: i32) -> usize
    requires { 1 ≤ length into.old }
    ensures text { take result into.new ≡ year_sign year }
    ensures end { result ≡ length (year_sign year) }
    ensures bound { result ≤ 1 }
{
    if year < 0 { put(into, 0, b"-") } else { 0 }
}

// Writes the bytes at that place, and answers where they end.
fn put(into: &mut [u8], at: usize, bytes: &[u8]) -> usize
    requires { at + length bytes.now ≤ length into.old }
    ensures text { take result into.new ≡ take at into.old ++ bytes.now }
    ensures end { result ≡ at + length bytes.now }
{
    let end = at + bytes.len();
    into[at..end].copy_from_slice(bytes);
    end
}

fn date_bytes(year: u32, month: u8, day: u8) -> [u8; 10]
    requires year { year < 10000 }
    requires month { month < 100 }
    requires day { day < 100 }
    ensures { result ≡ four_digits year ++ 45 ∷ two_digits month ++ 45 ∷ two_digits day }
{
    let ((y1, y2), (y3, y4)) = (pair(year / 100), pair(year % 100));
    let (m1, m2) = pair(u32::from(month));
    let (d1, d2) = pair(u32::from(day));
    [y1, y2, y3, y4, b'-', m1, m2, b'-', d1, d2]
}

// A space, the hour, the minute, the second and a point.
fn spaced_second(time: Time) -> [u8; 10]
    ensures { result ≡ 32 ∷ two_digits (hour_of time) ++ 58 ∷ two_digits (minute_of time)
        ++ 58 ∷ two_digits (second_of time) ++ 46 ∷ [] }
{
    let (h1, h2) = pair(u32::from(time.hour()));
    let (m1, m2) = pair(u32::from(time.minute()));
    let (s1, s2) = pair(u32::from(time.second()));
    [b' ', h1, h2, b':', m1, m2, b':', s1, s2, b'.']
}

fn nanosecond_bytes(nanosecond: u32) -> [u8; 9]
    requires { nanosecond < 1000000000 }
    ensures { result ≡ nine_digits nanosecond }
{
    let (front, back) = (nanosecond / 100_000, nanosecond / 10 % 10_000);
    let ((n1, n2), (n3, n4)) = (pair(front / 100), pair(front % 100));
    let ((n5, n6), (n7, n8)) = (pair(back / 100), pair(back % 100));
    let (_, n9) = pair(nanosecond % 10);
    [n1, n2, n3, n4, n5, n6, n7, n8, n9]
}

/// A space and the offset as `+hh:mm:ss` or `-hh:mm:ss`: what stands behind the local text in a zoned text.
pub fn spaced_offset(offset: UtcOffset) -> [u8; 10]
    ensures text { result ≡ 32 ∷ offset_text offset }
    ensures bound { IsOffset offset }
{
    let size = offset.whole_seconds().unsigned_abs();
    let ((h1, h2), (m1, m2)) = (pair(size / 3600), pair(size / 60 % 60));
    let (s1, s2) = pair(size % 60);
    [b' ', sign_byte(offset), h1, h2, b':', m1, m2, b':', s1, s2]
}

/// A space and a time of day, in nanoseconds from midnight, as `hh:mm:ss.nnnnnnnnn`: what stands behind the date in a local text.
pub fn spaced_time(nanos: u64) -> [u8; 19]
    requires { nanos < nanos_per_day }
    ensures { result ≡ 32 ∷ time_text nanos }
{
    let time = Time::at_nanos(nanos);
    let mut bytes = [0; 19];
    let end = put(&mut bytes, 0, &spaced_second(time));
    put(&mut bytes, end, &nanosecond_bytes(time.nanosecond()));
    bytes
}

fn sign_byte(offset: UtcOffset) -> u8
    ensures { result ≡ (if int_lt offset (pos 0) then 45 else 43) }
{
    if offset.is_negative() { b'-' } else { b'+' }
}

// The two digits of a number, as ASCII.
fn pair(number: u32) -> (u8, u8)
    requires { number < 100 }
    ensures tens { result.0 ≡ digit_of number 10 }
    ensures ones { result.1 ≡ digit_of number 1 }
{
    let place = 2 * number as usize;
    (PAIRS[place], PAIRS[place + 1])
}

// The digits of the numbers below 100, two each.
const PAIRS: &[u8] = b"\
    0001020304050607080910111213141516171819\
    2021222324252627282930313233343536373839\
    4041424344454647484950515253545556575859\
    6061626364656667686970717273747576777879\
    8081828384858687888990919293949596979899\
";
