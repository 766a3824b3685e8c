//! A request line.
ghost use Rattle.std.specs.{Prelude.{◌≡◌, ◌<◌, ◌≤◌, ◌^◌, true, IfSome, length, slice_index, take, option_map, if◌then◌else◌, pos, neg_ℤ}, Str.Parse.{digits_value}, Char.{is_digit}, List.{before_first, after_first, list_all, position_or_len}};
ghost use Rattle.civil_base.specs.{Layout.{local_text}, LocalTimes.{local_time_in}};
ghost use Rattle.zone_answers.specs.{SameDays.{AreLast}, Requests.{IsSpelled, request_of, request_with, nanoseconds_in, is_negative, is_number, is_space, name_of, without_minus}};

use civil_base::{PlainDateTime, read_local};
use memchr::memchr;

/// The most digits of a number of nanoseconds.
const MOST_DIGITS: usize = 30;

/// What a request line asks.
#[derive(Clone, Copy, Debug, PartialEq)]
pub enum Request<'a> {
    /// The local time of an instant: the zone's name, and nanoseconds from 1970-01-01 00:00:00 UTC.
    At(&'a str, i128),
    /// The instants that a zone reads as a local time.
    Local(&'a str, PlainDateTime),
}

impl<'a> Request<'a> {
    ghost use Rattle.zone_answers.specs.Asked.{asked};

    /// The name of the zone.
    pub fn name(&self) -> &'a str
        ensures { result.now ≡ name_of (asked self.now) }
    {
        match self {
            Request::At(name, _) => name,
            Request::Local(name, _) => name,
        }
    }

    /// What the word `at` or `local` asks of the zone of that name by its value, if it is one.
    #[tactic(auto, unfolding(crate::specs::Requests::request_with))]
    pub fn of_words(word: &str, name: &'a str, value: &str) -> Option<Request<'a>>
        ensures read { option_map asked result ≡ request_with word.now name.now value.now }
        ensures spelled { IfSome result (λ request. IsSpelled (asked request) value.now) }
    {
        match word {
            "at" => Some(Request::At(name, nanoseconds(value)?)),
            "local" => Some(Request::Local(name, local_time(value)?)),
            _ => None,
        }
    }
}

/// A request, and the text that names its instant or its local time.
#[derive(Clone, Copy)]
pub struct Spelled<'a> {
    /// What is asked.
    pub request: Request<'a>,
    /// The text of its number, or of its local time.
    pub value: &'a str,
}

impl<'a> Spelled<'a> {
    ghost use Rattle.zone_answers.specs.Asked.{asked};

    /// Reads `at NAME N`, N being an optional `-` and 1 to 30 digits, or `local NAME TEXT`, TEXT being a local text.
    #[tactic(auto, unfolding(crate::specs::Requests::request_of))]
    pub fn read(text: &'a str) -> Option<Spelled<'a>>
        ensures read { option_map (λ spelled. asked spelled.request) result ≡ request_of text.now }
        ensures spelled { IfSome result (λ spelled. IsSpelled (asked spelled.request) spelled.value.now) }
    {
        let (word, rest) = cut_word(text);
        let (name, value) = cut_at_space(rest);
        if name.is_empty() {
            return None;
        }
        match Request::of_words(word, name, value) {
            Some(request) => Some(Spelled { request, value }),
            None => None,
        }
    }
}

/// The text before the first space, and the text after it: none where there is no space.
pub fn cut_at_space(text: &str) -> (&str, &str)
    ensures front { result.0.now ≡ before_first is_space text.now }
    ensures back { result.1.now ≡ after_first is_space text.now }
{
    cut_at(text, space_in(text.as_bytes()))
}

/// The same, where the first space is likely to be among the first few bytes.
fn cut_word(text: &str) -> (&str, &str)
    ensures front { result.0.now ≡ before_first is_space text.now }
    ensures back { result.1.now ≡ after_first is_space text.now }
{
    cut_at(text, near_space_in(text.as_bytes()))
}

/// The same at the place of the first space, or at the end where there is none.
#[tactic(auto, using(std::proofs::lemmas::Str::lead_after_ascii))]
fn cut_at(text: &str, end: usize) -> (&str, &str)
    requires place { end ≡ position_or_len is_space text.now }
    requires bound { end ≤ length text.now }
    requires space { end < length text.now → slice_index text.now end ≡ 32 }
    ensures front { result.0.now ≡ before_first is_space text.now }
    ensures back { result.1.now ≡ after_first is_space text.now }
{
    if end < text.len() {
        (&text[..end], &text[end + 1..])
    } else {
        (text, "")
    }
}

/// The place of the first space, or the length where there is none.
fn space_in(text: &[u8]) -> usize
    ensures place { result ≡ position_or_len is_space text.now }
    ensures bound { result ≤ length text.now }
    ensures space { result < length text.now → slice_index text.now result ≡ 32 }
{
    memchr(b' ', text).unwrap_or(text.len())
}

/// The same, byte by byte.
fn near_space_in(text: &[u8]) -> usize
    ensures place { result ≡ position_or_len is_space text.now }
    ensures bound { result ≤ length text.now }
    ensures space { result < length text.now → slice_index text.now result ≡ 32 }
{
    for i in 0..text.len() {
        if text[i] == b' ' {
            return i;
        }
    }
    text.len()
}

/// The local time with that text.
fn local_time(text: &str) -> Option<PlainDateTime>
    ensures value { result ≡ local_time_in text.now }
    ensures spelled { IfSome result (λ time. local_text time ≡ text.now) }
{
    read_local(text)
}

/// The number that an optional `-` and 1 to 30 digits write.
#[tactic(auto, unfolding(crate::specs::Requests::nanoseconds_in))]
pub fn nanoseconds(text: &str) -> Option<i128>
    ensures { result ≡ nanoseconds_in text.now }
{
    let bytes = text.as_bytes();
    let digits = without_minus(bytes);
    if is_number(digits) {
        Some(signed(is_negative(bytes), size_of(digits)))
    } else {
        None
    }
}

/// The number that 1 to 30 digits write.
fn size_of(digits: &[u8]) -> u128
    requires { is_number digits.now ≡ true }
    ensures value { result ≡ digits_value 10 digits.now }
    ensures bound { result < 2 ^ 127 }
{
    let first = digits.len().min(19);
    let mut size = u128::from(front_of(digits, first));
    for i in first..digits.len() {
        size = 10 * size + u128::from(digits[i] - b'0');
    }
    size
}

/// The number that the first digits write, at most 19 of them.
fn front_of(digits: &[u8], count: usize) -> u64
    requires digits { is_number digits.now ≡ true }
    requires within { count ≤ length digits.now }
    requires few { count ≤ 19 }
    ensures { result ≡ digits_value 10 (take count digits.now) }
{
    let mut front = 0;
    for i in 0..count {
        front = 10 * front + u64::from(digits[i] - b'0');
    }
    front
}

/// The number that fourteen digits write.
pub(crate) fn last_number(digits: &[u8]) -> u64
    requires { AreLast digits.now }
    ensures value { result ≡ digits_value 10 digits.now }
    ensures bound { result < 100000000000000 }
{
    front_of(digits, 14)
}

/// The number of that size, below zero or not.
fn signed(negative: bool, size: u128) -> i128
    requires { size < 2 ^ 127 }
    ensures { result ≡ (if negative then neg_ℤ (pos size) else pos size) }
{
    let size = size as i128;
    if negative { -size } else { size }
}

fn is_negative(text: &[u8]) -> bool
    ensures { result ≡ is_negative text.now }
{
    match text {
        [b'-', ..] => true,
        _ => false,
    }
}

fn without_minus(text: &[u8]) -> &[u8]
    ensures { result.now ≡ without_minus text.now }
{
    text.strip_prefix(b"-").unwrap_or(text)
}

/// Whether these are 1 to 30 digits.
fn is_number(digits: &[u8]) -> bool
    ensures { result ≡ is_number digits.now }
{
    !digits.is_empty() && digits.len() <= MOST_DIGITS && all_digits(digits)
}

/// Whether these are digits alone.
pub(crate) fn all_digits(text: &[u8]) -> bool
    ensures { result ≡ list_all (λ c. is_digit c 10) text.now }
{
    // Each is looked at, whatever the others are, so that many are looked at at once.
    let mut all = true;
    for i in 0..text.len() {
        all &= is_digit(text[i]);
    }
    all
}

fn is_digit(byte: u8) -> bool
    ensures { result ≡ is_digit byte 10 }
{
    b'0' <= byte && byte <= b'9'
}
