//! Years, and the words by which columns name years, months and weekdays.
ghost use Rattle.std.specs.Prelude.{◌≡◌, bytes_eq};
ghost use Rattle.zone_table.specs.{Faults.{Tells, told}, Years.{year_field, year_named}, Names.{is_name, lower}, Months.{month_named}, Weekdays.{weekday_named}};

use crate::fault::{Fault, FaultKind, or_error, value_or_fault};
use crate::line_error::Error;
use crate::month::Month;
use crate::weekday::Weekday;
use basics::i64_in;
use std::alloc::Global;

/// A year, or the first or the last of all years.
#[derive(Clone, Copy, Debug, PartialEq)]
pub enum Year {
    /// The first of all.
    Minimum,
    /// The last of all.
    Maximum,
    /// A year by its number.
    Number(i64),
}

impl Year {
    /// Reads `min`, `minimum`, `max` or `maximum`, without regard to ASCII case, or a number of 64
    /// bits as Rust reads it.
    ///
    /// # Errors
    ///
    /// `FailedYearParse` with every other text, or `NoMemory` where memory for it runs out.
    pub fn parse(alloc: Global, input: &str) -> Result<Year, Error>
        ensures { Tells (λ year. year) result (year_field input.now) }
    {
        or_error(alloc, Year::read(input))
    }

    /// Reads the same texts, and takes no memory.
    ///
    /// # Errors
    ///
    /// `FailedYearParse` for every other text, which the fault borrows.
    pub fn read(text: &str) -> Result<Year, Fault<'_>>
        ensures { told (λ year. year) result ≡ year_field text.now }
    {
        value_or_fault(year_named(text), FaultKind::FailedYearParse, text)
    }
}

/// The month of that English name.
#[tactic(auto, unfolding(crate::specs::Months::month_named))]
pub(crate) fn month_named(text: &str) -> Option<Month>
    ensures { result ≡ month_named text.now }
{
    Some(if is_name(text, "jan", "january") {
        Month::January
    } else if is_name(text, "feb", "february") {
        Month::February
    } else if is_name(text, "mar", "march") {
        Month::March
    } else if is_name(text, "apr", "april") {
        Month::April
    } else if is_name(text, "may", "may") {
        Month::May
    } else if is_name(text, "jun", "june") {
        Month::June
    } else if is_name(text, "jul", "july") {
        Month::July
    } else if is_name(text, "aug", "august") {
        Month::August
    } else if is_name(text, "sep", "september") {
        Month::September
    } else if is_name(text, "oct", "october") {
        Month::October
    } else if is_name(text, "nov", "november") {
        Month::November
    } else if is_name(text, "dec", "december") {
        Month::December
    } else {
        return None;
    })
}

/// The weekday of that English name.
#[tactic(auto, unfolding(crate::specs::Weekdays::weekday_named))]
pub(crate) fn weekday_named(text: &str) -> Option<Weekday>
    ensures { result ≡ weekday_named text.now }
{
    Some(if is_name(text, "sun", "sunday") {
        Weekday::Sunday
    } else if is_name(text, "mon", "monday") {
        Weekday::Monday
    } else if is_name(text, "tue", "tuesday") {
        Weekday::Tuesday
    } else if is_name(text, "wed", "wednesday") {
        Weekday::Wednesday
    } else if is_name(text, "thu", "thursday") {
        Weekday::Thursday
    } else if is_name(text, "fri", "friday") {
        Weekday::Friday
    } else if is_name(text, "sat", "saturday") {
        Weekday::Saturday
    } else {
        return None;
    })
}

/// The first or the last of all years, or a year by its number.
#[tactic(auto, unfolding(crate::specs::Years::year_named))]
pub(crate) fn year_named(text: &str) -> Option<Year>
    ensures { result ≡ year_named text.now }
{
    if is_name(text, "min", "minimum") {
        Some(Year::Minimum)
    } else if is_name(text, "max", "maximum") {
        Some(Year::Maximum)
    } else {
        Some(Year::Number(i64_in(text)?))
    }
}

/// Whether the text is the short name or the full one, both of which are in lower case.
fn is_name(text: &str, short: &str, full: &str) -> bool
    requires short { lower short.now ≡ short.now }
    requires full { lower full.now ≡ full.now }
    ensures { result ≡ is_name short.now full.now text.now }
{
    is_word(text, short) || is_word(text, full)
}

/// Whether the text is the word, which is in lower case.
fn is_word(text: &str, word: &str) -> bool
    requires { lower word.now ≡ word.now }
    ensures { result ≡ bytes_eq (lower text.now) word.now }
{
    text.eq_ignore_ascii_case(word)
}
