//! The days of the week.
ghost use Rattle.std.specs.{Prelude.{◌≡◌, ◌≢◌, ◌+◌, ◌%◌, ◌<◌, MatchResult, Some}, Fmt.{padded}};
ghost use Rattle.civil_parts.specs.Weekdays.{weekday_number};

use crate::InvalidVariant;
use std::fmt;
use std::str::FromStr;

/// A day of the week.
#[derive(Clone, Copy, Debug, PartialEq, Eq, Hash)]
pub enum Weekday {
    Monday,
    Tuesday,
    Wednesday,
    Thursday,
    Friday,
    Saturday,
    Sunday,
}

impl Weekday {
    ghost use Rattle.civil_parts.specs.Weekdays.{weekday_name, days_from_monday, IsDaysBefore};

    /// The day after this one; Monday after Sunday.
    pub fn next(self) -> Weekday
        ensures { IsDaysBefore 1 self result }
    {
        self.nth_next(1)
    }

    /// The day before this one; Sunday before Monday.
    pub fn previous(self) -> Weekday
        ensures { IsDaysBefore 1 result self }
    {
        self.nth_prev(1)
    }

    /// The day that many days after this one.
    pub fn nth_next(self, n: u8) -> Weekday
        ensures { IsDaysBefore n self result }
    {
        weekday_with((self.number_days_from_sunday() + n % 7) % 7)
    }

    /// The day that many days before this one.
    pub fn nth_prev(self, n: u8) -> Weekday
        ensures { IsDaysBefore n result self }
    {
        weekday_with((self.number_days_from_sunday() + 7 - n % 7) % 7)
    }

    /// From 1 for Monday to 7 for Sunday.
    pub fn number_from_monday(self) -> u8
        ensures { result ≡ days_from_monday self + 1 }
    {
        self.number_days_from_monday() + 1
    }

    /// From 1 for Sunday to 7 for Saturday.
    pub fn number_from_sunday(self) -> u8
        ensures { result ≡ weekday_number self + 1 }
    {
        self.number_days_from_sunday() + 1
    }

    /// From 0 for Monday to 6 for Sunday.
    pub fn number_days_from_monday(self) -> u8
        ensures value { result ≡ days_from_monday self }
        ensures bound { result < 7 }
    {
        (self.number_days_from_sunday() + 6) % 7
    }

    /// From 0 for Sunday to 6 for Saturday.
    pub fn number_days_from_sunday(self) -> u8
        ensures value { result ≡ weekday_number self }
        ensures bound { result < 7 }
    {
        match self {
            Weekday::Monday => 1,
            Weekday::Tuesday => 2,
            Weekday::Wednesday => 3,
            Weekday::Thursday => 4,
            Weekday::Friday => 5,
            Weekday::Saturday => 6,
            Weekday::Sunday => 0,
        }
    }

    /// The full English name.
    fn name(self) -> &'static str
        ensures { result.now ≡ weekday_name self }
    {
        match self {
            Weekday::Monday => "Monday",
            Weekday::Tuesday => "Tuesday",
            Weekday::Wednesday => "Wednesday",
            Weekday::Thursday => "Thursday",
            Weekday::Friday => "Friday",
            Weekday::Saturday => "Saturday",
            Weekday::Sunday => "Sunday",
        }
    }
}

// The weekday that many days after Sunday.
fn weekday_with(number: u8) -> Weekday
    requires { number < 7 }
    ensures { weekday_number result ≡ number }
{
    match number {
        0 => Weekday::Sunday,
        1 => Weekday::Monday,
        2 => Weekday::Tuesday,
        3 => Weekday::Wednesday,
        4 => Weekday::Thursday,
        5 => Weekday::Friday,
        6 => Weekday::Saturday,
        _ => unreachable!(),
    }
}

/// The weekday with that full English name. Every other text is refused.
impl FromStr for Weekday {
    ghost use Rattle.civil_parts.specs.{Weekdays.{weekday_name}, declared.weekday.Weekday.{Weekday}};

    type Err = InvalidVariant;

    ghost from_str_gives = { λ text result.
        MatchResult result (λ day. weekday_name day ≡ text) (λ _. (day : Weekday) → weekday_name day ≢ text) };

    fn from_str(text: &str) -> Result<Weekday, InvalidVariant> {
        match text {
            "Monday" => Ok(Weekday::Monday),
            "Tuesday" => Ok(Weekday::Tuesday),
            "Wednesday" => Ok(Weekday::Wednesday),
            "Thursday" => Ok(Weekday::Thursday),
            "Friday" => Ok(Weekday::Friday),
            "Saturday" => Ok(Weekday::Saturday),
            "Sunday" => Ok(Weekday::Sunday),
            _ => Err(InvalidVariant),
        }
    }
}

/// The full English name.
impl fmt::Display for Weekday {
    ghost use Rattle.civil_parts.specs.Weekdays.{weekday_name};

    ghost output = { λ day. Some (weekday_name day) };

    ghost styled_output = { λ day spec. Some (padded spec (weekday_name day)) };

    fn fmt<W: fmt::Write>(&self, f: &mut fmt::Formatter<W>) -> fmt::Result {
        f.pad(self.name())
    }
}
