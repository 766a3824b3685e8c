//! Years, months and their lengths, the day numbers of dates and the dates of day numbers, and weekdays.
ghost use Rattle.std.specs.Prelude.{◌≡◌, ◌+◌, ◌<◌, ◌≤◌, ◌-◌, ℤ, pos, neg_ℤ, ◌+ℤ◌, ◌-ℤ◌, ◌≤ℤ◌};
ghost use Rattle.basics.specs.{Cycles.{cycle_days}, Days.{is_leap, days_in_month, days_through, days_in_year, IsDate, IsCountedYear, day as date_day}, Dates.{year_of, month_of, day_of}, Weekdays.{weekday_of}};

/// The first year of a cycle before all years that are counted in.
pub const FIRST_YEAR: i32 = -11_999;

/// The day number of 1 January of that year.
pub const FIRST_DAY: i32 = -5_102_072;

const DAYS_OF_FOUR_YEARS: u32 = 1461;

const DAYS_OF_CYCLE: u32 = 146_097;

/// The days of the first `years` years.
pub fn days_of_years(years: u32) -> u32
    requires { years ≤ 24000 }
    ensures { result ≡ cycle_days years }
{
    365 * years + years / 4 - years / 100 + years / 400
}

/// How many whole years lie in the first `days` days, and how many days are left.
pub fn years_of_days(days: u32) -> (u32, u16)
    requires { days < 8_800_000 }
    ensures sum { cycle_days result.0 + result.1 ≡ days }
    ensures within { days < cycle_days (result.0 + 1) }
    ensures bound { result.1 < 366 }
{
    // In quarters of a day, centuries are equally long, and so are the years of a century.
    let quarters = 4 * days + 3;
    let centuries = quarters / DAYS_OF_CYCLE;
    let left = quarters % DAYS_OF_CYCLE / 4 * 4 + 3;
    let years = 100 * centuries + left / DAYS_OF_FOUR_YEARS;
    (years, (left % DAYS_OF_FOUR_YEARS / 4) as u16)
}

/// Whether the year has 366 days. The year before 1 is 0, and the year before that is -1.
#[tactic(auto, using(std::proofs::lemmas::Bool::Decides::nat_tests), unfolding(crate::specs::Days::is_leap))]
pub fn is_leap_year(year: i32) -> bool
    ensures { result ≡ is_leap year }
{
    let years = year.unsigned_abs();
    years % 400 == 0 || (years % 4 == 0 && years % 100 != 0)
}

/// How many days the month of that year has, where January is 1 and December 12.
pub fn month_length(year: i32, month: u8) -> u8
    ensures value { result ≡ days_in_month year month }
    ensures least { 28 ≤ result }
    ensures greatest { result ≤ 31 }
{
    match month {
        2 => february_length(year),
        4 | 6 | 9 | 11 => 30,
        _ => 31,
    }
}

fn february_length(year: i32) -> u8
    ensures value { result ≡ days_in_month year 2 }
    ensures least { 28 ≤ result }
    ensures greatest { result ≤ 29 }
{
    if is_leap_year(year) { 29 } else { 28 }
}

/// The days of the year before the first of that month.
pub fn days_before_month(year: i32, month: u8) -> u16
    requires first { 1 ≤ month }
    requires last { month ≤ 12 }
    ensures value { result ≡ days_through year (month - 1) }
    ensures bound { result < 336 }
{
    let month = u16::from(month);
    if month <= 2 {
        31 * (month - 1)
    } else {
        (153 * month - 457) / 5 + days_before_march(year)
    }
}

/// The month and the day of the month of a day of the year, which counts from 0.
pub fn month_and_day(year: i32, day_of_year: u16) -> (u8, u8)
    requires { day_of_year < days_in_year year }
    ensures date { IsDate year result.0 result.1 }
    ensures value { days_through year (result.0 - 1) + result.1 ≡ day_of_year + 1 }
{
    let before_march = days_before_march(year);
    if day_of_year < 31 {
        (1, (day_of_year + 1) as u8)
    } else if day_of_year < before_march {
        (2, (day_of_year - 30) as u8)
    } else {
        let fifths = 5 * (day_of_year - before_march) + 2;
        ((fifths / 153 + 3) as u8, (fifths % 153 / 5 + 1) as u8)
    }
}

// The days of January and February.
fn days_before_march(year: i32) -> u16
    ensures value { result + 306 ≡ days_in_year year }
    ensures least { 59 ≤ result }
    ensures greatest { result ≤ 60 }
{
    if is_leap_year(year) { 60 } else { 59 }
}

/// The day number of a date, where 0 is 1970-01-01.
///
/// The year is from -10,000 to 10,000, the month from 1 to 12 and the day from 1 to 31. A day that the month lacks counts
/// on into the next month.
pub fn day_number(year: i32, month: u8, day: u8) -> i32
    requires year { IsCountedYear year }
    requires first_month { 1 ≤ month }
    requires last_month { month ≤ 12 }
    requires first_day { 1 ≤ day }
    requires last_day { day ≤ 31 }
    ensures value { result ≡ date_day year month day }

    // The dates of some years lie between the first 1 January and the last 31 December.
    ensures between { (first last : ℤ) → IsCountedYear first → IsCountedYear last
        → first ≤ℤ year → year ≤ℤ last → IsDate year month day
        → (date_day first 1 1 ≤ℤ result) × (result ≤ℤ date_day last 12 31) }

    ensures least { neg_ℤ (pos 4_371_953) ≤ℤ result }
    ensures greatest { result ≤ℤ pos 2_933_262 }
{
    let of_months = days_before_month(year, month) + u16::from(day - 1);
    first_day_of(year) + i32::from(of_months)
}

/// The day number of 1 January of a year from -10,000 to 10,001.
fn first_day_of(year: i32) -> i32
    requires first { neg_ℤ (pos 10000) ≤ℤ year }
    requires last { year ≤ℤ pos 10001 }
    ensures value { result ≡ date_day year 1 1 }
{
    days_of_years((year - FIRST_YEAR) as u32) as i32 + FIRST_DAY
}

/// A year, a month from 1 to 12 and a day of that month. The year before 1 is 0, and the year before that is -1.
#[derive(Clone, Copy, Debug, PartialEq, Eq)]
pub struct CalendarDate {
    pub year: i32,
    pub month: u8,
    pub day: u8,
}

/// The date of a day number, where 0 is 1970-01-01, of those from -10000-01-01 to 10000-12-31.
pub fn date_of(day_number: i32) -> CalendarDate
    requires first { neg_ℤ (pos 4_371_953) ≤ℤ day_number }
    requires last { day_number ≤ℤ pos 2_933_262 }
    ensures number { date_day result.year result.month result.day ≡ day_number }
    ensures date { IsDate result.year result.month result.day }
    ensures years { IsCountedYear result.year }
    ensures year { result.year ≡ year_of day_number }
    ensures month { result.month ≡ month_of day_number }
    ensures day { result.day ≡ day_of day_number }

    // The days between a 1 January and a 31 December lie in the years between.
    ensures between { (first last : ℤ) → IsCountedYear first → IsCountedYear last
        → date_day first 1 1 ≤ℤ day_number → day_number ≤ℤ date_day last 12 31
        → (first ≤ℤ result.year) × (result.year ≤ℤ last) }
{
    let (years, day_of_year) = years_of_days((day_number - FIRST_DAY) as u32);
    let year = years as i32 + FIRST_YEAR;
    let (month, day) = month_and_day(year, day_of_year);
    CalendarDate { year, month, day }
}

/// The weekday of a day number, where 0 is 1970-01-01. Sunday is 0 and Saturday 6.
pub fn weekday(day_number: i32) -> u8
    ensures value { result ≡ weekday_of day_number }
    ensures bound { result < 7 }
{
    (i64::from(day_number) + 4).rem_euclid(7) as u8
}
