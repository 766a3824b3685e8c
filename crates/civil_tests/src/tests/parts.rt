//! Months, weekdays and lengths of time: the names that they print, and what the constants are.
ghost use Rattle.std.specs.Prelude.{◌≡◌, IfSome, pos};
ghost use Rattle.civil_parts.specs.{Durations.{longest, shortest}, declared.weekday.Weekday.TheVariants.{Monday}};

use crate::tests::checks::{hash_of, holds, prints};
use civil_parts::{
    ComponentRange, ConversionRange, InvalidVariant, Month, SignedDuration, StdDuration, Weekday,
};
use std::alloc::Global;
use std::process::Abort;

// The names of the months and of the weekdays, in order.
const MONTHS: &str =
    "January February March April May June July August September October November December";

const WEEKDAYS: &str = "Monday Tuesday Wednesday Thursday Friday Saturday Sunday";

fn expect_months(rt: &impl Abort, alloc: Global) {
    let mut month = Month::December;
    for name in MONTHS.split_whitespace() {
        month = month.next();
        prints(rt, alloc, &month, name);
        holds(rt, name, name.parse::<Month>() == Ok(month));
    }
}

fn expect_weekdays(rt: &impl Abort, alloc: Global) {
    let mut day = Weekday::Sunday;
    for name in WEEKDAYS.split_whitespace() {
        day = day.next();
        prints(rt, alloc, &day, name);
        holds(rt, name, name.parse::<Weekday>() == Ok(day));
    }
}

fn expect_causes(rt: &impl Abort, alloc: Global) {
    prints(rt, alloc, &ComponentRange, "component out of range");
    prints(rt, alloc, &ConversionRange, "conversion out of range");
    prints(rt, alloc, &InvalidVariant, "value was not a valid variant");
}

#[test]
fn names_and_causes(rt: HostRuntime) {
    expect_months(&rt, rt.alloc());
    expect_weekdays(&rt, rt.alloc());
    expect_causes(&rt, rt.alloc());
}

// What the clauses say of known days and lengths.
fn three_days_before_thursday() -> Weekday
    ensures { result ≡ Monday }
{
    Weekday::Thursday.nth_prev(3)
}

fn five_less_three() -> Option<SignedDuration>
    ensures { IfSome result (λ length. length ≡ pos 2) }
{
    let five = SignedDuration::from_whole_nanoseconds(5)?;
    let three = SignedDuration::from_whole_nanoseconds(3)?;
    five.checked_sub(three)
}

// What the constants are.
fn zero() -> SignedDuration
    ensures { result ≡ pos 0 }
{
    SignedDuration::ZERO
}

fn least() -> SignedDuration
    ensures { result ≡ shortest }
{
    SignedDuration::MIN
}

fn greatest() -> SignedDuration
    ensures { result ≡ longest }
{
    SignedDuration::MAX
}

fn months_and_weekdays() -> bool {
    let (may, sunday) = (Month::May, Weekday::Sunday);
    (may.previous() == Month::April)
        & (may.length(2000) == 31)
        & (Month::try_from(5) == Ok(may))
        & (u8::from(may) == 5)
        & (hash_of(&may) == hash_of(&Month::May))
        & (three_days_before_thursday() == Weekday::Monday)
        & (sunday.nth_next(255) == Weekday::Wednesday)
        & (sunday.nth_prev(255) == Weekday::Thursday)
        & (sunday.previous() == Weekday::Saturday)
        & (sunday.number_from_sunday() == 1)
        & (sunday.number_days_from_sunday() == 0)
        & (sunday.number_from_monday() == 7)
        & (sunday.number_days_from_monday() == 6)
        & (hash_of(&sunday) == hash_of(&Weekday::Sunday))
}

fn lengths() -> bool {
    let least = least();
    (SignedDuration::from_parts(0, 2) == five_less_three())
        & (zero().checked_add(greatest()) == Some(greatest()))
        & (least.whole_seconds() == i64::MIN)
        & (least.whole_days() == -106_751_991_167_300)
        & (least.subsec_nanoseconds() == -999_999_999)
        & !least.is_zero()
        & least.is_negative()
        & !least.is_positive()
        & (hash_of(&least) == hash_of(&SignedDuration::MIN))
}

fn lengths_without_a_sign() -> bool {
    let Some(unsigned) = StdDuration::new(5, 1) else {
        return false;
    };
    let Ok(signed) = SignedDuration::try_from(unsigned) else {
        return false;
    };
    (unsigned.as_secs() == 5)
        & (unsigned.subsec_nanos() == 1)
        & (signed.whole_nanoseconds() == 5_000_000_001)
}

#[test]
fn values(rt: HostRuntime) {
    holds(&rt, "months and weekdays", months_and_weekdays());
    holds(&rt, "lengths", lengths());
    holds(&rt, "lengths without a sign", lengths_without_a_sign());
}
