//! Errors, lengths of numbers, system times, configurations and format items: printed texts, vectors of the ported crate, and a
//! happy path of each call.
ghost use Rattle.std.specs.Prelude.{◌≡◌, Some, IfSome, pos};
ghost use Rattle.civil_items.specs.Defaults.{default_config};

use crate::tests::checks::{holds, prints};
use civil_base::{OffsetDateTime, SignedDuration, StdDuration, Timestamp, UtcDateTime};
use civil_items::{
    BorrowedFormatItem, Component, ComponentRange, Config, ConversionRange, DateKind,
    DifferentVariant, Digits, EncodedConfig, Error, FormattedComponents, IndeterminateOffset,
    InvalidVariant, NumericalDuration, NumericalStdDuration, OffsetPrecision, OwnedFormatItem,
    Rfc2822, Rfc3339, SysCompare, SysTime, SystemTimeExt, TimePrecision,
};
use std::alloc::Global;
use std::process::Abort;

/// Asserts the texts of an error of each cause, and of causes alone.
fn expect_errors(rt: &impl Abort, alloc: Global) {
    let error = Error::from(ConversionRange);
    prints(rt, alloc, &error, "conversion out of range");
    let error = Error::from(ComponentRange);
    prints(rt, alloc, &error, "component out of range");
    let error = Error::from(InvalidVariant);
    prints(rt, alloc, &error, "value was not a valid variant");
    let text = "The system's UTC offset could not be determined";
    prints(rt, alloc, &Error::from(IndeterminateOffset), text);
    prints(rt, alloc, &IndeterminateOffset, text);
    let text = "value was of a different variant than required";
    prints(rt, alloc, &Error::from(DifferentVariant), text);
    prints(rt, alloc, &DifferentVariant, text);
}

#[test]
fn errors_are_printed_as_what_is_inside(rt: HostRuntime) {
    expect_errors(&rt, rt.alloc());
    let inside = ComponentRange::try_from(Error::from(ComponentRange));
    holds(&rt, "inside", inside.is_ok());
}

fn lengths() -> bool {
    (Some((-7).nanoseconds()) == SignedDuration::from_parts(0, -7))
        & (Some(7.microseconds()) == SignedDuration::from_parts(0, 7_000))
        & (Some(7.milliseconds()) == SignedDuration::from_parts(0, 7_000_000))
        & (Some(7.seconds()) == SignedDuration::from_parts(7, 0))
        & (3.minutes().whole_seconds() == 180)
        & ((-3).hours().whole_seconds() == -10_800)
        & (3.days().whole_seconds() == 259_200)
        & ((-3).weeks().whole_seconds() == -1_814_400)
        & 3.fits_minutes()
        & 3.fits_hours()
        & 3.fits_days()
        & !i64::MAX.fits_weeks()
}

/// Whether a length without a sign has those seconds and nanoseconds.
fn has(length: StdDuration, seconds: u64, nanoseconds: u32) -> bool {
    (length.as_secs() == seconds) & (length.subsec_nanos() == nanoseconds)
}

fn unsigned_lengths() -> bool {
    has(u64::MAX.std_nanoseconds(), 18_446_744_073, 709_551_615)
        & has(1_000_007.std_microseconds(), 1, 7_000)
        & has(1_007.std_milliseconds(), 1, 7_000_000)
        & has(7.std_seconds(), 7, 0)
        & has(3.std_minutes(), 180, 0)
        & has(3.std_hours(), 10_800, 0)
        & has(3.std_days(), 259_200, 0)
        & has(3.std_weeks(), 1_814_400, 0)
        & 3.fits_std_minutes()
        & 3.fits_std_hours()
        & 3.fits_std_days()
        & !u64::MAX.fits_std_weeks()
}

// What the constant is.
fn epoch() -> SysTime
    ensures { result ≡ pos 0 }
{
    SysTime::UNIX_EPOCH
}

/// Of a time 5001 milliseconds before the epoch, as an instant and as date-times.
fn has_forms(time: SysTime, stamp: Timestamp, utc: UtcDateTime, shown: &OffsetDateTime) -> bool {
    (epoch().checked_sub_signed(5001.milliseconds()) == Some(time))
        & (epoch().checked_add_signed((-5001).milliseconds()) == Some(time))
        & (time.signed_duration_since(epoch()) == (-5001).milliseconds())
        & (Timestamp::from_milliseconds(-5001) == Ok(stamp))
        & (SysTime::from(stamp) == time)
        & (SysTime::from(utc) == time)
        & (SysTime::from(*shown) == time)
        & (stamp.since_sys(epoch()) == Some((-5001).milliseconds()))
        & (utc.sys_since(time) == Some(SignedDuration::ZERO))
        & shown.eq_sys(time)
        & stamp.cmp_sys(epoch()).is_lt()
}

fn system_times() -> bool {
    let Some(time) = SysTime::from_nanoseconds(-5_001_000_000) else {
        return false;
    };
    let Ok(stamp) = Timestamp::try_from(time) else {
        return false;
    };
    let Ok(utc) = UtcDateTime::try_from(time) else {
        return false;
    };
    match OffsetDateTime::try_from(time) {
        Ok(shown) => has_forms(time, stamp, utc, &shown),
        Err(_) => false,
    }
}

fn default() -> Config
    ensures { result ≡ default_config }
{
    Config::DEFAULT
}

// Encoding and decoding undo each other.
fn decoded_again(config: &Config) -> Option<Config>
    ensures { result ≡ Some config.now }
{
    Config::decode(config.encode())
}

fn encoded_again(encoded: EncodedConfig) -> Option<EncodedConfig>
    ensures { IfSome result (λ number. number ≡ encoded) }
{
    let config = Config::decode(encoded)?;
    Some(config.encode())
}

/// A configuration with each part other than in the default one.
fn changed() -> Config {
    default()
        .set_formatted_components(FormattedComponents::None)
        .set_use_separators(false)
        .set_year_is_six_digits(true)
        .set_date_kind(DateKind::Ordinal)
        .set_time_precision(TimePrecision::Minute {
            decimal_digits: None,
        })
        .set_offset_precision(OffsetPrecision::Hour)
}

fn configurations() -> bool {
    let changed = changed();
    let encoded = 0x0601010100ff00000000000000000000;
    let Some(digits) = Digits::new(255) else {
        return false;
    };
    (default().encode() == 0x05010000020901000000000000000000)
        & (changed.encode() == 0x00000102010000000000000000000000)
        & (decoded_again(&changed) == Some(changed))
        & (encoded_again(encoded) == Some(encoded))
        & Config::decode(0x07000000000000000000000000000000).is_none()
        & (digits.get() == 255)
        & (Rfc2822 == Rfc2822)
        & (Rfc3339 == Rfc3339)
}

#[test]
fn values(rt: HostRuntime) {
    holds(&rt, "lengths", lengths() & unsigned_lengths());
    holds(&rt, "system times", system_times());
    holds(&rt, "configurations", configurations());
}

/// An item that owns its parts.
fn owned(rt: &impl Abort, alloc: Global, item: BorrowedFormatItem<'_>) -> OwnedFormatItem {
    OwnedFormatItem::from_borrowed(alloc, &item).expect(rt, "memory")
}

/// Whether a list, owned as a compound, is the compound of the list, owned, and no component.
fn are_owned(rt: &impl Abort, alloc: Global, items: &[BorrowedFormatItem<'_>]) -> bool {
    let found = OwnedFormatItem::from_slice(alloc, items).expect(rt, "memory");
    let compound = owned(rt, alloc, BorrowedFormatItem::Compound(items));
    (found == compound) & !found.is_component(&Component::Year)
}

#[test]
fn items_of_each_kind_are_owned(rt: HostRuntime) {
    let a = BorrowedFormatItem::StringLiteral("a");
    let bytes = BorrowedFormatItem::Literal(b"a");
    let year = BorrowedFormatItem::Component(Component::Year);
    let inner = [a, bytes, year];
    let items = [
        BorrowedFormatItem::Compound(&inner),
        BorrowedFormatItem::First(&inner),
        BorrowedFormatItem::Optional(&a),
    ];
    holds(&rt, "a compound", are_owned(&rt, rt.alloc(), &items));
}

/// The text of an item that is one.
fn text_in(item: &OwnedFormatItem) -> Option<&str> {
    match item {
        OwnedFormatItem::StringLiteral(text) => Some(text.as_str()),
        _ => None,
    }
}

/// Whether an item is the compound of one text, and is compared as one.
fn is_text(compound: OwnedFormatItem, text: &str) -> bool {
    let Ok(items) = compound.into_items() else {
        return false;
    };
    let is_text = items.len() == 1 && text_in(&items[0]) == Some(text);
    is_text & !OwnedFormatItem::from(items).is_compound(&[])
}

/// The compound of an empty text, owned from a slice, and of the text `a`, owned from a vector.
fn compound_of(rt: &impl Abort, alloc: Global) -> OwnedFormatItem {
    let empty = [BorrowedFormatItem::StringLiteral("")];
    OwnedFormatItem::from_slice(alloc, &empty).expect(rt, "memory")
}

fn compound_of_vector(rt: &impl Abort, alloc: Global) -> OwnedFormatItem {
    let list = vec![in alloc; BorrowedFormatItem::StringLiteral("a")].expect(rt, "memory");
    OwnedFormatItem::from_borrowed_vec(alloc, list).expect(rt, "memory")
}

#[test]
fn compounds_are_taken_apart(rt: HostRuntime) {
    let is_empty = is_text(compound_of(&rt, rt.alloc()), "");
    holds(&rt, "an empty text", is_empty);
    let is_a = is_text(compound_of_vector(&rt, rt.alloc()), "a");
    holds(&rt, "a text", is_a);
    let month = Component::try_from(OwnedFormatItem::from(Component::Month));
    holds(&rt, "a component", month == Ok(Component::Month));
}
