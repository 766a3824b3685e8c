//! Why a set has no string.
ghost use Rattle.std.specs.{Prelude.{◌≡◌, ◌<◌, ◌&&◌, Some, if◌then◌else◌, length}, List.{list_all}};
ghost use Rattle.tz_lookup.specs.Sets.{IsAccepted, schedule_of};
ghost use Rattle.zone_spans.specs.Entries.{total};
ghost use Rattle.zone_tail.specs.{LastYear.{standard_of}, Shapes.{IsForm, entry_in}, Tails.{can_be_written, is_name, is_name_byte, is_posix_byte, is_posix_name, named_or, tail_fault}, declared.outcome.TailFault.TheVariants.{OffsetRange}};

use crate::last_year::Form;
use crate::outcome::TailFault;
use crate::spans::{entry_span, total_of};
use tz_lookup::SpanTable;

/// 24:59:59, the greatest size of an offset that is written.
const GREATEST: i64 = 89_999;

/// The fewest bytes of a name that POSIX has a place for.
const FEWEST: usize = 3;

/// The first cause, or none.
pub(crate) fn fault_in<S: SpanTable>(set: &S, form: &Form, offset: i64) -> Option<TailFault>
    requires accepted { IsAccepted (schedule_of (S.seen set.now)) }
    requires offset { offset ≡ standard_of (S.seen set.now) }
    requires form { IsForm (S.seen set.now) form.now }
    ensures { result ≡ tail_fault (S.seen set.now) }
{
    match form {
        Form::Steady(span) => fault_of(
            can_be_written(total_of(set, *span)),
            is_name(set.span(*span).name.as_str()),
        ),
        Form::Yearly { start, end } => fault_of(
            are_written(set, *start, offset),
            are_names(set, *start, *end),
        ),
        Form::Other => Some(TailFault::Shape),
    }
}

/// The cause where there is one or two entries: of the offsets, then of the names.
fn fault_of(written: bool, named: bool) -> Option<TailFault>
    ensures { result ≡ (if written then named_or named else Some OffsetRange) }
{
    if !written {
        Some(TailFault::OffsetRange)
    } else if named {
        None
    } else {
        Some(TailFault::Name)
    }
}

/// Whether the offsets of a yearly set can be written, by the entry with which daylight saving time starts.
fn are_written<S: SpanTable>(set: &S, start: usize, offset: i64) -> bool
    requires accepted { IsAccepted (schedule_of (S.seen set.now)) }
    requires start { start < length (S.seen set.now).others }
    requires bound { start < 18446744073709551615 }
    ensures { result ≡ (can_be_written offset && can_be_written (total (entry_in (S.seen set.now) start).1)) }
{
    can_be_written(offset) && can_be_written(total_of(set, start + 1))
}

/// Whether its names can.
fn are_names<S: SpanTable>(set: &S, start: usize, end: usize) -> bool
    requires start { start < length (S.seen set.now).others }
    requires end { end < length (S.seen set.now).others }
    requires start_bound { start < 18446744073709551615 }
    requires end_bound { end < 18446744073709551615 }
    ensures { result ≡ (is_name (entry_in (S.seen set.now) end).1.name && is_name (entry_in (S.seen set.now) start).1.name) }
{
    is_name(entry_span(set, end).name.as_str()) && is_name(entry_span(set, start).name.as_str())
}

/// Whether an offset is at most 24:59:59 in size.
pub fn can_be_written(offset: i64) -> bool
    ensures { result ≡ can_be_written offset }
{
    -GREATEST <= offset && offset <= GREATEST
}

/// Whether a name can be written, with brackets or without.
pub fn is_name(name: &str) -> bool
    ensures { result ≡ is_name name.now }
{
    1 <= name.len() && has_name_bytes(name)
}

fn has_name_bytes(name: &str) -> bool
    ensures { result ≡ list_all is_name_byte name.now }
{
    name.as_bytes().iter().all(|byte| *byte != b'<'
        && *byte != b'>'
        && *byte != b'\n'
        && *byte != 0)
}

/// Whether POSIX has a place for a name: three bytes or more, ASCII letters, digits, `+` and `-`. Of a string with another name, as
/// `<CD>-2`, the GNU C library makes UTC.
pub fn is_posix_name(name: &str) -> bool
    ensures { result ≡ is_posix_name name.now }
{
    FEWEST <= name.len() && has_posix_bytes(name)
}

fn has_posix_bytes(name: &str) -> bool
    ensures { result ≡ list_all is_posix_byte name.now }
{
    name.as_bytes().iter().all(|byte| {
        byte.is_ascii_alphabetic() || byte.is_ascii_digit() || *byte == b'+' || *byte == b'-'
    })
}
