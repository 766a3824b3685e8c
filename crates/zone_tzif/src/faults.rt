//! Why no footer is tried for a set.
ghost use Rattle.std.specs.Prelude.{◌≡◌, ◌<◌, ◌&&◌, length, pos, neg_ℤ, ◌≤ℤ◌};
ghost use Rattle.civil_base.specs.Ranges.{greatest_offset};
ghost use Rattle.tz_lookup.specs.Sets.{IsAccepted, schedule_of};
ghost use Rattle.zone_spans.specs.Entries.{total};
ghost use Rattle.zone_tail.specs.{Shapes.{entry_in}, Tails.{can_be_written, is_posix_name}};
ghost use Rattle.zone_tzif.specs.{Forms.{ArePlaced, Shows}, Tried.{ever_fault, ever_form, written_or}};

use crate::form::Form;
use crate::outcome::EverTailFault;
use tz_lookup::SpanTable;
use zone_tail::parts::{can_be_written, entry_span, is_posix_name, total_of};

/// The first cause, or none.
pub(crate) fn fault_in<S: SpanTable>(set: &S, form: &Form) -> Option<EverTailFault>
    requires accepted { IsAccepted (schedule_of (S.seen set.now)) }
    requires form { Shows (S.seen set.now) (ever_form (S.seen set.now)) form.now }
    ensures { result ≡ ever_fault (S.seen set.now) }
{
    match form {
        Form::Steady(span) => written_or(
            can_be_written(total_of(set, *span)),
            is_posix_name(set.span(*span).name.as_str()),
        ),
        Form::Yearly { start, end } => written_or(
            are_written(set, *start, *end),
            are_names(set, *start, *end),
        ),
        Form::Other => Some(EverTailFault::Shape),
    }
}

/// The cause of the offsets, then that of the names.
fn written_or(written: bool, named: bool) -> Option<EverTailFault>
    ensures { result ≡ written_or written named }
{
    if !written {
        Some(EverTailFault::OffsetRange)
    } else if named {
        None
    } else {
        Some(EverTailFault::Name)
    }
}

/// Whether the totals of two entries can be written.
fn are_written<S: SpanTable>(set: &S, start: usize, end: usize) -> bool
    requires accepted { IsAccepted (schedule_of (S.seen set.now)) }
    requires placed { ArePlaced (S.seen set.now) start end }
    ensures { result ≡ (can_be_written (total (entry_in (S.seen set.now) end).1) && can_be_written (total (entry_in (S.seen set.now) start).1)) }
{
    can_be_written(total_of_entry(set, end)) && can_be_written(total_of_entry(set, start))
}

/// The total that an entry puts in force.
pub(crate) fn total_of_entry<S: SpanTable>(set: &S, entry: usize) -> i64
    requires accepted { IsAccepted (schedule_of (S.seen set.now)) }
    requires within { entry < length (S.seen set.now).others }
    requires bound { entry < 18446744073709551615 }
    ensures is { result ≡ total (entry_in (S.seen set.now) entry).1 }
    ensures least { neg_ℤ (pos greatest_offset) ≤ℤ result }
    ensures greatest { result ≤ℤ pos greatest_offset }
{
    total_of(set, entry + 1)
}

/// Whether their names can.
fn are_names<S: SpanTable>(set: &S, start: usize, end: usize) -> bool
    requires { ArePlaced (S.seen set.now) start end }
    ensures { result ≡ (is_posix_name (entry_in (S.seen set.now) end).1.name && is_posix_name (entry_in (S.seen set.now) start).1.name) }
{
    is_posix_name(entry_span(set, end).name.as_str())
        && is_posix_name(entry_span(set, start).name.as_str())
}
