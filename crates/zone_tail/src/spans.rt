//! The spans of a set, by number, whatever gives them.
ghost use Rattle.std.specs.Prelude.{◌≡◌, ◌<◌, ◌≤◌, length, pos, neg_ℤ, ◌≤ℤ◌};
ghost use Rattle.civil_base.specs.Ranges.{greatest_offset};
ghost use Rattle.zone_tail.specs.Shapes.{entry_in};
ghost use Rattle.tz_lookup.specs.Sets.{IsAccepted, schedule_of, total_of_span};

use tz_lookup::{FixedTimespan, SpanTable, offset_of};

/// The total of a span of a set that can be looked up, in seconds east of UTC, by the span's number from 0 on.
pub fn total_of<S: SpanTable>(set: &S, span: usize) -> i64
    requires accepted { IsAccepted (schedule_of (S.seen set.now)) }
    requires within { span ≤ length (S.seen set.now).others }
    ensures total { result ≡ total_of_span (S.seen set.now) span }
    ensures least { neg_ℤ (pos greatest_offset) ≤ℤ result }
    ensures greatest { result ≤ℤ pos greatest_offset }
{
    i64::from(offset_of(set, span).whole_seconds())
}

/// The second of an entry, from 1970-01-01 00:00:00 UTC, by the entry's number from 0 on.
pub fn entry_time<S: SpanTable>(set: &S, number: usize) -> i64
    requires { number < length (S.seen set.now).others }
    ensures { result ≡ (entry_in (S.seen set.now) number).0 }
{
    set.time(number)
}

/// What an entry puts in force, by the entry's number from 0 on.
pub fn entry_span<S: SpanTable>(set: &S, number: usize) -> &FixedTimespan
    requires within { number < length (S.seen set.now).others }
    requires bound { number < 18446744073709551615 }
    ensures { result.now ≡ (entry_in (S.seen set.now) number).1 }
{
    set.span(number + 1)
}
