//! The entries of 2102, a year that comes again every 400 years.
ghost use Rattle.std.specs.Prelude.{◌≡◌, ◌≤◌, ◌<◌, length, pos};
ghost use Rattle.tz_lookup.specs.Sets.{shifts_of};
ghost use Rattle.zone_tail.specs.Shapes.{entry_in};
ghost use Rattle.zone_tzif.specs.{Forms.{Shows}, Tried.{are_start_and_end, ever_form, first_from, form_of_two, is_of_year}};

use crate::until::CYCLE_BEGIN;
use tz_lookup::{FixedTimespan, SpanTable};

/// 2103-01-01 00:00:00 UTC.
const NEXT_YEAR: i64 = 4_197_052_800;

/// What the year 2102 of a set has.
#[derive(Clone, Copy, Debug, PartialEq, Eq)]
pub(crate) enum Form {
    /// No entry; the span that is in force.
    Steady(usize),
    /// The entry with which daylight saving time starts, and the one with which it ends.
    Yearly { start: usize, end: usize },
    Other,
}

/// How many entries come before the first at or after a second.
fn first_from<S: SpanTable>(set: &S, second: i64) -> usize
    ensures is { result ≡ first_from (shifts_of (S.seen set.now)) second }
    ensures within { result ≤ length (S.seen set.now).others }
    ensures bound { result < 18446744073709551615 }
{
    for i in 0..set.entry_count() {
        if second <= set.time(i) {
            return i;
        }
    }
    set.entry_count()
}

/// Whether an entry comes in 2102.
fn is_of_year<S: SpanTable>(set: &S, entry: usize) -> bool
    requires { entry < length (S.seen set.now).others }
    ensures { result ≡ is_of_year (entry_in (S.seen set.now) entry) }
{
    let second = set.time(entry);
    CYCLE_BEGIN <= second && second < NEXT_YEAR
}

/// Whether daylight saving time starts with one entry and ends with another.
fn are_start_and_end<S: SpanTable>(set: &S, start: usize, end: usize) -> bool
    requires start { start < length (S.seen set.now).others }
    requires end { end < length (S.seen set.now).others }
    requires start_bound { start < 18446744073709551615 }
    requires end_bound { end < 18446744073709551615 }
    ensures { result ≡ are_start_and_end (entry_in (S.seen set.now) start) (entry_in (S.seen set.now) end) }
{
    are_saving_and_standard(set.span(start + 1), set.span(end + 1))
}

fn are_saving_and_standard(saving: &FixedTimespan, standard: &FixedTimespan) -> bool
    ensures { result ≡ are_start_and_end (pos 0, saving.now) (pos 0, standard.now) }
{
    saving.utc_offset == standard.utc_offset && saving.dst_offset != 0 && standard.dst_offset == 0
}

/// What two entries, one after the other, are.
fn form_of_two<S: SpanTable>(set: &S, first: usize, second: usize) -> Form
    requires first { first < length (S.seen set.now).others }
    requires second { second < length (S.seen set.now).others }
    requires first_bound { first < 18446744073709551615 }
    requires second_bound { second < 18446744073709551615 }
    ensures { Shows (S.seen set.now) (form_of_two (entry_in (S.seen set.now) first) (entry_in (S.seen set.now) second)) result }
{
    if !(is_of_year(set, first) && is_of_year(set, second)) {
        Form::Other
    } else if are_start_and_end(set, first, second) {
        Form::Yearly {
            start: first,
            end: second,
        }
    } else if are_start_and_end(set, second, first) {
        Form::Yearly {
            start: second,
            end: first,
        }
    } else {
        Form::Other
    }
}

/// What the year has.
#[tactic(auto, unfolding(crate::specs::Tried::ever_form))]
pub(crate) fn form_of<S: SpanTable>(set: &S) -> Form
    ensures { Shows (S.seen set.now) (ever_form (S.seen set.now)) result }
{
    let begin = first_from(set, CYCLE_BEGIN);
    let end = first_from(set, NEXT_YEAR);
    if end == begin {
        Form::Steady(begin)
    } else if begin < end && end - begin == 2 {
        form_of_two(set, begin, begin + 1)
    } else {
        Form::Other
    }
}
