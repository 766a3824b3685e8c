//! How far back a candidate gives the totals of a set.
ghost use Rattle.std.specs.Prelude.{◌-◌, ◌<◌, ◌≤◌, ◌↔◌, IsTrue, length, ℤ, ◌≤ℤ◌, ◌<ℤ◌};
ghost use Rattle.tz_lookup.specs.{Sets.{IsAccepted, schedule_of, shifts_of}, Spans.{shift_at}};
ghost use Rattle.zone_tail.specs.{Agreement.{AgreesIn, IsWalked}, Candidates.{IsAllowed, IsLast, IsSoundCandidate, ReachesTo}, Totals.{Lasts}};

use crate::candidate::Candidate;
use crate::spans::total_of;
use tz_lookup::SpanTable;

/// Where a span ends, or the last year does.
fn end_of_span<S: SpanTable>(set: &S, span: usize, last: i64) -> i64
    ensures end { (s : ℤ) → s <ℤ result ↔ (Lasts (shifts_of (S.seen set.now)) span s × (s <ℤ last)) }
    ensures last { result ≤ℤ last }
{
    if span < set.entry_count() {
        sooner(set.time(span), last)
    } else {
        last
    }
}

fn sooner(a: i64, b: i64) -> i64
    ensures before { (s : ℤ) → s <ℤ result ↔ ((s <ℤ a) × (s <ℤ b)) }
    ensures last { result ≤ℤ b }
{
    if a < b { a } else { b }
}

/// Whether a candidate gives the total of a span that an entry begins, up to the end of the last year.
fn agrees_in_span<S: SpanTable>(candidate: &Candidate, set: &S, span: usize, last: i64) -> bool
    requires sound { IsSoundCandidate candidate.now }
    requires some { 0 < span }
    requires within { span ≤ length (S.seen set.now).others }
    requires accepted { IsAccepted (schedule_of (S.seen set.now)) }
    requires reaches { ReachesTo candidate.now (shift_at (shifts_of (S.seen set.now)) (span - 1)).0 }
    requires last { IsLast candidate.now last }
    ensures { IsTrue result ↔ AgreesIn candidate.now (schedule_of (S.seen set.now)) last span }
{
    let low = set.time(span - 1);
    let high = end_of_span(set, span, last);
    if high <= low {
        return true;
    }
    candidate.is_constant(low, high, total_of(set, span))
}

/// Whether a span is allowed and agrees.
fn goes_on<S: SpanTable>(candidate: &Candidate, set: &S, span: usize, last: i64) -> bool
    requires sound { IsSoundCandidate candidate.now }
    requires within { span ≤ length (S.seen set.now).others }
    requires accepted { IsAccepted (schedule_of (S.seen set.now)) }
    requires last { IsLast candidate.now last }
    ensures { IsTrue result ↔ (IsAllowed candidate.now (schedule_of (S.seen set.now)) span × AgreesIn candidate.now (schedule_of (S.seen set.now)) last span) }
{
    if span == 0 {
        candidate.is_fixed_at(total_of(set, 0))
    } else {
        candidate.reaches_to(set.time(span - 1)) && agrees_in_span(candidate, set, span, last)
    }
}

/// The first of the spans from each of which on a candidate agrees; one past the last where it agrees from none.
pub(crate) fn walk<S: SpanTable>(candidate: &Candidate, set: &S, last: i64) -> usize
    requires sound { IsSoundCandidate candidate.now }
    requires accepted { IsAccepted (schedule_of (S.seen set.now)) }
    requires last { IsLast candidate.now last }
    ensures { IsWalked candidate.now (schedule_of (S.seen set.now)) last result }
{
    let mut from = set.entry_count() + 1;
    'spans: while from > 0 {
        if !goes_on(candidate, set, from - 1, last) {
            return from;
        }
        from -= 1;
    }
    from
}
