//! The candidate that stands for the tail of a set.
ghost use Rattle.std.specs.Prelude.{ℕ, ◌<◌, All, length};
ghost use Rattle.tz_lookup.specs.Sets.{IsAccepted, schedule_of};
ghost use Rattle.zone_tail.specs.{Agreement.{Agrees, IsWalked}, Candidates.{IsAllowed, IsLast, IsSoundCandidate}, Choices.{candidate_at, IsBest, IsChoice}};

use crate::candidate::Candidate;
use crate::walk::walk;
use tz_lookup::SpanTable;

/// A candidate, and the span from which on it agrees.
#[derive(Clone, Copy, Debug, PartialEq, Eq)]
pub(crate) struct Choice {
    pub(crate) index: usize,
    pub(crate) span: usize,
}

/// How far a candidate is walked.
fn steps_of<S: SpanTable>(candidates: &[Candidate], index: usize, set: &S, last: i64) -> usize
    requires within { index < length candidates.now }
    requires sound { All IsSoundCandidate candidates.now }
    requires accepted { IsAccepted (schedule_of (S.seen set.now)) }
    requires last { All (λ candidate. IsLast candidate last) candidates.now }
    ensures { IsWalked (candidate_at candidates.now index) (schedule_of (S.seen set.now)) last result }
{
    walk(&candidates[index], set, last)
}

/// The first candidate that is walked furthest, and how many entries are left before.
fn best<S: SpanTable>(candidates: &[Candidate], set: &S, last: i64) -> (usize, usize)
    requires some { 0 < length candidates.now }
    requires sound { All IsSoundCandidate candidates.now }
    requires accepted { IsAccepted (schedule_of (S.seen set.now)) }
    requires last { All (λ candidate. IsLast candidate last) candidates.now }
    ensures { IsBest candidates.now (schedule_of (S.seen set.now)) last (length candidates.now) result.0 result.1 }
{
    let mut best = 0;
    let mut from = steps_of(candidates, 0, set, last);
    for i in 1..candidates.len() {
        let steps = steps_of(candidates, i, set, last);
        if steps < from {
            best = i;
            from = steps;
        }
    }
    (best, from)
}

/// The first candidate that agrees from the earliest allowed span on, and that span, where all agree from some allowed one on.
pub(crate) fn choose<S: SpanTable>(candidates: &[Candidate], set: &S, last: i64) -> Choice
    requires some { 0 < length candidates.now }
    requires sound { All IsSoundCandidate candidates.now }
    requires accepted { IsAccepted (schedule_of (S.seen set.now)) }
    requires last { All (λ candidate. IsLast candidate last) candidates.now }
    requires agree { (span : ℕ) × ((j : ℕ) → j < length candidates.now
        → IsAllowed (candidate_at candidates.now j) (schedule_of (S.seen set.now)) span × Agrees (candidate_at candidates.now j) (schedule_of (S.seen set.now)) last span) }
    ensures { IsChoice candidates.now (schedule_of (S.seen set.now)) last result.index result.span }
{
    let (index, span) = best(candidates, set, last);
    Choice { index, span }
}
