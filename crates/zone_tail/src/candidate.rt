//! What may stand for the tail of a set.
ghost use Rattle.std.specs.Prelude.{◌≡◌, ◌↔◌, IsTrue, ℤ, ◌≤ℤ◌, ◌<ℤ◌};
ghost use Rattle.zone_tail.specs.Candidates.{IsFixed, IsLast, IsSoundCandidate, ReachesTo, total_by};

use crate::constant::is_constant;
use crate::rule::YearlyRule;
use tz_lookup::RULES_BEGIN;

/// The totals of a POSIX TZ string: one, or those of a rule.
#[derive(Clone, Copy, Debug, PartialEq, Eq)]
pub(crate) enum Candidate {
    Fixed(i64),
    Ruled(YearlyRule),
}

impl Candidate {
    /// Whether there is no rule, and this is the total.
    pub(crate) fn is_fixed_at(&self, total: i64) -> bool
        ensures { IsTrue result ↔ (IsFixed self.now × ((s : ℤ) → total_by self.now s ≡ total)) }
    {
        match self {
            Candidate::Fixed(fixed) => is_same(*fixed, total),
            Candidate::Ruled(_) => false,
        }
    }

    /// Whether it may stand for the spans from an entry at a second on.
    pub(crate) fn reaches_to(&self, second: i64) -> bool
        ensures { IsTrue result ↔ ReachesTo self.now second }
    {
        match self {
            Candidate::Fixed(_) => true,
            Candidate::Ruled(_) => second >= RULES_BEGIN,
        }
    }

    /// Whether it has one total from a second up to, without, another.
    pub(crate) fn is_constant(&self, low: i64, high: i64, total: i64) -> bool
        requires sound { IsSoundCandidate self.now }
        requires order { low <ℤ high }
        requires low { ReachesTo self.now low }
        requires high { IsLast self.now high }
        ensures { IsTrue result ↔ ((s : ℤ) → low ≤ℤ s → s <ℤ high → total_by self.now s ≡ total) }
    {
        match self {
            Candidate::Fixed(fixed) => is_same(*fixed, total),
            Candidate::Ruled(rule) => is_constant(rule, low, high, total),
        }
    }
}

fn is_same(a: i64, b: i64) -> bool
    ensures { IsTrue result ↔ (a ≡ b) }
{
    a == b
}
