//! How long a rule keeps one total.
ghost use Rattle.std.specs.Prelude.{◌≡◌, ◌↔◌, IsTrue, ℤ, ◌≤ℤ◌, ◌<ℤ◌};
ghost use Rattle.zone_tail.specs.Rules.{IsReach, IsSound, rule_total};

use crate::rule::YearlyRule;

/// Whether a rule has one total from a second up to, without, another.
pub(crate) fn is_constant(rule: &YearlyRule, low: i64, high: i64, total: i64) -> bool
    requires sound { IsSound rule.now }
    requires low { IsReach low }
    requires high { IsReach high }
    ensures { IsTrue result ↔ ((s : ℤ) → low ≤ℤ s → s <ℤ high → rule_total rule.now s ≡ total) }
{
    let mut from = low;
    'pieces: while from < high {
        if rule.total(from) != total {
            return false;
        }
        from = rule.next_change(from);
    }
    true
}
