//! Whether the numbers of rules and zone lines are small: day numbers from 1 to 31, seconds at most 1,000,000 in size.
ghost use Rattle.std.specs.{Prelude.{◌≡◌}, List.{list_all}};
ghost use Rattle.zone_table.specs.{LineBounds.{are_small_seconds}, Bounds.{is_bounded_rule, is_bounded_info}};

use crate::rule::RuleInfo;
use crate::zone::{Saving, ZoneInfo};

/// Whether all the rules are bounded.
pub(crate) fn are_bounded_rules(rules: &[RuleInfo]) -> bool
    ensures { result ≡ list_all is_bounded_rule rules.now }
{
    rules.iter().all(is_bounded_rule)
}

/// Whether all the lines are bounded.
pub(crate) fn are_bounded_lines(lines: &[ZoneInfo]) -> bool
    ensures { result ≡ list_all is_bounded_info lines.now }
{
    lines.iter().all(is_bounded_info)
}

fn is_bounded_rule(rule: &RuleInfo) -> bool
    ensures { result ≡ is_bounded_rule rule.now }
{
    rule.day.has_day_of_month()
        && are_small_seconds(rule.time)
        && are_small_seconds(rule.time_to_add)
}

fn is_bounded_info(info: &ZoneInfo) -> bool
    ensures { result ≡ is_bounded_info info.now }
{
    let saving = match info.saving {
        Saving::OneOff(amount) => are_small_seconds(amount),
        _ => true,
    };
    let end = info.end_time.is_none_or(|end| end.has_day_of_month());
    are_small_seconds(info.offset) && saving && end
}

fn are_small_seconds(seconds: i64) -> bool
    ensures { result ≡ are_small_seconds seconds }
{
    -1_000_000 <= seconds && seconds <= 1_000_000
}
