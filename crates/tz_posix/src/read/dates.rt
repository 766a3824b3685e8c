//! Dates and rules.
ghost use Rattle.std.specs.Prelude.{◌≡◌};
ghost use Rattle.tz_posix.specs.Reading.{read_as, weekday_at, date_at, moment_at, rule_in};

use crate::date::Date;
use crate::read::numbers::{large_number, small_number};
use crate::rule_time::RuleTime;
use crate::values::Rule;
use basics::after_mark;

/// The numbers of a weekday of a month, and the rest.
#[tactic(auto, unfolding(crate::specs::Reading::weekday_at))]
fn weekday(text: &str) -> Option<(Date, &str)>
    ensures { read_as (λ date. date) result ≡ weekday_at text.now }
{
    let (m, rest) = small_number(text)?;
    let (n, rest) = small_number(after_mark('.', rest)?)?;
    let (d, rest) = small_number(after_mark('.', rest)?)?;
    Some((Date::M { m, n, d }, rest))
}

/// The date at the front of a text, as `J60`, `60` or `M3.2.0`, and the rest; none where no such date is at the front.
#[tactic(auto, unfolding(crate::specs::Reading::date_at))]
pub fn date(text: &str) -> Option<(Date, &str)>
    ensures { read_as (λ date. date) result ≡ date_at text.now }
{
    if let Some(rest) = after_mark('J', text) {
        let (number, rest) = large_number(rest)?;
        return Some((Date::J(number), rest));
    }
    if let Some(rest) = after_mark('M', text) {
        return weekday(rest);
    }
    let (number, rest) = large_number(text)?;
    Some((Date::N(number), rest))
}

/// A date and maybe a time, and the rest.
#[tactic(auto, unfolding(crate::specs::Reading::moment_at))]
fn moment<T: RuleTime>(text: &str) -> Option<((Date, Option<T>), &str)>
    ensures { read_as (λ moment. moment) result ≡ moment_at T.time_at text.now }
{
    let (date, rest) = date(text)?;
    match after_mark('/', rest) {
        Some(rest) => {
            let (time, rest) = T::at_front(rest)?;
            Some(((date, Some(time)), rest))
        }
        None => Some(((date, None), rest)),
    }
}

/// The rule that a whole text is.
#[tactic(auto, unfolding(crate::specs::Reading::rule_in))]
pub(crate) fn rule<T: RuleTime>(text: &str) -> Option<Rule<T>>
    ensures { result ≡ rule_in T.time_at text.now }
{
    let (start, rest) = moment(after_mark(',', text)?)?;
    let (end, rest) = moment(after_mark(',', rest)?)?;
    if rest.is_empty() {
        Some(Rule { start, end })
    } else {
        None
    }
}
