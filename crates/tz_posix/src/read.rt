//! The reader: a whole text to its value.
ghost use Rattle.std.specs.Prelude.{◌≡◌, option_map, MatchOption};
ghost use Rattle.tz_posix.specs.{Reading.{read_as, own_offset_at, own_rule_in, dst_in, short_in, expanded_in, entry_in, is_over}, Spells.{Spells, SpellsIn}, Values.{TzValue, Value}, Shown.{dst_shown, tz_shown}};

pub(crate) mod dates;
pub(crate) mod names;
pub(crate) mod numbers;
pub(crate) mod times;

use crate::read::dates::rule;
use crate::read::names::name;
use crate::read::times::offset;
use crate::rule_time::RuleTime;
use crate::time::{Offset, Time};
use crate::values::{Dst, Rule, Std, Tz};
use basics::after_mark;

/// Whether the text is at its end or at a rule.
fn is_over(text: &str) -> bool
    ensures { result ≡ is_over text.now }
{
    match text.as_bytes() {
        [] => true,
        [first, ..] => *first == b',',
    }
}

/// The offset of daylight saving time at the front of a text, or no offset at its end or at a comma, and the rest; else none. Its range
/// isn't tested.
#[tactic(auto, unfolding(crate::specs::Reading::own_offset_at))]
pub fn own_offset(text: &str) -> Option<(Option<Offset>, &str)>
    ensures { read_as (λ offset. offset) result ≡ own_offset_at text.now }
{
    if is_over(text) {
        return Some((None, text));
    }
    let (offset, rest) = offset(text)?;
    Some((Some(offset), rest))
}

/// The rule that a whole text is, where there is any text.
#[tactic(auto, unfolding(crate::specs::Reading::own_rule_in))]
fn own_rule<T: RuleTime>(text: &str) -> Option<Option<Rule<T>>>
    ensures { result ≡ own_rule_in T.time_at text.now }
{
    if text.is_empty() {
        return Some(None);
    }
    Some(Some(rule(text)?))
}

/// The daylight saving time that a whole text is, where there is any text.
#[tactic(auto, unfolding(crate::specs::Reading::dst_in))]
fn dst<T: RuleTime>(text: &str) -> Option<Option<Dst<'_, Rule<T>>>>
    ensures { option_map (option_map dst_shown) result ≡ dst_in T.time_at text.now }
{
    if text.is_empty() {
        return Some(None);
    }
    let (name, rest) = name(text)?;
    let (offset, rest) = own_offset(rest)?;
    let rule = own_rule(rest)?;
    Some(Some(Dst { name, offset, rule }))
}

/// The name that a whole text is.
#[tactic(auto, unfolding(crate::specs::Reading::short_in))]
fn short(text: &str) -> Option<&str>
    ensures { option_map (λ name. name.now) result ≡ short_in text.now }
{
    let (name, rest) = name(text)?;
    if rest.is_empty() { Some(name) } else { None }
}

/// The standard time and the rest that a whole text is.
#[tactic(auto, unfolding(crate::specs::Reading::expanded_in))]
fn expanded<T: RuleTime>(text: &str) -> Option<Tz<'_, Rule<T>>>
    ensures { option_map tz_shown result ≡ expanded_in T.time_at text.now }
{
    let (name, rest) = name(text)?;
    let (offset, rest) = offset(rest)?;
    let dst = dst(rest)?;
    Some(Tz::Expanded {
        std: Std { name, offset },
        dst,
    })
}

/// What a whole text is read as.
#[tactic(auto, unfolding(crate::specs::Reading::entry_in))]
fn whole<T: RuleTime>(text: &str) -> Option<Tz<'_, Rule<T>>>
    ensures { option_map tz_shown result ≡ entry_in T.time_at text.now }
{
    match after_mark(':', text) {
        Some(rest) => Some(Tz::Short(short(rest)?)),
        None => expanded(text),
    }
}

/// The value that a whole text spells. There is none exactly where it spells none.
///
/// A text is `:` and a name, or a name, an offset and maybe daylight saving time: a name, maybe an offset, maybe a rule. A
/// name is `<`, one character or more other than `<` and `>`, and `>`; or the longest run of ASCII letters, 3 to 16 of them.
/// An offset is a time after `+`, `-` or nothing, a time `hh`, `hh:mm` or `hh:mm:ss`. A rule is `,`, the start, `,` and the
/// end, each a date and maybe `/` and a time. A date is `Jn`, `Mm.n.d` or `n`. A number is the longest run of ASCII digits; n
/// alone or after `J` fits 16 bits, every other number 8.
pub fn entry(input: &str) -> Option<Tz<'_>>
    ensures exact { MatchOption result ((value : TzValue) → ¬ (Spells input.now value))
        (λ tz. Spells input.now (tz_shown tz)) }
{
    value::<Time>(input)
}

/// The value that a whole text spells, where a rule has times of this type: of `Time` in POSIX TZ strings, as `entry` reads them,
/// and of `Offset`, with a sign or without one, in texts whose rules may go by other days too. There is none exactly where it
/// spells none.
pub fn value<T: RuleTime>(text: &str) -> Option<Tz<'_, Rule<T>>>
    ensures exact { MatchOption result ((value : Value T) → ¬ (SpellsIn T.range text.now value))
        (λ tz. SpellsIn T.range text.now (tz_shown tz)) }
{
    whole(text)
}
