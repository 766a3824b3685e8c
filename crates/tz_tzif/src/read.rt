//! The reader: a whole footer to its value.
ghost use Rattle.std.specs.Prelude.{◌≡◌, option_map, MatchOption};
ghost use Rattle.tz_tzif.specs.{Shown.{text_shown}, Spells.{SpellsFooter}, Values.{FooterValue, footer_in}};
ghost use Rattle.tz_posix.specs.Shown.{tz_shown};

use crate::values::{FooterRule, FooterText, Saving};
use tz_posix::{Dst, Offset, Tz, value};

/// The value that a whole footer spells. There is none exactly where it spells none.
///
/// A footer is a name, an offset, and maybe daylight saving time: a name, maybe an offset, and a rule. Names, offsets and
/// dates are those of POSIX TZ strings; a time of a rule is written as an offset is, with a sign or without one. More is taken
/// than the standard's grammar has: zeros before a number, minutes and seconds of one digit, in brackets any name of one
/// byte and more without `<` and `>`, and hours past 24 in a rule's time whatever the version of the file.
pub fn footer_text(text: &str) -> Option<FooterText<'_>>
    ensures exact { MatchOption result ((value : FooterValue) → ¬ (SpellsFooter text.now value))
        (λ footer. SpellsFooter text.now (text_shown footer)) }
{
    match value::<Offset>(text) {
        Some(read) => footer_of(read),
        None => None,
    }
}

/// The footer that a value of the grammar is.
fn footer_of<'a>(tz: Tz<'a, FooterRule>) -> Option<FooterText<'a>>
    ensures { option_map text_shown result ≡ footer_in (tz_shown tz.entry) }
{
    match tz {
        Tz::Short(_) => None,
        Tz::Expanded { std, dst: None } => Some(FooterText { std, dst: None }),
        Tz::Expanded {
            std: _,
            dst: Some(
                Dst {
                    name: _,
                    offset: _,
                    rule: None,
                },
            ),
        } => None,
        Tz::Expanded {
            std,
            dst: Some(
                Dst {
                    name,
                    offset,
                    rule: Some(rule),
                },
            ),
        } => Some(FooterText {
            std,
            dst: Some(Saving { name, offset, rule }),
        }),
    }
}
