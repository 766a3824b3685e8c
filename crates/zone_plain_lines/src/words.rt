//! Words in any case, each in full or abbreviated to a beginning that no other word of its list has.
ghost use Rattle.std.specs.Prelude.{◌≡◌, map, codes};
ghost use Rattle.zone_plain_lines.specs.Words.{begins, meant, shown, line_word, month_word, month_of, weekday_of, last_weekday_of, from_word, to_word};

use crate::cause::PlainCause;
use zone_table::{Month, Weekday, Year};

/// The words that lines begin with.
const LINES: [(&str, LineWord); 3] = [
    ("Rule", LineWord::Rule),
    ("Zone", LineWord::Zone),
    ("Link", LineWord::Link),
];

/// The words of months.
const MONTHS: [(&str, Month); 12] = [
    ("January", Month::January),
    ("February", Month::February),
    ("March", Month::March),
    ("April", Month::April),
    ("May", Month::May),
    ("June", Month::June),
    ("July", Month::July),
    ("August", Month::August),
    ("September", Month::September),
    ("October", Month::October),
    ("November", Month::November),
    ("December", Month::December),
];

/// The words of weekdays.
const WEEKDAYS: [(&str, Weekday); 7] = [
    ("Sunday", Weekday::Sunday),
    ("Monday", Weekday::Monday),
    ("Tuesday", Weekday::Tuesday),
    ("Wednesday", Weekday::Wednesday),
    ("Thursday", Weekday::Thursday),
    ("Friday", Weekday::Friday),
    ("Saturday", Weekday::Saturday),
];

/// The words of a first year.
const FIRST_YEARS: [(&str, Year); 2] = [("minimum", Year::Minimum), ("maximum", Year::Maximum)];

/// The words of a last year.
const LAST_YEARS: [(&str, Option<Year>); 3] = [
    ("minimum", Some(Year::Minimum)),
    ("maximum", Some(Year::Maximum)),
    ("only", None),
];

/// What a line is by its first word.
#[derive(Clone, Copy, Debug, PartialEq, Eq)]
pub enum LineWord {
    /// A rule.
    Rule,
    /// The first line of a zone.
    Zone,
    /// A link.
    Link,
}

/// Whether the text is a beginning of the word, in any case.
fn begins(text: &[u8], word: &str) -> bool
    ensures { result ≡ begins text.now word.now }
{
    text.len() <= word.len() && text.eq_ignore_ascii_case(&word.as_bytes()[..text.len()])
}

/// What the only word that the text begins stands for.
#[tactic(auto, unfolding(crate::specs::Words::meant))]
fn meant<T: Copy>(text: &[u8], words: &[(&str, T)]) -> Option<T>
    ensures { result ≡ meant (map shown words.now) text.now }
{
    let mut found = None;
    for entry in words {
        let (word, meaning) = entry;
        if begins(text, word) {
            if found.is_some() {
                return None;
            }
            found = Some(*meaning);
        }
    }
    found
}

/// What a line is by its first word.
///
/// # Errors
///
/// `LineType` where the word is none of `Rule`, `Zone` and `Link`, and abbreviates none of them.
#[tactic(auto, unfolding(crate::specs::Words::line_word))]
pub fn line_word(text: &str) -> Result<LineWord, PlainCause>
    ensures { result ≡ line_word text.now }
{
    meant(text.as_bytes(), &LINES).ok_or(PlainCause::LineType)
}

/// The month of the word, if there is one.
#[tactic(auto, unfolding(crate::specs::Words::month_word))]
fn month_word(text: &[u8]) -> Option<Month>
    ensures { result ≡ month_word text.now }
{
    meant(text, &MONTHS)
}

/// The month of the word.
#[tactic(auto, unfolding(crate::specs::Words::month_of))]
pub(crate) fn month_of(text: &str) -> Result<Month, PlainCause>
    ensures { result ≡ month_of text.now }
{
    month_word(text.as_bytes()).ok_or(PlainCause::Month)
}

/// The weekday of the word.
#[tactic(auto, unfolding(crate::specs::Words::weekday_of))]
pub(crate) fn weekday_of(text: &[u8]) -> Option<Weekday>
    ensures { result ≡ weekday_of text.now }
{
    meant(text, &WEEKDAYS)
}

/// The weekday of a word that follows `last`.
#[tactic(auto, unfolding(crate::specs::Words::last_weekday_of))]
pub(crate) fn last_weekday_of(text: &str) -> Option<Weekday>
    ensures { result ≡ last_weekday_of text.now }
{
    if begins(b"last", text) {
        weekday_of(&text.as_bytes()[4..])
    } else {
        None
    }
}

/// The first or the last of all years, by its word.
#[tactic(auto, unfolding(crate::specs::Words::from_word))]
pub(crate) fn from_word(text: &str) -> Option<Year>
    ensures { result ≡ from_word text.now }
{
    meant(text.as_bytes(), &FIRST_YEARS)
}

/// The last year of a rule, by its word: `only` is none of its own.
#[tactic(auto, unfolding(crate::specs::Words::to_word))]
pub(crate) fn to_word(text: &str) -> Option<Option<Year>>
    ensures { result ≡ to_word text.now }
{
    meant(text.as_bytes(), &LAST_YEARS)
}
