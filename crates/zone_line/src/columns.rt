//! A line's kind, and the texts of its columns.
ghost use Rattle.std.specs.Prelude.{◌≡◌, ℕ, List, Option, option_map};
ghost use Rattle.zone_line.specs.Patterns.{captured, Searches, found_in};

use crate::parser::{part, search};
use regex::{Captures, Matcher};

/// A line's kind, with the texts of its columns.
#[derive(Clone, Copy)]
pub(crate) enum Kind<'a> {
    Space,
    Zone(ZoneColumns<'a>),
    Continuation(InfoColumns<'a>),
    Rule(RuleColumns<'a>),
    Link(LinkColumns<'a>),
}

/// The columns of a Zone line.
#[derive(Clone, Copy)]
pub(crate) struct ZoneColumns<'a> {
    pub name: &'a str,
    pub info: InfoColumns<'a>,
}

/// The columns that a Zone line and a continuation share.
#[derive(Clone, Copy)]
pub(crate) struct InfoColumns<'a> {
    pub gmtoff: &'a str,
    pub rules: &'a str,
    pub format: &'a str,
    pub year: Option<&'a str>,
    pub month: Option<&'a str>,
    pub day: Option<&'a str>,
    pub time: Option<&'a str>,
}

/// The columns of a Rule line.
#[derive(Clone, Copy)]
pub(crate) struct RuleColumns<'a> {
    pub name: &'a str,
    pub from: &'a str,
    pub to: &'a str,
    pub kind: &'a str,
    pub month: &'a str,
    pub on: &'a str,
    pub at: &'a str,
    pub save: &'a str,
    pub letters: &'a str,
}

/// The columns of a Link line.
#[derive(Clone, Copy)]
pub(crate) struct LinkColumns<'a> {
    pub target: &'a str,
    pub name: &'a str,
}

/// The parts of a day on one side of a number.
#[derive(Clone, Copy)]
pub(crate) struct DayColumns<'a> {
    pub weekday: &'a str,
    pub sign: &'a str,
    pub day: &'a str,
}

/// The parts of a time with a colon.
#[derive(Clone, Copy)]
pub(crate) struct ClockColumns<'a> {
    pub sign: &'a str,
    pub hour: &'a str,
    pub minute: &'a str,
    pub second: Option<&'a str>,
    pub flag: Option<&'a str>,
}

/// The parts of a time of hours and minutes.
#[derive(Clone, Copy)]
pub(crate) struct MinuteClock<'a>(pub ClockColumns<'a>);

/// The parts of a time of hours, minutes and seconds.
#[derive(Clone, Copy)]
pub(crate) struct SecondClock<'a>(pub ClockColumns<'a>);

impl InfoColumns<'_> {
    ghost use Rattle.zone_line.specs.{LineValues.{has_yearless_end}, Shown.{info_shown}};

    /// Whether some column of an end is there, beside the year.
    pub(crate) fn has_yearless_end(&self) -> bool
        ensures { result ≡ has_yearless_end (info_shown self.now) }
    {
        self.month.is_some() || self.day.is_some() || self.time.is_some()
    }
}

/// What the named groups of a pattern take of a line.
pub(crate) trait Columns<'a>: Sized {
    /// The texts.
    ghost Texts: { Type 0 };

    /// The texts that the columns show.
    ghost shown: { Self → Texts };

    /// The texts from the parts that the groups take, by their names.
    ghost texts_of: { (List ℕ → Option (List ℕ)) → Option Texts };

    /// The columns that the captures of a match show.
    fn of(captures: &Captures<'_, 'a>) -> Option<Self>
        ensures { option_map shown result ≡ texts_of (captured captures.now) };
}

impl<'a> Columns<'a> for ZoneColumns<'a> {
    ghost use Rattle.zone_line.specs.{Columns.{ZoneTexts, zone_columns_of}, Shown.{zone_shown}};

    ghost Texts = { ZoneTexts };

    ghost shown = { zone_shown };

    ghost texts_of = { zone_columns_of };

    #[tactic(auto, unfolding(crate::specs::Columns::zone_columns_of))]
    fn of(captures: &Captures<'_, 'a>) -> Option<ZoneColumns<'a>> {
        Some(ZoneColumns {
            name: part(captures, "name")?,
            info: InfoColumns::of(captures)?,
        })
    }
}

impl<'a> Columns<'a> for InfoColumns<'a> {
    ghost use Rattle.zone_line.specs.{Columns.{InfoTexts, info_columns_of}, Shown.{info_shown}};

    ghost Texts = { InfoTexts };

    ghost shown = { info_shown };

    ghost texts_of = { info_columns_of };

    #[tactic(auto, unfolding(crate::specs::Columns::info_columns_of))]
    fn of(captures: &Captures<'_, 'a>) -> Option<InfoColumns<'a>> {
        Some(InfoColumns {
            gmtoff: part(captures, "gmtoff")?,
            rules: part(captures, "rulessave")?,
            format: part(captures, "format")?,
            year: part(captures, "year"),
            month: part(captures, "month"),
            day: part(captures, "day"),
            time: part(captures, "time"),
        })
    }
}

impl<'a> Columns<'a> for RuleColumns<'a> {
    ghost use Rattle.zone_line.specs.{Columns.{RuleTexts, rule_columns_of}, Shown.{rule_shown}};

    ghost Texts = { RuleTexts };

    ghost shown = { rule_shown };

    ghost texts_of = { rule_columns_of };

    #[tactic(auto, unfolding(crate::specs::Columns::rule_columns_of))]
    fn of(captures: &Captures<'_, 'a>) -> Option<RuleColumns<'a>> {
        Some(RuleColumns {
            name: part(captures, "name")?,
            from: part(captures, "from")?,
            to: part(captures, "to")?,
            kind: part(captures, "type")?,
            month: part(captures, "in")?,
            on: part(captures, "on")?,
            at: part(captures, "at")?,
            save: part(captures, "save")?,
            letters: part(captures, "letters")?,
        })
    }
}

impl<'a> Columns<'a> for LinkColumns<'a> {
    ghost use Rattle.zone_line.specs.{Columns.{LinkTexts, link_columns_of}, Shown.{link_shown}};

    ghost Texts = { LinkTexts };

    ghost shown = { link_shown };

    ghost texts_of = { link_columns_of };

    #[tactic(auto, unfolding(crate::specs::Columns::link_columns_of))]
    fn of(captures: &Captures<'_, 'a>) -> Option<LinkColumns<'a>> {
        Some(LinkColumns {
            target: part(captures, "target")?,
            name: part(captures, "name")?,
        })
    }
}

impl<'a> Columns<'a> for DayColumns<'a> {
    ghost use Rattle.zone_line.specs.{DayColumns.{DayTexts, day_columns_of}, Shown.{day_shown}};

    ghost Texts = { DayTexts };

    ghost shown = { day_shown };

    ghost texts_of = { day_columns_of };

    #[tactic(auto, unfolding(crate::specs::DayColumns::day_columns_of))]
    fn of(captures: &Captures<'_, 'a>) -> Option<DayColumns<'a>> {
        Some(DayColumns {
            weekday: part(captures, "weekday")?,
            sign: part(captures, "sign")?,
            day: part(captures, "day")?,
        })
    }
}

impl<'a> Columns<'a> for MinuteClock<'a> {
    ghost use Rattle.zone_line.specs.{Clocks.{ClockTexts, minute_clock_of}, Shown.{clock_shown}};

    ghost Texts = { ClockTexts };

    ghost shown = { λ clock. clock_shown clock.0 };

    ghost texts_of = { minute_clock_of };

    #[tactic(auto, unfolding(crate::specs::Clocks::minute_clock_of))]
    fn of(captures: &Captures<'_, 'a>) -> Option<MinuteClock<'a>> {
        Some(MinuteClock(ClockColumns {
            sign: part(captures, "sign")?,
            hour: part(captures, "hour")?,
            minute: part(captures, "minute")?,
            second: None,
            flag: part(captures, "flag"),
        }))
    }
}

impl<'a> Columns<'a> for SecondClock<'a> {
    ghost use Rattle.zone_line.specs.{Clocks.{ClockTexts, second_clock_of}, Shown.{clock_shown}};

    ghost Texts = { ClockTexts };

    ghost shown = { λ clock. clock_shown clock.0 };

    ghost texts_of = { second_clock_of };

    #[tactic(auto, unfolding(crate::specs::Clocks::second_clock_of))]
    fn of(captures: &Captures<'_, 'a>) -> Option<SecondClock<'a>> {
        Some(SecondClock(ClockColumns {
            sign: part(captures, "sign")?,
            hour: part(captures, "hour")?,
            minute: part(captures, "minute")?,
            second: Some(part(captures, "second")?),
            flag: part(captures, "flag"),
        }))
    }
}

/// The columns of a line, or the parts of a text, that the matcher of their pattern finds.
pub(crate) fn found<'a, C: Columns<'a>>(matcher: &mut Matcher<'_>, line: &'a str) -> Option<C>
    ensures found { (pattern : List ℕ) → Searches pattern matcher.old → option_map C.shown result ≡ found_in C.texts_of pattern line.now }
    ensures kept { (pattern : List ℕ) → Searches pattern matcher.old → Searches pattern matcher.new }
{
    C::of(&search(matcher, line)?)
}
