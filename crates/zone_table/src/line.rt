//! The values of lines. Each text is a slice of the line.

use crate::change::ChangeTime;
use crate::day::DaySpec;
use crate::month::Month;
use crate::time::{TimeSpec, TimeSpecAndType};
use crate::year::Year;

/// What is added to a zone line's offset.
#[derive(Clone, Copy, Debug, PartialEq)]
pub enum Saving<'a> {
    /// Nothing.
    NoSaving,
    /// The same amount as long as the line holds.
    OneOff(TimeSpec),
    /// What the rules of that name say.
    Multiple(&'a str),
}

/// What a zone line and a continuation say of a stretch of time.
#[derive(Clone, Copy, Debug, PartialEq)]
pub struct ZoneInfo<'a> {
    /// The standard offset east of UTC.
    pub utc_offset: TimeSpec,
    /// What is added to it.
    pub saving: Saving<'a>,
    /// The format of the abbreviation.
    pub format: &'a str,
    /// The end of the stretch, or none where it holds for good.
    pub time: Option<ChangeTime>,
}

/// A rule of a ruleset.
#[derive(Clone, Copy, Debug, PartialEq)]
pub struct Rule<'a> {
    /// The name of the ruleset.
    pub name: &'a str,
    /// The first year of the rule.
    pub from_year: Year,
    /// The last year of the rule, or none where the first is the only one.
    pub to_year: Option<Year>,
    /// The month in which the rule fires.
    pub month: Month,
    /// The day on which it fires.
    pub day: DaySpec,
    /// The time of day at which it fires.
    pub time: TimeSpecAndType,
    /// The saving from then on.
    pub time_to_add: TimeSpec,
    /// The letters of the abbreviation.
    pub letters: Option<&'a str>,
}

/// The first line of a zone.
#[derive(Clone, Copy, Debug, PartialEq)]
pub struct Zone<'a> {
    /// The name of the zone.
    pub name: &'a str,
    /// What the line says.
    pub info: ZoneInfo<'a>,
}

/// Another name of a zone.
#[derive(Clone, Copy, Debug, PartialEq)]
pub struct Link<'a> {
    /// The name that stands already.
    pub existing: &'a str,
    /// The other name.
    pub new: &'a str,
}

/// A line of source text.
#[derive(Clone, Copy, Debug, PartialEq)]
pub enum Line<'a> {
    /// A blank line or a comment.
    Space,
    /// The first line of a zone.
    Zone(Zone<'a>),
    /// A further line of the zone before it.
    Continuation(ZoneInfo<'a>),
    /// A rule.
    Rule(Rule<'a>),
    /// Another name of a zone.
    Link(Link<'a>),
}
