//! Why a line is refused.
ghost use Rattle.std.specs.Prelude.{◌≡◌, ◌≤◌, length};
ghost use Rattle.zone_plain_lines.specs.Causes.{cause_name};

use std::{error, fmt};

/// Why a line of a source has no plain form.
#[derive(Clone, Copy, Debug, PartialEq, Eq)]
pub enum PlainCause {
    /// The line isn't UTF-8.
    NotText,
    /// Quotes are left open, or nothing stands between two.
    Quotes,
    /// The first word fits neither `Rule` nor `Zone` nor `Link`.
    LineType,
    /// There are too few fields, or too many.
    FieldCount,
    /// The name of a ruleset begins with a digit, `-`, `+` or white space.
    RulesetName,
    /// A year is no whole number, and no word that fits.
    Year,
    /// FROM is after TO.
    YearOrder,
    /// TYPE isn't `-`.
    Type,
    /// No month fits the word, or two do.
    Month,
    /// A day has no form of the manual's, or lies past its month's longest length, or is February 29 and not of one leap year alone.
    Day,
    /// A time has no form of the manual's, minutes past 59, or hours past 99.
    Time,
    /// The suffix of a saving changes which time is standard.
    Saving,
    /// A format has a `%` that can't be filled, or is empty.
    Format,
    /// What is written of the line wouldn't be read as what it means.
    Unsayable,
    /// The source ends where a continuation has to follow.
    Continuation,
    /// RULES is no amount, and no rule of the source has that name.
    UnknownRuleset,
    /// An earlier zone has the name.
    DuplicateZone,
    /// A zone has the new name of a link.
    LinkIsZone,
    /// An earlier link has the new name, and another target.
    DuplicateLink,
    /// A link leads to no zone: to nothing, or in a circle.
    Target,
    /// The name of a zone, or the new name of a link, is `-`, or a part of it between slashes is empty, `.` or `..`.
    Name,
}

impl PlainCause {
    /// The name of the cause, as a fault line tells it.
    pub fn name(self) -> &'static str
        ensures name { result.now ≡ cause_name self }
        ensures short { length result.now ≤ 14 }
    {
        match self {
            PlainCause::NotText => "not text",
            PlainCause::Quotes => "Quotes",
            PlainCause::LineType => "LineType",
            PlainCause::FieldCount => "FieldCount",
            PlainCause::RulesetName => "RulesetName",
            PlainCause::Year => "Year",
            PlainCause::YearOrder => "YearOrder",
            PlainCause::Type => "Type",
            PlainCause::Month => "Month",
            PlainCause::Day => "Day",
            PlainCause::Time => "Time",
            PlainCause::Saving => "Saving",
            PlainCause::Format => "Format",
            PlainCause::Unsayable => "Unsayable",
            PlainCause::Continuation => "Continuation",
            PlainCause::UnknownRuleset => "UnknownRuleset",
            PlainCause::DuplicateZone => "DuplicateZone",
            PlainCause::LinkIsZone => "LinkIsZone",
            PlainCause::DuplicateLink => "DuplicateLink",
            PlainCause::Target => "Target",
            PlainCause::Name => "Name",
        }
    }
}

/// The name of the cause.
impl fmt::Display for PlainCause {
    fn fmt<W: fmt::Write>(&self, f: &mut fmt::Formatter<W>) -> fmt::Result {
        f.write_str(self.name())
    }
}

impl error::Error for PlainCause {}
