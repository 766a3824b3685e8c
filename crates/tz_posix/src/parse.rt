//! Texts over a database.
ghost use Rattle.std.specs.Prelude.{◌≡◌, None, option_and_then};
ghost use Rattle.tz_posix.specs.{NamedShown.{named_of}, Parses.{IsParsed, IsResolved, TellsZone}, Ranges.{posix_range, rule_range}, Resolved.{by_rule}, Shown.{tz_shown}, Spells.{day_times}};

use crate::error::ParseError;
use crate::posix::{Kind, Named, PosixTz};
use crate::range::check;
use crate::read::entry;
use crate::rule::YearlyRule;
use crate::time::saving_offset;
use crate::values::{Rule, Tz};
use tz_lookup::Database;

/// The zone whose rule a text without one borrows.
const NEW_YORK: &str = "America/New_York";

impl<'a> PosixTz<'a> {
    /// The time zone of a text over a database.
    ///
    /// A positive offset lies west of UTC, and daylight saving time without an offset is one hour ahead of standard time. A
    /// time that a rule doesn't write is 02:00:00. The short form is the first zone in byte order whose name contains its
    /// text.
    ///
    /// # Errors
    ///
    /// In this order: `Grammar` exactly where the text spells no value; `Range` of the first part that is out of its range,
    /// of the standard offset, that of daylight saving time, both dates, the start's time and the end's; `UnknownName` with
    /// the text of the short form where no zone has it, or with `America/New_York` where daylight saving time has no rule
    /// and there is no such zone.
    pub fn parse(input: &'a str, database: &'a Database) -> Result<PosixTz<'a>, ParseError<'a>>
        ensures { IsParsed input.now database.now result }
    {
        match entry(input) {
            Some(tz) => match check(&tz) {
                Ok(()) => resolve(&tz, database),
                Err(miss) => Err(ParseError::Range(miss)),
            },
            None => Err(ParseError::Grammar),
        }
    }
}

/// What a value in its ranges stands for.
#[tactic(auto, unfolding(crate::specs::Resolved::resolved))]
fn resolve<'a>(tz: &Tz<'a>, database: &'a Database) -> Result<PosixTz<'a>, ParseError<'a>>
    requires { posix_range (tz_shown tz.now) ≡ None }
    ensures { IsResolved database.now (tz_shown tz.now) result }
{
    match tz {
        Tz::Short(part) => match database.find_first_by_name(part) {
            Some(zone) => Ok(PosixTz {
                kind: Kind::Zone(zone),
            }),
            None => Err(ParseError::UnknownName(part)),
        },
        Tz::Expanded { std, dst } => {
            let standard = Named {
                name: std.name,
                offset: std.offset.to_utc_offset(),
            };
            match dst {
                Some(dst) => {
                    let saving = Named {
                        name: dst.name,
                        offset: saving_offset(&dst.offset, standard.offset),
                    };
                    with_saving(&standard, &saving, &dst.rule, database)
                }
                None => Ok(PosixTz {
                    kind: Kind::Fixed(standard),
                }),
            }
        }
    }
}

/// Standard and daylight saving time with its rule, or with that of New York.
fn with_saving<'a>(
    standard: &Named<'a>,
    saving: &Named<'a>,
    rule: &Option<Rule>,
    database: &'a Database,
) -> Result<PosixTz<'a>, ParseError<'a>>
    requires { option_and_then (rule_range day_times) rule.now ≡ None }
    ensures { TellsZone (by_rule database.now (named_of standard.now) (named_of saving.now) rule.now) result }
{
    match rule {
        Some(rule) => Ok(PosixTz {
            kind: Kind::Ruled(standard.copied(), saving.copied(), YearlyRule::new(rule)),
        }),
        None => match database.get_by_name(NEW_YORK) {
            Some(zone) => Ok(PosixTz {
                kind: Kind::Borrowed(standard.copied(), saving.copied(), zone),
            }),
            None => Err(ParseError::UnknownName(NEW_YORK)),
        },
    }
}
