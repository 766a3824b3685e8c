//! The patterns, their texts in the syntax of the crate `regex`, and searches for them.
ghost use Rattle.std.specs.{Prelude.{◌≡◌, ℕ, List, None, Some, option_map, MatchOption, IfOk}, Borrow.{sem}};
ghost use Rattle.zone_line.specs.{Patterns.{captured, IsBuiltFrom, match_in, group_in, Searches}, Texts.{empty_text, zone_text, continuation_text, rule_text, link_text, day_text, hm_text, hms_text}};
ghost use Rattle.regex.specs.Lending.{KeepsTextPattern};

use crate::reader::LineReader;
use regex::{Captures, Matcher, Regex};
use std::alloc::{AllocError, Global};
use zone_table::{Line, LineError as Error};

/// A blank line, or a comment.
pub(crate) const EMPTY: &str = r"^\s*(#.*)?$";

/// A Zone line: the first line of a zone.
pub(crate) const ZONE: &str =
    r"^Zone\s+(?P<name>[A-Za-z0-9/_+-]+)\s+(?P<gmtoff>\S+)\s+(?P<rulessave>\S+)\s+(?P<format>\S+)\s*(?P<year>[0-9]+)?\s*(?P<month>[A-Za-z]+)?\s*(?P<day>[A-Za-z0-9><=]+)?\s*(?P<time>[0-9:]+[suwz]?)?\s*(#.*)?$";

/// A further line of a zone.
pub(crate) const CONTINUATION: &str =
    r"^\s+(?P<gmtoff>\S+)\s+(?P<rulessave>\S+)\s+(?P<format>\S+)\s*(?P<year>[0-9]+)?\s*(?P<month>[A-Za-z]+)?\s*(?P<day>[A-Za-z0-9><=]+)?\s*(?P<time>[0-9:]+[suwz]?)?\s*(#.*)?$";

/// A Rule line.
pub(crate) const RULE: &str =
    r"^Rule\s+(?P<name>\S+)\s+(?P<from>\S+)\s+(?P<to>\S+)\s+(?P<type>\S+)\s+(?P<in>\S+)\s+(?P<on>\S+)\s+(?P<at>\S+)\s+(?P<save>\S+)\s+(?P<letters>\S+)\s*(#.*)?$";

/// A Link line.
pub(crate) const LINK: &str = r"^Link\s+(?P<target>\S+)\s+(?P<name>\S+)\s*(#.*)?$";

/// A weekday on one side of a day of the month.
pub(crate) const DAY: &str = r"^(?P<weekday>\w+)(?P<sign>[<>]=)(?P<day>\d+)$";

/// A time of hours and minutes.
pub(crate) const HM: &str = r"^(?P<sign>-?)(?P<hour>\d{1,2}):(?P<minute>\d{2})(?P<flag>[wsugz])?$";

/// A time of hours, minutes and seconds.
pub(crate) const HMS: &str =
    r"^(?P<sign>-?)(?P<hour>\d{1,2}):(?P<minute>\d{2}):(?P<second>\d{2})(?P<flag>[wsugz])?$";

/// Compiles a pattern. It lies on the heap, so that what holds eight of them is small.
pub(crate) fn compile(alloc: Global, text: &str) -> Result<Box<Regex>, NotBuilt>
    ensures { IfOk result (λ regex. IsBuiltFrom text.now regex.value) }
{
    let Ok(regex) = Regex::new(alloc, text) else {
        return Err(NotBuilt);
    };
    let Ok(regex) = Box::new(alloc, regex) else {
        return Err(NotBuilt);
    };
    Ok(regex)
}

/// A matcher of a compiled pattern, on the heap too.
pub(crate) fn matcher(alloc: Global, regex: &Regex) -> Result<Box<Matcher<'_>>, AllocError>
    ensures { (text : List ℕ) → IsBuiltFrom text regex.now → IfOk result (λ matcher. Searches text matcher.value) }
{
    Ok(Box::new(alloc, regex.matcher(alloc)?)?)
}

/// The part that the group of that name took, if it took part.
pub(crate) fn part<'h>(captures: &Captures<'_, 'h>, name: &str) -> Option<&'h str>
    ensures { option_map (λ t. t.now) result ≡ captured captures.now name.now }
{
    Some(captures.name(name)?.as_str())
}

/// The leftmost-first match of the matcher's pattern in a line.
pub(crate) fn search<'r, 'm, 'h>(
    matcher: &'m mut Matcher<'r>,
    line: &'h str,
) -> Option<Captures<'m, 'h>>
    ensures found { (text : List ℕ) → Searches text matcher.old → MatchOption result (match_in text line.now ≡ None)
        (λ c. (m : _) × (match_in text line.now ≡ Some m) × ((name : List ℕ) → captured c name ≡ group_in text line.now m name)) }
    ensures* same { sem 𝓛 (KeepsTextPattern matcher.entry) }
{
    matcher.captures(line)
}

/// A pattern couldn't be compiled: the crate `regex` refused it for its size, or memory ran out.
#[derive(Clone, Copy, Debug, PartialEq, Eq)]
pub struct NotBuilt;

/// The compiled patterns of the lines and of their columns. Its type keeps that each of them
/// searches for what its text says.
#[derive(Drop)]
pub struct LineParser {
    pub(crate) empty: Box<Regex>,
    pub(crate) zone: Box<Regex>,
    pub(crate) continuation: Box<Regex>,
    pub(crate) rule: Box<Regex>,
    pub(crate) link: Box<Regex>,
    pub(crate) day: Box<Regex>,
    pub(crate) hm: Box<Regex>,
    pub(crate) hms: Box<Regex>,
    ghost empty_is: { IsBuiltFrom empty_text empty.value },
    ghost zone_is: { IsBuiltFrom zone_text zone.value },
    ghost continuation_is: { IsBuiltFrom continuation_text continuation.value },
    ghost rule_is: { IsBuiltFrom rule_text rule.value },
    ghost link_is: { IsBuiltFrom link_text link.value },
    ghost day_is: { IsBuiltFrom day_text day.value },
    ghost hm_is: { IsBuiltFrom hm_text hm.value },
    ghost hms_is: { IsBuiltFrom hms_text hms.value },
}

impl LineParser {
    ghost use Rattle.std.specs.Prelude.{IfOk, IsTrue};
    ghost use Rattle.zone_table.specs.{LineBounds.{is_bounded_line}, Faults.{Tells}, Values.{line_value}};
    ghost use Rattle.zone_line.specs.LineValues.{value};

    /// Compiles the patterns of the lines and of their columns, all of them. That each is the one
    /// of its text in `specs/Texts.antt` is kept by the ghost fields of `LineParser`, so this needs
    /// no clause: from then on `parse_str` reads each line as `value` says, by its own clauses.
    ///
    /// # Errors
    ///
    /// `NotBuilt` where the crate `regex` refuses a pattern or memory runs out. Which refusals of a
    /// text that crate can give stands in the clauses of `Regex::new`, by the words of its
    /// `specs/Sources.antt` and `specs/Failures.antt`. The patterns are always the same texts, so
    /// what can differ from one call to the next is the memory alone.
    pub fn new(alloc: Global) -> Result<LineParser, NotBuilt> {
        Ok(LineParser {
            empty: compile(alloc, EMPTY)?,
            zone: compile(alloc, ZONE)?,
            continuation: compile(alloc, CONTINUATION)?,
            rule: compile(alloc, RULE)?,
            link: compile(alloc, LINK)?,
            day: compile(alloc, DAY)?,
            hm: compile(alloc, HM)?,
            hms: compile(alloc, HMS)?,
        })
    }

    /// What reads lines with matchers that are made once. A caller that goes over a whole text
    /// uses one reader.
    ///
    /// # Errors
    ///
    /// Want of memory alone.
    pub fn reader(&self, alloc: Global) -> Result<LineReader<'_>, AllocError> {
        LineReader::new(alloc, self)
    }

    /// Reads one line. Its kind is that of the first pattern that matches: blank, Zone,
    /// continuation, Rule, Link. Its columns are then read in order: of a rule FROM, TO, TYPE, IN,
    /// ON, AT and SAVE; of a zone line GMTOFF, RULES and the end's year, month, day and time.
    /// Columns of an end after one that is missing are not read. Each day number in a line that is
    /// read is from 1 to 31, and each amount of time in it at most 1,000,000 seconds.
    ///
    /// # Errors
    ///
    /// That of the first column that has no value. A line of no kind is `InvalidLineType`, and so,
    /// after RULES, is one whose end has no year. `NoMemory` where memory runs out.
    pub fn parse_str<'a>(&self, alloc: Global, input: &'a str) -> Result<Line<'a>, Error>
        ensures value { Tells line_value result (value input.now) }
        ensures bounded { IfOk result (λ line. IsTrue (is_bounded_line (line_value line))) }
    {
        let mut reader = self.reader(alloc)?;
        reader.parse_str(alloc, input)
    }
}
