//! The patterns' matchers, for many lines in turn, and the values of the lines and columns that they match.
ghost use Rattle.std.specs.{Prelude.{◌≡◌, ℕ, List, option_map, IfOk, IsTrue}, List.{list_all}};
ghost use Rattle.zone_line.specs.Kinds.{is_plainly_blank, is_no_feed};
ghost use Rattle.zone_line.specs.{Patterns.{Searches, found_in}, Texts.{empty_text, zone_text, continuation_text, rule_text, link_text, day_text, hm_text, hms_text}, Fields.{sided, sided_day, last_weekday}, LineValues.{one_off_of}};
ghost use Rattle.zone_line.specs.Shown.{clock_shown, day_shown};
ghost use Rattle.zone_table.specs.{Faults.{told}, Values.{saving_value}};

use crate::columns::{
    ClockColumns, Columns, DayColumns, InfoColumns, Kind, LinkColumns, MinuteClock, RuleColumns,
    SecondClock, ZoneColumns, found,
};
use crate::fields::{
    after_last, clock_time, clock_type, day_numbered, day_of_month, hours_alone, if_wall,
    is_ruleset_name, letters_of, no_time, to_field, type_field,
};
use crate::parser::{LineParser, matcher};
use basics::is_numeral;
use regex::Matcher;
use std::alloc::{AllocError, Global};
use zone_table::{
    ChangeTime, DaySpec, Fault, FaultKind, Line, LineError as Error, LineInfo as ZoneInfo,
    LineSaving as Saving, Link, Month, Rule, TimeSpec, TimeSpecAndType, Weekday, Year, Zone,
    value_or_fault,
};

/// Reads lines with matchers that are made once, by `LineParser::reader`.
#[derive(Drop)]
pub struct LineReader<'p> {
    empty: Box<Matcher<'p>>,
    zone: Box<Matcher<'p>>,
    continuation: Box<Matcher<'p>>,
    rule: Box<Matcher<'p>>,
    link: Box<Matcher<'p>>,
    day: Box<Matcher<'p>>,
    hm: Box<Matcher<'p>>,
    hms: Box<Matcher<'p>>,
    ghost empty_is: { Searches empty_text empty.value },
    ghost zone_is: { Searches zone_text zone.value },
    ghost continuation_is: { Searches continuation_text continuation.value },
    ghost rule_is: { Searches rule_text rule.value },
    ghost link_is: { Searches link_text link.value },
    ghost day_is: { Searches day_text day.value },
    ghost hm_is: { Searches hm_text hm.value },
    ghost hms_is: { Searches hms_text hms.value },
}

impl<'p> LineReader<'p> {
    ghost use Rattle.zone_line.specs.{Columns.{zone_columns, continuation_columns, rule_columns, link_columns}, Clocks.{minute_clock, second_clock}, DayColumns.{day_columns}, Kinds.{is_blank}};
    ghost use Rattle.zone_line.specs.Shown.{zone_shown, info_shown, rule_shown, link_shown, clock_shown, day_shown};

    /// The matchers of the parser's patterns.
    pub(crate) fn new(alloc: Global, parser: &'p LineParser) -> Result<LineReader<'p>, AllocError> {
        let empty = matcher(alloc, &parser.empty)?;
        let zone = matcher(alloc, &parser.zone)?;
        let continuation = matcher(alloc, &parser.continuation)?;
        let rule = matcher(alloc, &parser.rule)?;
        let link = matcher(alloc, &parser.link)?;
        let day = matcher(alloc, &parser.day)?;
        let hm = matcher(alloc, &parser.hm)?;
        let hms = matcher(alloc, &parser.hms)?;
        Ok(LineReader {
            empty,
            zone,
            continuation,
            rule,
            link,
            day,
            hm,
            hms,
        })
    }

    /// Whether a line is blank or a comment.
    pub(crate) fn is_blank(&mut self, line: &str) -> bool
        ensures { result ≡ is_blank line.now }
    {
        // Most lines of a source are told by their bytes, with no search.
        is_plainly_blank(line) || self.empty.is_match(line)
    }

    /// The columns of a Zone line.
    #[tactic(auto, unfolding(crate::specs::Columns::zone_columns))]
    pub(crate) fn zone_columns<'a>(&mut self, line: &'a str) -> Option<ZoneColumns<'a>>
        ensures { option_map zone_shown result ≡ zone_columns line.now }
    {
        find(&mut self.zone, line)
    }

    /// The columns of a continuation.
    #[tactic(auto, unfolding(crate::specs::Columns::continuation_columns))]
    pub(crate) fn continuation_columns<'a>(&mut self, line: &'a str) -> Option<InfoColumns<'a>>
        ensures { option_map info_shown result ≡ continuation_columns line.now }
    {
        find(&mut self.continuation, line)
    }

    /// The columns of a Rule line.
    #[tactic(auto, unfolding(crate::specs::Columns::rule_columns))]
    pub(crate) fn rule_columns<'a>(&mut self, line: &'a str) -> Option<RuleColumns<'a>>
        ensures { option_map rule_shown result ≡ rule_columns line.now }
    {
        find(&mut self.rule, line)
    }

    /// The columns of a Link line.
    #[tactic(auto, unfolding(crate::specs::Columns::link_columns))]
    pub(crate) fn link_columns<'a>(&mut self, line: &'a str) -> Option<LinkColumns<'a>>
        ensures { option_map link_shown result ≡ link_columns line.now }
    {
        find(&mut self.link, line)
    }

    /// The parts of a day on one side of a number.
    #[tactic(auto, unfolding(crate::specs::DayColumns::day_columns))]
    pub(crate) fn day_columns<'a>(&mut self, text: &'a str) -> Option<DayColumns<'a>>
        ensures { option_map day_shown result ≡ day_columns text.now }
    {
        find(&mut self.day, text)
    }

    /// The parts of hours and minutes.
    #[tactic(auto, unfolding(crate::specs::Clocks::minute_clock))]
    pub(crate) fn minute_clock<'a>(&mut self, text: &'a str) -> Option<ClockColumns<'a>>
        ensures { option_map clock_shown result ≡ minute_clock text.now }
    {
        let clock: MinuteClock<'a> = find(&mut self.hm, text)?;
        Some(clock.0)
    }

    /// The parts of hours, minutes and seconds.
    #[tactic(auto, unfolding(crate::specs::Clocks::second_clock))]
    pub(crate) fn second_clock<'a>(&mut self, text: &'a str) -> Option<ClockColumns<'a>>
        ensures { option_map clock_shown result ≡ second_clock text.now }
    {
        let clock: SecondClock<'a> = find(&mut self.hms, text)?;
        Some(clock.0)
    }
}

impl LineReader<'_> {
    ghost use Rattle.zone_table.specs.{LineBounds.{is_bounded_line}, Faults.{Tells, told}, Values.{line_value, info_value, rule_value}};
    ghost use Rattle.zone_line.specs.{Kinds.{kind_of}, LineValues.{value, value_of_kind, info_of, end_of, until, rule_of}, Shown.{info_shown, rule_shown, zone_shown, kind_shown}};

    /// Reads one line, as `LineParser::parse_str` does.
    ///
    /// # Errors
    ///
    /// Those of `LineParser::parse_str`.
    pub fn parse_str<'a>(&mut self, alloc: Global, input: &'a str) -> Result<Line<'a>, Error>
        ensures value { Tells line_value result (value input.now) }
        ensures bounded { IfOk result (λ line. IsTrue (is_bounded_line (line_value line))) }
    {
        match self.value(input) {
            Ok(line) => Ok(line),
            Err(fault) => Err(fault.error(alloc)),
        }
    }

    /// The value of a line.
    #[tactic(auto, unfolding(crate::specs::LineValues::value))]
    fn value<'a>(&mut self, line: &'a str) -> Result<Line<'a>, Fault<'a>>
        ensures { told line_value result ≡ value line.now }
    {
        match self.kind(line) {
            Some(kind) => self.value_of_kind(line, &kind),
            None => Err(Fault {
                kind: FaultKind::InvalidLineType,
                text: line,
            }),
        }
    }

    /// The kind of a line, with the texts of its columns.
    #[tactic(auto, unfolding(crate::specs::Kinds::kind_of))]
    fn kind<'a>(&mut self, line: &'a str) -> Option<Kind<'a>>
        ensures { option_map kind_shown result ≡ kind_of line.now }
    {
        if self.is_blank(line) {
            return Some(Kind::Space);
        }
        if let Some(columns) = self.zone_columns(line) {
            return Some(Kind::Zone(columns));
        }
        if let Some(columns) = self.continuation_columns(line) {
            return Some(Kind::Continuation(columns));
        }
        if let Some(columns) = self.rule_columns(line) {
            return Some(Kind::Rule(columns));
        }
        let columns = self.link_columns(line)?;
        Some(Kind::Link(columns))
    }

    /// The value of a line of that kind.
    #[tactic(auto, unfolding(crate::specs::LineValues::value_of_kind))]
    fn value_of_kind<'a>(&mut self, line: &'a str, kind: &Kind<'a>) -> Result<Line<'a>, Fault<'a>>
        ensures { told line_value result ≡ value_of_kind line.now (kind_shown kind.now) }
    {
        match kind {
            Kind::Space => Ok(Line::Space),
            Kind::Zone(columns) => {
                let info = self.info(line, &columns.info)?;
                Ok(Line::Zone(Zone {
                    name: columns.name,
                    info,
                }))
            }
            Kind::Continuation(columns) => {
                let info = self.info(line, columns)?;
                Ok(Line::Continuation(info))
            }
            Kind::Rule(columns) => {
                let rule = self.rule(columns)?;
                Ok(Line::Rule(rule))
            }
            Kind::Link(columns) => {
                Ok(Line::Link(Link {
                    existing: columns.target,
                    new: columns.name,
                }))
            }
        }
    }

    /// What a zone line or a continuation says of a stretch of time.
    #[tactic(auto, unfolding(crate::specs::LineValues::info_of))]
    fn info<'a>(
        &mut self,
        line: &'a str,
        columns: &InfoColumns<'a>,
    ) -> Result<ZoneInfo<'a>, Fault<'a>>
        ensures { told info_value result ≡ info_of line.now (info_shown columns.now) }
    {
        let utc_offset = self.wall_field(columns.gmtoff)?;
        let saving = self.saving_field(columns.rules)?;
        let time = self.end(line, columns)?;
        Ok(ZoneInfo {
            utc_offset,
            saving,
            format: columns.format,
            time,
        })
    }

    /// The end of a zone line or a continuation, where it has one.
    #[tactic(auto, unfolding(crate::specs::LineValues::end_of, crate::specs::LineValues::some_end))]
    fn end<'a>(
        &mut self,
        line: &'a str,
        columns: &InfoColumns<'a>,
    ) -> Result<Option<ChangeTime>, Fault<'a>>
        ensures { told (λ end. end) result ≡ end_of line.now (info_shown columns.now) }
    {
        match columns.year {
            Some(year) => {
                let end = self.until(year, columns)?;
                Ok(Some(end))
            }
            None if columns.has_yearless_end() => Err(Fault {
                kind: FaultKind::InvalidLineType,
                text: line,
            }),
            None => Ok(None),
        }
    }

    /// An end with a year.
    #[tactic(auto, unfolding(crate::specs::LineValues::until))]
    fn until<'a>(
        &mut self,
        year: &'a str,
        columns: &InfoColumns<'a>,
    ) -> Result<ChangeTime, Fault<'a>>
        ensures { let shown = info_shown columns.now in
            told (λ end. end) result ≡ until year.now shown.month shown.day shown.time }
    {
        let year = Year::read(year)?;
        let Some(month) = columns.month else {
            return Ok(ChangeTime::UntilYear(year));
        };
        let month = Month::read(month)?;
        let Some(day) = columns.day else {
            return Ok(ChangeTime::UntilMonth(year, month));
        };
        let day = self.day_field(day)?;
        let Some(time) = columns.time else {
            return Ok(ChangeTime::UntilDay(year, month, day));
        };
        let time = self.time_field(time)?;
        Ok(ChangeTime::UntilTime(year, month, day, time))
    }

    /// A rule.
    #[tactic(auto, unfolding(crate::specs::LineValues::rule_of))]
    fn rule<'a>(&mut self, columns: &RuleColumns<'a>) -> Result<Rule<'a>, Fault<'a>>
        ensures { told rule_value result ≡ rule_of (rule_shown columns.now) }
    {
        let from_year = Year::read(columns.from)?;
        let to_year = to_field(columns.to)?;
        type_field(columns.kind)?;
        let month = Month::read(columns.month)?;
        let day = self.day_field(columns.on)?;
        let time = self.time_field(columns.at)?;
        let time_to_add = self.wall_field(columns.save)?;
        let letters = letters_of(columns.letters);
        let name = columns.name;
        Ok(Rule {
            name,
            from_year,
            to_year,
            month,
            day,
            time,
            time_to_add,
            letters,
        })
    }
}

impl LineReader<'_> {
    ghost use Rattle.zone_line.specs.{Clocks.{clock_in}, Fields.{time_field, wall_field, day_field}, LineValues.{saving_field}, Times.{time_of}, Shown.{clock_shown}};
    ghost use Rattle.zone_table.specs.{Faults.{told}, Values.{saving_value}};

    /// The parts of a time with one colon or two.
    fn clock<'a>(&mut self, text: &'a str) -> Option<ClockColumns<'a>>
        ensures { option_map clock_shown result ≡ clock_in text.now }
    {
        match self.minute_clock(text) {
            Some(parts) => Some(parts),
            None => self.second_clock(text),
        }
    }

    /// The time that a text is.
    #[tactic(auto, unfolding(crate::specs::Times::time_of))]
    fn time(&mut self, text: &str) -> Option<TimeSpecAndType>
        ensures { result ≡ time_of text.now }
    {
        if let Some(time) = no_time(text) {
            return Some(time);
        }
        if let Some(time) = hours_alone(text) {
            return Some(time);
        }
        let parts = self.clock(text)?;
        Some(clock_time(&parts)?.with_type(clock_type(parts.flag)))
    }

    /// A time with its clock.
    pub(crate) fn time_field<'a>(&mut self, text: &'a str) -> Result<TimeSpecAndType, Fault<'a>>
        ensures { told (λ time. time) result ≡ time_field text.now }
    {
        value_or_fault(self.time(text), FaultKind::InvalidTimeSpecAndType, text)
    }

    /// A time that has to be the wall's.
    #[tactic(auto, unfolding(crate::specs::Fields::wall_field))]
    pub(crate) fn wall_field<'a>(&mut self, text: &'a str) -> Result<TimeSpec, Fault<'a>>
        ensures { told (λ time. time) result ≡ wall_field text.now }
    {
        let time = self.time_field(text)?;
        value_or_fault(if_wall(time), FaultKind::NonWallClockInTimeSpec, text)
    }

    /// The RULES column: a hyphen, the name of a ruleset, or an amount of time.
    #[tactic(auto, unfolding(crate::specs::LineValues::saving_field))]
    pub(crate) fn saving_field<'a>(&mut self, text: &'a str) -> Result<Saving<'a>, Fault<'a>>
        ensures { told saving_value result ≡ saving_field text.now }
    {
        if text == "-" {
            return Ok(Saving::NoSaving);
        }
        if is_ruleset_name(text) {
            return Ok(Saving::Multiple(text));
        }
        match self.minute_clock(text) {
            Some(parts) => one_off(text, &parts),
            None => Err(Fault {
                kind: FaultKind::CouldNotParseSaving,
                text,
            }),
        }
    }

    /// A day of a month: a number, `last` and a weekday, or a weekday on one side of a number.
    #[tactic(auto, unfolding(crate::specs::Fields::day_field))]
    pub(crate) fn day_field<'a>(&mut self, text: &'a str) -> Result<DaySpec, Fault<'a>>
        ensures { told (λ day. day) result ≡ day_field text.now }
    {
        if is_numeral(text) {
            return match day_numbered(text) {
                Some(number) => Ok(DaySpec::Ordinal(number)),
                None => Err(Fault {
                    kind: FaultKind::InvalidDaySpec,
                    text,
                }),
            };
        }
        if let Some(weekday) = after_last(text) {
            return last_day(weekday);
        }
        match self.day_columns(text) {
            Some(columns) => sided_day(text, &columns),
            None => Err(Fault {
                kind: FaultKind::InvalidDaySpec,
                text,
            }),
        }
    }
}

/// Whether a line is empty, or a comment from its first byte on.
#[tactic(auto, unfolding(crate::specs::Kinds::is_plainly_blank))]
fn is_plainly_blank(line: &str) -> bool
    ensures { result ≡ is_plainly_blank line.now }
{
    let bytes = line.as_bytes();
    bytes.is_empty() || (bytes[0] == b'#' && is_one_line(bytes))
}

/// Whether no byte is a line feed.
fn is_one_line(bytes: &[u8]) -> bool
    ensures { result ≡ list_all is_no_feed bytes.now }
{
    // Each is looked at, whatever the others are, so that many are looked at at once.
    let mut all = true;
    for i in 0..bytes.len() {
        all &= bytes[i] != b'\n';
    }
    all
}

/// What `found` gives of a matcher that lies on the heap.
fn find<'a, C: Columns<'a>>(matcher: &mut Box<Matcher<'_>>, line: &'a str) -> Option<C>
    ensures found { (pattern : List ℕ) → Searches pattern matcher.old.value → option_map C.shown result ≡ found_in C.texts_of pattern line.now }
    ensures kept { (pattern : List ℕ) → Searches pattern matcher.old.value → Searches pattern matcher.new.value }
{
    found(matcher, line)
}

/// A saving that holds as long as the line: hours and minutes by the wall's clock.
#[tactic(auto, unfolding(crate::specs::LineValues::one_off_of))]
fn one_off<'a>(text: &'a str, parts: &ClockColumns<'a>) -> Result<Saving<'a>, Fault<'a>>
    ensures { told saving_value result ≡ one_off_of text.now (clock_shown parts.now) }
{
    let time = value_or_fault(clock_time(parts), FaultKind::InvalidTimeSpecAndType, text)?;
    let amount = if_wall(time.with_type(clock_type(parts.flag)));
    let amount = value_or_fault(amount, FaultKind::NonWallClockInTimeSpec, text)?;
    Ok(Saving::OneOff(amount))
}

/// The last such weekday of a month.
#[tactic(auto, unfolding(crate::specs::Fields::last_weekday))]
fn last_day(weekday: &str) -> Result<DaySpec, Fault<'_>>
    ensures { told (λ day. day) result ≡ last_weekday weekday.now }
{
    let weekday = Weekday::read(weekday)?;
    Ok(DaySpec::Last(weekday))
}

/// A weekday on one side of a number; the weekday is read before the number.
#[tactic(auto, unfolding(crate::specs::Fields::sided_day))]
fn sided_day<'a>(text: &'a str, columns: &DayColumns<'a>) -> Result<DaySpec, Fault<'a>>
    ensures { told (λ day. day) result ≡ sided_day text.now (day_shown columns.now) }
{
    let weekday = Weekday::read(columns.weekday)?;
    let number = value_or_fault(day_of_month(columns.day), FaultKind::InvalidDaySpec, text)?;
    Ok(sided(columns.sign, weekday, number))
}

/// The day on or before or the day on or after, by the sign.
fn sided(sign: &str, weekday: Weekday, number: i8) -> DaySpec
    ensures { result ≡ sided sign.now weekday number }
{
    if sign == "<=" {
        DaySpec::LastOnOrBefore(weekday, number)
    } else {
        DaySpec::FirstOnOrAfter(weekday, number)
    }
}
