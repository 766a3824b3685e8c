//! The spans of a table's zones, line by line.
ghost use Rattle.std.specs.{Prelude.{◌≡◌, ◌≤◌, ℕ, All, IfErr, IfOk, IfSome, IsTrue, List, Ok, Option, Some, None, find, option_map, ◌<◌, drop, false, length, not, true}, FinMap.{get}, List.{list_all, list_any}};
ghost use Rattle.zone_table.specs.{BoundedTables.{IsBoundedTable}, Bounds.{is_bounded_info, is_bounded_rule}, Resolved.{resolved_in}, declared.zone.ZoneInfo.{ZoneInfo}};
ghost use Rattle.zone_spans.specs.{Bounds.{IsSoundOver, is_bounded, is_bounded_entry, is_bounded_line, is_bounded_span}, Causes.{IsDue, IsUnknown}, Collapse.{LocalEndsRise, EntryTimesDontFall}};
ghost use Rattle.zone_spans.specs.{Compiled.{TellsCompiled, compiled, compiled_over, set_of_lines_over}, Entries.{first_span, is_standard}, GoesOn.{TellsGoing, goes_on}, Lines.{Rulesets, end_before, fixed_saving, is_known, is_ruled, rules_named, zone_lines}};
ghost use Rattle.zone_spans.specs.{Years.{years_limit}, Faults.{is_unknown}};

use crate::entries::{first_span, sorted_entries};
use crate::fault::{SpanFault, line_fault};
use crate::goes_on::goes_on;
use crate::span::{FixedTimespanSet, collapse};
use crate::year::MOST_YEARS;
use basics::Items;
use std::alloc::Global;
use std::marker::Model;
use zone_table::{ChangeTime, RuleInfo, Saving, Table, ZoneInfo};

/// What has rulesets and zones by their names.
pub trait TableTransitions {
    /// The rules of each ruleset.
    ghost rulesets: { Self → Rulesets };

    /// The lines of the zone that a name finds.
    ghost zones: { Self → List ℕ → Option (List ZoneInfo) };

    /// All numbers are small.
    ghost IsBounded: { Self → Type 0 };

    /// What is in force when in the zone that a name finds, or none where it finds none.
    ///
    /// Each line of the zone begins with no saving, at the end of the line before it under that one's last saving; the end
    /// of the last line is ignored. A line with a ruleset expands the years 1800 to 2099, or to the year of its end: in
    /// each, the rule that is earliest under the saving in force fires, the first listed of several, until none is left or
    /// it would fire at or after the line's end. From the second line on, firings before its start are not listed, but the
    /// last of them gives the saving and the name at the start; where there is none, the first rule with no saving gives
    /// the name. All entries are put in order of time, and then `collapse` goes through them. What holds before them is the
    /// first line's saving, or where it has a ruleset the first entry with no saving.
    ///
    /// The rules are those of `parse-zoneinfo`; that an end is read by its clock is the zic manual's. The table is bounded.
    ///
    /// # Errors
    ///
    /// The first fault of the whole zone in the order of `SpanFault`, or `NoMemory`.
    fn timespans(
        &self,
        alloc: Global,
        zone_name: &str,
    ) -> Result<Option<FixedTimespanSet>, SpanFault>
        requires { IsBounded self.now }
        ensures told { TellsCompiled result (option_map (compiled (rulesets self.now)) (zones self.now zone_name.now)) }
        ensures bounded { IfOk result (λ found. IfSome found (λ set. IsTrue (is_bounded set))) }
        ensures times { IfOk result (λ found. IfSome found (λ set. EntryTimesDontFall set.rest)) }
        ensures law { IfOk result (λ found. IfSome found (λ set. LocalEndsRise set.rest)) };

    /// The same, but that a line with a ruleset expands so many years from 1800 on, or those to the year of its end: 1,000 at most,
    /// as `YEARS_LIMIT` says.
    ///
    /// # Errors
    ///
    /// As of `timespans`; the day of a rule that lies in another year is a fault in each of these years.
    fn timespans_over(
        &self,
        alloc: Global,
        zone_name: &str,
        years: u16,
    ) -> Result<Option<FixedTimespanSet>, SpanFault>
        requires bounded { IsBounded self.now }
        requires years { years ≤ years_limit }
        ensures told { TellsCompiled result (option_map (compiled_over years (rulesets self.now)) (zones self.now zone_name.now)) }
        ensures bounded { IfOk result (λ found. IfSome found (λ set. IsTrue (is_bounded set))) }
        ensures times { IfOk result (λ found. IfSome found (λ set. EntryTimesDontFall set.rest)) }
        ensures law { IfOk result (λ found. IfSome found (λ set. LocalEndsRise set.rest)) };

    /// Whether the zone that a name finds goes on for ever, or none where it finds none: its rules of 2100 are those of each later
    /// year, so what it shows from 2101 on repeats after 400 years. The cost is that of expanding its lines over 700 years.
    ///
    /// # Errors
    ///
    /// As of `timespans`, but that `NoStandardSpan` is not looked for.
    fn goes_on(&self, alloc: Global, zone_name: &str) -> Result<Option<bool>, SpanFault>
        requires { IsBounded self.now }
        ensures told { TellsGoing result (rulesets self.now) (zones self.now zone_name.now) }
        ensures bounded { IfOk result (λ _. (infos : List ZoneInfo) → zones self.now zone_name.now ≡ Some infos
            → list_all is_bounded_line (zone_lines (rulesets self.now) infos) ≡ true) };
}

impl TableTransitions for Table {
    ghost rulesets = { λ table. get table.rulesets };

    ghost zones = { resolved_in };

    ghost IsBounded = { IsBoundedTable };

    fn timespans(
        &self,
        alloc: Global,
        zone_name: &str,
    ) -> Result<Option<FixedTimespanSet>, SpanFault> {
        self.timespans_over(alloc, zone_name, MOST_YEARS)
    }

    fn timespans_over(
        &self,
        alloc: Global,
        zone_name: &str,
        years: u16,
    ) -> Result<Option<FixedTimespanSet>, SpanFault> {
        match self.get_zoneset(zone_name) {
            Some(lines) => match compile(alloc, self, lines, years) {
                Ok(set) => Ok(Some(set)),
                Err(fault) => Err(fault),
            },
            None => Ok(None),
        }
    }

    fn goes_on(&self, alloc: Global, zone_name: &str) -> Result<Option<bool>, SpanFault> {
        match self.get_zoneset(zone_name) {
            Some(lines) => match going(alloc, self, lines) {
                Ok(goes) => Ok(Some(goes)),
                Err(fault) => Err(fault),
            },
            None => Ok(None),
        }
    }
}

/// The lines of a zone, where none of them has a fault of its own over so many years.
///
/// # Errors
///
/// The first fault, but for the one that no entry has no saving.
#[tactic(auto, unfolding(crate::specs::Compiled::compiled_over))]
fn sound_lines<'a>(
    alloc: Global,
    table: &'a Table,
    infos: &'a [ZoneInfo],
    years: u16,
) -> Result<Items<Line<'a>>, SpanFault>
    requires years { years ≤ years_limit }
    requires table { IsBoundedTable table.now }
    requires lines { IsTrue (list_all is_bounded_info infos.now) }
    ensures lines { IfOk result (λ lines. lines ≡ zone_lines (get table.now.rulesets) infos.now) }
    ensures bounded { IfOk result (λ lines. IsTrue (list_all is_bounded_line lines)) }
    ensures sound { IfOk result (λ lines. All (IsSoundOver years) lines) }
    ensures due { IfOk result (λ lines. compiled_over years (get table.now.rulesets) infos.now ≡ set_of_lines_over years lines) }
    ensures err { IfErr result (λ fault. IsDue fault (compiled_over years (get table.now.rulesets) infos.now)) }
{
    match zone_lines(alloc, table, infos) {
        Ok(lines) => match line_fault(alloc, infos, lines.as_slice(), years) {
            Ok(Some(fault)) => Err(fault),
            Ok(None) => Ok(lines),
            Err(refused) => Err(SpanFault::from(refused)),
        },
        Err(fault) => Err(fault),
    }
}

/// The spans of a zone with these lines over so many years.
fn compile(
    alloc: Global,
    table: &Table,
    infos: &[ZoneInfo],
    years: u16,
) -> Result<FixedTimespanSet, SpanFault>
    requires years { years ≤ years_limit }
    requires table { IsBoundedTable table.now }
    requires lines { IsTrue (list_all is_bounded_info infos.now) }
    ensures ok { IfOk result (λ set. compiled_over years (get table.now.rulesets) infos.now ≡ Ok set) }
    ensures err { IfErr result (λ fault. IsDue fault (compiled_over years (get table.now.rulesets) infos.now)) }
    ensures bounded { IfOk result (λ set. IsTrue (is_bounded set)) }
    ensures times { IfOk result (λ set. EntryTimesDontFall set.rest) }
    ensures law { IfOk result (λ set. LocalEndsRise set.rest) }
{
    let lines = sound_lines(alloc, table, infos, years)?;
    expand(alloc, lines.as_slice(), years)
}

/// Whether a zone with these lines goes on for ever.
fn going(alloc: Global, table: &Table, infos: &[ZoneInfo]) -> Result<bool, SpanFault>
    requires table { IsBoundedTable table.now }
    requires lines { IsTrue (list_all is_bounded_info infos.now) }
    ensures ok { IfOk result (λ goes. goes ≡ goes_on (zone_lines (get table.now.rulesets) infos.now)) }
    ensures err { IfErr result (λ fault. IsDue fault (compiled (get table.now.rulesets) infos.now)) }
    ensures bounded { IfOk result (λ _. IsTrue (list_all is_bounded_line (zone_lines (get table.now.rulesets) infos.now))) }
{
    let lines = sound_lines(alloc, table, infos, MOST_YEARS)?;
    let goes = goes_on(alloc, lines.as_slice())?;
    Ok(goes)
}

/// The spans of lines that have no fault of their own over so many years.
#[tactic(auto, unfolding(crate::specs::Compiled::set_of_lines_over))]
fn expand(alloc: Global, lines: &[Line<'_>], years: u16) -> Result<FixedTimespanSet, SpanFault>
    requires bounded { IsTrue (list_all is_bounded_line lines.now) }
    requires sound { All (IsSoundOver years) lines.now }
    requires years { years ≤ years_limit }
    ensures ok { IfOk result (λ set. set_of_lines_over years lines.now ≡ Ok set) }
    ensures err { IfErr result (λ fault. IsDue fault (set_of_lines_over years lines.now)) }
    ensures bounded { IfOk result (λ set. IsTrue (is_bounded set)) }
    ensures times { IfOk result (λ set. EntryTimesDontFall set.rest) }
    ensures law { IfOk result (λ set. LocalEndsRise set.rest) }
{
    let entries = sorted_entries(alloc, lines, years)?;
    match first_span(alloc, lines, &entries)? {
        Some(first) => {
            let mut set = FixedTimespanSet {
                first,
                rest: entries,
            };
            collapse(&mut set);
            Ok(set)
        }
        None => Err(SpanFault::NoStandardSpan),
    }
}

/// A line with the rules that it names, and its end where it is not the last.
#[derive(Drop)]
pub(crate) struct Line<'a> {
    pub(crate) info: &'a ZoneInfo,
    pub(crate) rules: &'a [RuleInfo],
    pub(crate) end: Option<ChangeTime>,
}

impl<'a> Model for Line<'a> {
    ghost use Rattle.zone_spans.specs.Lines.{Line};

    ghost Value = { Line };

    ghost view = { λ line. record { info = line.info.now; rules = line.rules.now; end = line.end } };
}

impl<'a> Line<'a> {
    /// The line's saving is that of rules.
    pub(crate) fn is_ruled(&self) -> bool
        ensures { result ≡ is_ruled self.now.info.saving }
    {
        match self.info.saving {
            Saving::Multiple(_) => true,
            Saving::NoSaving | Saving::OneOff(_) => false,
        }
    }

    /// The name of the line's ruleset, or an empty text where it has none.
    pub(crate) fn ruleset_name(&self) -> &'a str {
        match &self.info.saving {
            Saving::Multiple(name) => name.as_str(),
            Saving::NoSaving | Saving::OneOff(_) => "",
        }
    }

    /// What is added for as long as the line holds, where no rules say it.
    pub(crate) fn fixed_saving(&self) -> i64
        ensures { result ≡ fixed_saving self.now.info.saving }
    {
        match self.info.saving {
            Saving::OneOff(seconds) => seconds,
            Saving::NoSaving | Saving::Multiple(_) => 0,
        }
    }
}

/// The rules that a saving names: none where it names none.
///
/// # Errors
///
/// `UnknownRuleset` where the table lacks the ruleset.
fn rules_named<'a>(table: &'a Table, saving: &Saving) -> Result<&'a [RuleInfo], SpanFault>
    requires { IsBoundedTable table.now }
    ensures ok { IfOk result (λ rules. rules.now ≡ rules_named (get table.now.rulesets) saving.now) }
    ensures known { IfOk result (λ _. IsTrue (is_known (get table.now.rulesets) saving.now)) }
    ensures bounded { IfOk result (λ rules. IsTrue (list_all is_bounded_rule rules.now)) }
    ensures err { IfErr result (λ fault. IsUnknown fault (not (is_known (get table.now.rulesets) saving.now))) }
{
    match saving {
        Saving::NoSaving | Saving::OneOff(_) => Ok(&[]),
        Saving::Multiple(name) => table
            .get_ruleset(name.as_str())
            .ok_or(SpanFault::UnknownRuleset),
    }
}

/// The end of the line at an index, where it is not the last.
fn end_at(infos: &[ZoneInfo], index: usize) -> Option<ChangeTime>
    requires { index < length infos.now }
    ensures { result ≡ end_before (drop index infos.now) }
{
    if index + 1 < infos.len() {
        infos[index].end_time
    } else {
        None
    }
}

/// The lines of a zone, each with the rules that it names.
///
/// # Errors
///
/// `UnknownRuleset` where the table lacks a ruleset that a line names, or `NoMemory`.
#[tactic(auto, unfolding(crate::specs::Lines::zone_lines))]
pub(crate) fn zone_lines<'a>(
    alloc: Global,
    table: &'a Table,
    infos: &'a [ZoneInfo],
) -> Result<Items<Line<'a>>, SpanFault>
    requires table { IsBoundedTable table.now }
    requires lines { IsTrue (list_all is_bounded_info infos.now) }
    ensures ok { IfOk result (λ lines. lines ≡ zone_lines (get table.now.rulesets) infos.now) }
    ensures known { IfOk result (λ _. list_any (is_unknown (get table.now.rulesets)) infos.now ≡ false) }
    ensures bounded { IfOk result (λ lines. IsTrue (list_all is_bounded_line lines)) }
    ensures err { IfErr result (λ fault. IsUnknown fault (list_any (is_unknown (get table.now.rulesets)) infos.now)) }
{
    let mut lines = Items::new(alloc);
    for i in 0..infos.len() {
        let info = &infos[i];
        let rules = rules_named(table, &info.saving)?;
        lines.push(Line {
            info,
            rules,
            end: end_at(infos, i),
        })?;
    }
    Ok(lines)
}
