//! The table, and how one is built from lines.
ghost use Rattle.std.specs.{Prelude.{◌≡◌, ◌↔◌, IsTrue, IfSome, [], List, reverse, OnOk, OnErr, IfErr}, FinMap.{get}, List.{list_all, AllPass}, Option.{option_copied}};
ghost use Rattle.zone_table.specs.{Values.{LineValue, line_value}, LineBounds.{is_bounded_line}, BoundedTables.{IsBoundedTable}, Bounds.{is_bounded_rule, is_bounded_info}, Resolved.{resolved, resolved_in}, Tables.{IsTableOf}, Built.{StandsFor, Joins, IsCause}, declared.error.Error.TheVariants.{NoMemory}};
ghost use Rattle.zone_table.specs.declared.line.Line.TheVariants as kind;
ghost use Rattle.basics.specs.Keyed.{EachPasses};

use crate::bounds::{are_bounded_lines, are_bounded_rules};
use crate::error::Error;
use crate::line::{Line, Link, Rule, Saving, Zone};
use crate::rule::RuleInfo;
use crate::zone::ZoneInfo;
use basics::{Items, Text, TextMap};
use std::alloc::Global;
use std::marker::Model;

/// Rulesets, zones and links by their names.
#[derive(Drop)]
pub struct Table {
    /// The rules of each ruleset, in order.
    pub rulesets: TextMap<Items<RuleInfo>>,
    /// The lines of each zone, in order.
    pub zonesets: TextMap<Items<ZoneInfo>>,
    /// The name that stands, by the new name.
    pub links: TextMap<Text>,
}

impl Table {
    /// A table with no ruleset, no zone and no link. It takes no memory.
    pub fn new(alloc: Global) -> Table
        ensures { IsTableOf result [] }
    {
        Table {
            rulesets: TextMap::new(alloc),
            zonesets: TextMap::new(alloc),
            links: TextMap::new(alloc),
        }
    }

    /// The rules of that name in order, or none where no rule has it.
    pub fn get_ruleset(&self, name: &str) -> Option<&[RuleInfo]>
        ensures found { option_copied result ≡ get self.now.rulesets name.now }
        ensures bounded { IsBoundedTable self.now → IfSome result (λ rules. IsTrue (list_all is_bounded_rule rules.now)) }
    {
        let rules = self.rulesets.get(name)?;
        Some(rules.as_slice())
    }

    /// The lines of the zone of that name, else those of the zone that the link of that name leads to, else none. One
    /// link is followed at most.
    pub fn get_zoneset(&self, zone_name: &str) -> Option<&[ZoneInfo]>
        ensures found { option_copied result ≡ resolved_in self.now zone_name.now }
        ensures joined { (values : List LineValue) → IsTableOf self.now values →
            option_copied result ≡ resolved (reverse values) zone_name.now }
        ensures bounded { IsBoundedTable self.now → IfSome result (λ lines. IsTrue (list_all is_bounded_info lines.now)) }
    {
        if let Some(lines) = self.zonesets.get(zone_name) {
            return Some(lines.as_slice());
        }
        let existing = self.links.get(zone_name)?;
        let lines = self.zonesets.get(existing.as_str())?;
        Some(lines.as_slice())
    }

    /// Whether the numbers of all rules and zone lines are small: each day number from 1 to 31, each offset, saving and
    /// time of day at most 1,000,000 seconds in size.
    pub fn is_bounded(&self) -> bool
        ensures { IsTrue result ↔ IsBoundedTable self.now }
    {
        self.has_bounded_rules() && self.has_bounded_lines()
    }

    fn has_bounded_rules(&self) -> bool
        ensures { IsTrue result ↔ EachPasses (list_all is_bounded_rule) self.now.rulesets }
    {
        self.rulesets
            .values()
            .all(|rules| are_bounded_rules(rules.as_slice()))
    }

    fn has_bounded_lines(&self) -> bool
        ensures { IsTrue result ↔ EachPasses (list_all is_bounded_info) self.now.zonesets }
    {
        self.zonesets
            .values()
            .all(|lines| are_bounded_lines(lines.as_slice()))
    }
}

/// A table that is built line by line. Contracts see the table so far and the name of the zone that is open, if one is:
/// the zone to which a continuation would be appended.
#[derive(Drop)]
pub struct TableBuilder {
    table: Table,
    open_zone: Option<Text>,
    alloc: Global,
}

impl Model for TableBuilder {
    ghost use Rattle.zone_table.specs.Built.{Built, built_code};
    ghost use Rattle.zone_table.specs.contracts.table.Table as stored;

    ghost Value = { Built };

    ghost coded = { built_code stored.the_row.coded };

    ghost view = { λ builder. record { table = builder.table; open_zone = builder.open_zone } };
}

impl TableBuilder {
    /// A builder of an empty table, with no zone open. It takes no memory.
    pub fn new(alloc: Global) -> TableBuilder
        ensures { StandsFor result [] }
    {
        TableBuilder {
            table: Table::new(alloc),
            open_zone: None,
            alloc,
        }
    }

    /// Adds a line of any kind. A blank line changes nothing, and leaves an open zone open.
    ///
    /// # Errors
    ///
    /// Those of the call for that kind of line.
    pub fn add_line(&mut self, line: Line<'_>) -> Result<(), Error>
        ensures ok { OnOk result (Joins self.old self.new (line_value line.entry)) }
        ensures err { OnErr result (self.new ≡ self.old) }
        ensures cause { IfErr result (IsCause self.old (line_value line.entry)) }
    {
        match line {
            Line::Space => Ok(()),
            Line::Zone(zone) => self.add_zone_line(zone),
            Line::Continuation(info) => self.add_continuation_line(info),
            Line::Rule(rule) => self.add_rule_line(rule),
            Line::Link(link) => self.add_link_line(link),
        }
    }

    /// Begins a zone with its first line, and opens it.
    ///
    /// # Errors
    ///
    /// [`Error::UnknownRuleset`] with the name of the ruleset that the line names and no earlier line defines; else
    /// [`Error::DuplicateZone`] where an earlier zone has the name; [`Error::NoMemory`].
    pub fn add_zone_line(&mut self, zone_line: Zone<'_>) -> Result<(), Error>
        ensures ok { OnOk result (Joins self.old self.new (line_value (kind.Zone zone_line.entry))) }
        ensures err { OnErr result (self.new ≡ self.old) }
        ensures cause { IfErr result (IsCause self.old (line_value (kind.Zone zone_line.entry))) }
    {
        if let Saving::Multiple(name) = zone_line.info.saving {
            if !self.table.rulesets.contains_key(name) {
                return Err(Error::UnknownRuleset(String::from_str(self.alloc, name)?));
            }
        }
        if self.table.zonesets.contains_key(zone_line.name) {
            return Err(Error::DuplicateZone);
        }
        let info = ZoneInfo::from_line(self.alloc, zone_line.info)?;
        let name = Text::new(self.alloc, zone_line.name)?;
        self.table
            .zonesets
            .append(self.alloc, zone_line.name, info)?;
        self.open_zone = Some(name);
        Ok(())
    }

    /// Appends a line to the open zone. The ruleset that it names may be unknown.
    ///
    /// # Errors
    ///
    /// [`Error::SurpriseContinuationLine`] where no zone is open; [`Error::NoMemory`].
    pub fn add_continuation_line(
        &mut self,
        continuation_line: crate::line::ZoneInfo<'_>,
    ) -> Result<(), Error>
        ensures ok { OnOk result (Joins self.old self.new (line_value (kind.Continuation continuation_line.entry))) }
        ensures err { OnErr result (self.new ≡ self.old) }
        ensures cause { IfErr result (IsCause self.old (line_value (kind.Continuation continuation_line.entry))) }
    {
        let Some(name) = &self.open_zone else {
            return Err(Error::SurpriseContinuationLine);
        };
        let info = ZoneInfo::from_line(self.alloc, continuation_line)?;
        self.table.zonesets.append(self.alloc, name.as_str(), info)?;
        Ok(())
    }

    /// Appends a rule to its ruleset, and closes the zone that is open.
    ///
    /// # Errors
    ///
    /// [`Error::NoMemory`] alone.
    pub fn add_rule_line(&mut self, rule_line: Rule<'_>) -> Result<(), Error>
        ensures ok { OnOk result (Joins self.old self.new (line_value (kind.Rule rule_line.entry))) }
        ensures err { OnErr result (self.new ≡ self.old) }
        ensures cause { IfErr result (λ error. error ≡ NoMemory) }
    {
        let name = rule_line.name;
        let info = RuleInfo::from_line(self.alloc, rule_line)?;
        self.table.rulesets.append(self.alloc, name, info)?;
        self.open_zone = None;
        Ok(())
    }

    /// Adds a link from a new name to one that stands, and closes the zone that is open. A zone may have the new name.
    ///
    /// # Errors
    ///
    /// [`Error::DuplicateLink`] with the new name where an earlier link has it; [`Error::NoMemory`].
    pub fn add_link_line(&mut self, link_line: Link<'_>) -> Result<(), Error>
        ensures ok { OnOk result (Joins self.old self.new (line_value (kind.Link link_line.entry))) }
        ensures err { OnErr result (self.new ≡ self.old) }
        ensures cause { IfErr result (IsCause self.old (line_value (kind.Link link_line.entry))) }
    {
        if self.table.links.contains_key(link_line.new) {
            return Err(Error::DuplicateLink(String::from_str(self.alloc, link_line.new)?));
        }
        let name = link_line.new;
        let existing = Text::new(self.alloc, link_line.existing)?;
        self.table.links.insert(self.alloc, name, existing)?;
        self.open_zone = None;
        Ok(())
    }

    /// The table of the lines that were accepted. It takes no memory.
    pub fn build(self) -> Table
        ensures table { result ≡ self.table }
        ensures joined { (values : List LineValue) → StandsFor self values → IsTableOf result values }
        ensures bounded { (values : List LineValue) → StandsFor self values →
            AllPass is_bounded_line values → IsBoundedTable result }
    {
        self.table
    }
}
