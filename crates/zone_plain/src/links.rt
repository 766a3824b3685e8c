//! Links in any order and links to links, each led to its zone; and why a source as a whole is refused.
ghost use Rattle.std.specs.{Prelude.{◌≡◌, ℕ, List, [], ◌∷◌, ◌++◌, map as each, length, IfOk, OnOk, unwrap_or, Ok, None, Some, option_map, bytes_eq, slice_get, IfErr}, Option.{option_or}};
ghost use Rattle.std.specs.FinMap as map;
ghost use Rattle.zone_table.specs.Values.{LineValue, line_value, saving_value};
ghost use Rattle.zone_table.specs.Values as value;
ghost use Rattle.zone_table.specs.declared.line.Line.TheVariants as kind;
ghost use Rattle.zone_plain.specs.{Stands.{IsDeclared, AddsTarget, IsKnown, IsBehind, LeadsTo, IsAt, IsLinkText, line_at_place, names_of}, Declares.{has_zone, target_of}, Settled.{lacks_rules, link_size, link_after, settled_line, settled_link, settled}};
ghost use Rattle.zone_plain.specs.declared.links.Declared.{Declared};
ghost use Rattle.zone_plain_lines.specs.{Told.{IsRefused}, LineFaults.{IsFaultOf}};

use basics::{Text, TextMap};
use std::alloc::{AllocError, Global};
use zone_line::{Line, LineReader};
use zone_plain_lines::{PlainCause, PlainFault, Refused, fault_at, write_said};
use zone_source::LIMIT;
use zone_table::{LineSaving as Saving, Link, Zone};

/// The names that a source declares.
#[derive(Drop)]
pub(crate) struct Declared<'t> {
    /// The names of its zones.
    pub names: Vec<&'t str>,
    /// Where each of them stands among these.
    pub zones: TextMap<usize>,
    /// The target of the first link of each new name.
    pub targets: TextMap<Text>,
    /// The rulesets that have a rule.
    pub rulesets: TextMap<()>,
}

/// What the lines before one declare, and where the names lead that were met there.
#[derive(Drop)]
pub(crate) struct Seen {
    /// The names of the zones.
    pub zones: TextMap<()>,
    /// The target of the first link of each new name.
    pub targets: TextMap<Text>,
    /// Where the zone to which a name leads stands among the names of zones.
    pub known: TextMap<usize>,
}

impl<'t> Declared<'t> {
    /// Nothing that is declared.
    fn new(alloc: Global) -> Declared<'t>
        ensures { IsDeclared result [] }
    {
        Declared {
            names: Vec::new(alloc),
            zones: TextMap::new(alloc),
            targets: TextMap::new(alloc),
            rulesets: TextMap::new(alloc),
        }
    }
}

/// Adds a zone's name, and its place among the names.
fn add_zone<'t>(
    alloc: Global,
    names: &mut Vec<&'t str>,
    zones: &mut TextMap<usize>,
    name: &'t str,
) -> Result<(), AllocError>
    ensures names { OnOk result (each (λ one. one.now) names.new.items ≡ each (λ one. one.now) names.old.items ++ name.now ∷ []) }
    ensures zones { OnOk result (zones.new ≡ map.insert zones.old name.now (length (each (λ one. one.now) names.old.items))) }
{
    let place = names.as_slice().len();
    names.push(name)?;
    zones.insert(alloc, name, place)
}

/// Adds a link's target, if the link is the first of its new name.
fn add_target(
    alloc: Global,
    targets: &mut TextMap<Text>,
    existing: &str,
    new: &str,
) -> Result<(), AllocError>
    ensures { OnOk result (AddsTarget targets.old targets.new existing.now new.now) }
{
    if targets.contains_key(new) {
        return Ok(());
    }
    let copy = Text::new(alloc, existing)?;
    targets.insert(alloc, new, copy)
}

/// Adds what a line declares.
fn declare<'t>(
    alloc: Global,
    declared: &mut Declared<'t>,
    line: &Line<'t>,
) -> Result<(), AllocError>
    ensures { OnOk result ((values : List LineValue) → IsDeclared declared.old values
        → IsDeclared declared.new (values ++ line_value line.now ∷ [])) }
{
    match line {
        Line::Space => Ok(()),
        Line::Continuation(_) => Ok(()),
        Line::Zone(zone) => {
            add_zone(alloc, &mut declared.names, &mut declared.zones, zone.name)?;
            Ok(())
        }
        Line::Rule(rule) => declared.rulesets.insert(alloc, rule.name, ()),
        Line::Link(link) => add_target(alloc, &mut declared.targets, link.existing, link.new),
    }
}

/// What the lines declare.
fn declared_by<'t>(alloc: Global, lines: &[Line<'t>]) -> Result<Declared<'t>, AllocError>
    ensures { IfOk result (λ declared. IsDeclared declared (each line_value lines.now)) }
{
    let mut declared = Declared::new(alloc);
    for line in lines {
        declare(alloc, &mut declared, line)?;
    }
    Ok(declared)
}

/// Where a zone of that name stands among the names, or the zone to which the name is known to lead.
fn place_of(declared: &Declared<'_>, known: &TextMap<usize>, name: &str) -> Option<usize>
    ensures { result ≡ option_or (map.get declared.now.zones name.now) (map.get known.now name.now) }
{
    match declared.zones.get(name) {
        Some(place) => Some(*place),
        None => match known.get(name) {
            Some(place) => Some(*place),
            None => None,
        },
    }
}

/// Where the zone to which a name leads stands among the names of zones, by way of so many links at most, or none where it
/// leads to no zone.
fn zone_place(
    declared: &Declared<'_>,
    known: &TextMap<usize>,
    limit: usize,
    name: &str,
) -> Option<usize>
    ensures { (values : List LineValue) → IsDeclared declared.now values → IsKnown (names_of declared.now) values known.now
        → limit ≡ length values → IsBehind (names_of declared.now) values name.now result }
{
    let mut at = name;
    for step in 0..limit {
        let place = place_of(declared, known, at);
        if place.is_some() {
            return place;
        }
        match declared.targets.get(at) {
            Some(target) => at = target.as_str(),
            None => return None,
        }
    }
    place_of(declared, known, at)
}

/// Notes of the names on the way from that one to the zone at a place that they lead there.
fn keep(
    alloc: Global,
    declared: &Declared<'_>,
    known: &mut TextMap<usize>,
    limit: usize,
    name: &str,
    place: usize,
) -> Result<(), AllocError>
    ensures { OnOk result ((values : List LineValue) → IsDeclared declared.now values → IsKnown (names_of declared.now) values known.old
        → LeadsTo (names_of declared.now) values name.now place → IsKnown (names_of declared.now) values known.new) }
{
    let mut at = name;
    for step in 0..limit {
        if place_of(declared, known, at).is_some() {
            return Ok(());
        }
        known.insert(alloc, at, place)?;
        match declared.targets.get(at) {
            Some(target) => at = target.as_str(),
            None => return Ok(()),
        }
    }
    Ok(())
}

/// Whether RULES names a ruleset of which there is no rule.
fn lacks_rules(declared: &Declared<'_>, saving: &Saving<'_>) -> bool
    ensures { (values : List LineValue) → IsDeclared declared.now values → result ≡ lacks_rules values (saving_value saving.now) }
{
    match saving {
        Saving::NoSaving | Saving::OneOff(_) => false,
        Saving::Multiple(name) => !declared.rulesets.contains_key(name),
    }
}

/// How many bytes a line takes among the links, by its text, if it is one.
fn link_size(line: &Line<'_>, text: &[u8]) -> usize
    requires { IsLinkText text.now (line_value line.now) }
    ensures { result ≡ link_size (line_value line.now) }
{
    match line {
        Line::Link(_) => text.len() + 1,
        Line::Space | Line::Zone(_) | Line::Continuation(_) | Line::Rule(_) => 0,
    }
}

/// Whether an earlier link of that new name has this target, or none where there is no such link.
fn is_same(targets: &TextMap<Text>, existing: &str, new: &str) -> Option<bool>
    ensures { result ≡ option_map (λ earlier. bytes_eq earlier existing.now) (map.get targets.now new.now) }
{
    match targets.get(new) {
        Some(earlier) => Some(earlier.as_str() == existing),
        None => None,
    }
}

/// Where the zone of a link that is the first of its new name stands among the names.
fn first_link(
    alloc: Global,
    declared: &Declared<'_>,
    seen: &mut Seen,
    limit: usize,
    existing: &str,
    new: &str,
) -> Result<usize, Refused>
    ensures ok { IfOk result (λ place. (values before : List LineValue) → IsAt declared.now seen.old limit values before
        → (link_after values None existing.now new.now ≡ Ok (line_at_place (names_of declared.now) (Some place) new.now))
        × IsAt declared.now seen.new limit values (before ++ value.link existing.now new.now ∷ [])) }
    ensures err { IfErr result (λ refused. (values before : List LineValue) → IsAt declared.now seen.old limit values before
        → IsRefused (link_after values None existing.now new.now) refused) }
{
    let Some(place) = zone_place(declared, &seen.known, limit, existing) else {
        return Err(Refused::Cause(PlainCause::Target));
    };
    keep(alloc, declared, &mut seen.known, limit, existing, place)?;
    add_target(alloc, &mut seen.targets, existing, new)?;
    Ok(place)
}

/// Where the zone of a link stands among the names, or none where the same link stands before.
fn link_place(
    alloc: Global,
    declared: &Declared<'_>,
    seen: &mut Seen,
    limit: usize,
    existing: &str,
    new: &str,
) -> Result<Option<usize>, Refused>
    ensures ok { IfOk result (λ place. (values before : List LineValue) → IsAt declared.now seen.old limit values before
        → (link_after values (target_of before new.now) existing.now new.now ≡ Ok (line_at_place (names_of declared.now) place new.now))
        × IsAt declared.now seen.new limit values (before ++ value.link existing.now new.now ∷ [])) }
    ensures err { IfErr result (λ refused. (values before : List LineValue) → IsAt declared.now seen.old limit values before
        → IsRefused (link_after values (target_of before new.now) existing.now new.now) refused) }
{
    match is_same(&seen.targets, existing, new) {
        Some(true) => Ok(None),
        Some(false) => Err(Refused::Cause(PlainCause::DuplicateLink)),
        None => match first_link(alloc, declared, seen, limit, existing, new) {
            Ok(place) => Ok(Some(place)),
            Err(refused) => Err(refused),
        },
    }
}

/// The name at a place, and no letters past the end.
fn name_at<'t>(names: &[&'t str], place: usize) -> &'t str
    ensures { result.now ≡ unwrap_or (slice_get (each (λ one. one.now) names.now) place) [] }
{
    match names.get(place) {
        Some(name) => name,
        None => "",
    }
}

/// A link to the zone at a place among the names, or a blank line.
fn line_of<'t>(names: &[&'t str], place: Option<usize>, new: &'t str) -> Line<'t>
    ensures { line_value result ≡ line_at_place (each (λ one. one.now) names.now) place new.now }
{
    match place {
        None => Line::Space,
        Some(place) => Line::Link(Link {
            existing: name_at(names, place),
            new,
        }),
    }
}

/// What becomes of a link, whose text is written.
fn settle_link<'t>(
    alloc: Global,
    reader: &mut LineReader<'_>,
    declared: &Declared<'t>,
    seen: &mut Seen,
    limit: usize,
    link: &Link<'t>,
    text: &mut Vec<u8>,
) -> Result<Line<'t>, Refused>
    ensures ok { IfOk result (λ line. (values before : List LineValue) → IsAt declared.now seen.old limit values before
        → (settled_link values before link.now.existing.now link.now.new.now ≡ Ok (line_value line))
        × IsAt declared.now seen.new limit values (before ++ value.link link.now.existing.now link.now.new.now ∷ [])) }
    ensures text { IfOk result (λ line. IsLinkText text.new.items (line_value line)) }
    ensures err { IfErr result (λ refused. (values before : List LineValue) → IsAt declared.now seen.old limit values before
        → IsRefused (settled_link values before link.now.existing.now link.now.new.now) refused) }
{
    if declared.zones.contains_key(link.new) {
        return Err(Refused::Cause(PlainCause::LinkIsZone));
    }
    let place = match link_place(alloc, declared, seen, limit, link.existing, link.new) {
        Ok(place) => place,
        Err(refused) => return Err(refused),
    };
    let led = line_of(declared.names.as_slice(), place, link.new);
    let Ok(is_said) = write_said(alloc, reader, &led, text) else {
        return Err(Refused::NoMemory);
    };
    if !is_said {
        return Err(Refused::Cause(PlainCause::Unsayable));
    }
    Ok(led)
}

/// What becomes of the first line of a zone.
fn settle_zone(
    alloc: Global,
    declared: &Declared<'_>,
    seen: &mut Seen,
    zone: &Zone<'_>,
) -> Result<(), Refused>
    ensures ok { IfOk result (λ _. (limit : ℕ) (values before : List LineValue) → IsAt declared.now seen.old limit values before
        → (settled_line values before (line_value (kind.Zone zone.now)) ≡ Ok (line_value (kind.Zone zone.now)))
        × IsAt declared.now seen.new limit values (before ++ line_value (kind.Zone zone.now) ∷ [])) }
    ensures err { IfErr result (λ refused. (limit : ℕ) (values before : List LineValue) → IsAt declared.now seen.old limit values before
        → IsRefused (settled_line values before (line_value (kind.Zone zone.now))) refused) }
{
    if lacks_rules(declared, &zone.info.saving) {
        return Err(Refused::Cause(PlainCause::UnknownRuleset));
    }
    if seen.zones.contains_key(zone.name) {
        return Err(Refused::Cause(PlainCause::DuplicateZone));
    }
    seen.zones.insert(alloc, zone.name, ())?;
    Ok(())
}

/// What becomes of a line; the text of a link is written.
fn settle_line<'t>(
    alloc: Global,
    reader: &mut LineReader<'_>,
    declared: &Declared<'t>,
    seen: &mut Seen,
    limit: usize,
    line: &Line<'t>,
    text: &mut Vec<u8>,
) -> Result<Line<'t>, Refused>
    ensures ok { IfOk result (λ found. (values before : List LineValue) → IsAt declared.now seen.old limit values before
        → (settled_line values before (line_value line.now) ≡ Ok (line_value found))
        × IsAt declared.now seen.new limit values (before ++ line_value line.now ∷ [])) }
    ensures text { IfOk result (λ found. IsLinkText text.new.items (line_value found)) }
    ensures err { IfErr result (λ refused. (values before : List LineValue) → IsAt declared.now seen.old limit values before
        → IsRefused (settled_line values before (line_value line.now)) refused) }
{
    match line {
        Line::Space => Ok(Line::Space),
        Line::Rule(rule) => Ok(Line::Rule(*rule)),
        Line::Continuation(info) => {
            if lacks_rules(declared, &info.saving) {
                Err(Refused::Cause(PlainCause::UnknownRuleset))
            } else {
                Ok(Line::Continuation(*info))
            }
        }
        Line::Zone(zone) => match settle_zone(alloc, declared, seen, zone) {
            Ok(()) => Ok(Line::Zone(*zone)),
            Err(refused) => Err(refused),
        },
        Line::Link(link) => settle_link(alloc, reader, declared, seen, limit, link, text),
    }
}

/// Nothing that was seen.
fn nothing_seen(alloc: Global) -> Seen
    ensures { (d : Declared) (values : List LineValue) (limit : ℕ) → IsDeclared d values → limit ≡ length values → IsAt d result limit values [] }
{
    Seen {
        zones: TextMap::new(alloc),
        targets: TextMap::new(alloc),
        known: TextMap::new(alloc),
    }
}

/// What becomes of each of the lines, in order; before the first of them nothing is seen.
fn settle_each<'t>(
    alloc: Global,
    reader: &mut LineReader<'_>,
    declared: &Declared<'t>,
    seen: &mut Seen,
    lines: &[Line<'t>],
) -> Result<Vec<Line<'t>>, PlainFault>
    requires { IsAt declared.now seen.old (length lines.now) (each line_value lines.now) [] }
    ensures ok { IfOk result (λ led. settled (each line_value lines.now) ≡ Ok (each line_value led.items)) }
    ensures err { IfErr result (IsFaultOf (settled (each line_value lines.now))) }
{
    let mut text = Vec::new(alloc);
    let mut led = Vec::new(alloc);
    let mut size = 0;
    let count = lines.len();
    for place in 0..count {
        let line = &lines[place];
        let found = match settle_line(alloc, reader, declared, seen, count, line, &mut text) {
            Ok(found) => found,
            Err(refused) => return Err(fault_at(place + 1, refused)),
        };
        let added = link_size(&found, text.as_slice());
        if added > LIMIT - size {
            return Err(PlainFault::TooLong);
        }
        size += added;
        let Ok(()) = led.push(found) else {
            return Err(PlainFault::NoMemory);
        };
    }
    Ok(led)
}

/// The lines of a source, each in its place: a link with the zone to which its target leads, over as many links as it takes;
/// nothing where the same link stood before; and every other line as it is.
///
/// # Errors
///
/// `Line` tells the first line that can't stand in the source, by its number from 1 on: for a ruleset of which the source has no
/// rule (`UnknownRuleset`), a zone of a name that an earlier one has (`DuplicateZone`), a link of a name that a zone has
/// (`LinkIsZone`) or that an earlier link has with another target (`DuplicateLink`), a link that leads to no zone (`Target`), and one
/// that can't be written (`Unsayable`). `TooLong` comes where the links so far take more than 16,777,216 bytes.
pub(crate) fn settle<'t>(
    alloc: Global,
    reader: &mut LineReader<'_>,
    lines: &[Line<'t>],
) -> Result<Vec<Line<'t>>, PlainFault>
    ensures ok { IfOk result (λ led. settled (each line_value lines.now) ≡ Ok (each line_value led.items)) }
    ensures err { IfErr result (IsFaultOf (settled (each line_value lines.now))) }
{
    let Ok(declared) = declared_by(alloc, lines) else {
        return Err(PlainFault::NoMemory);
    };
    let mut seen = nothing_seen(alloc);
    settle_each(alloc, reader, &declared, &mut seen, lines)
}
