//! The lines of a source with `%z` written out.
ghost use Rattle.std.specs.{Prelude.{◌≡◌, [], map, unwrap_or, IfOk, OnOk, ◌∷◌, ◌&&◌, codes, string_bytes, IfErr}, FinMap.{get}};
ghost use Rattle.zone_table.specs.Values.{line_value};
ghost use Rattle.zone_plain.specs.{ToldOffsets.{IsGrouped, value_in, with_place, IsAdded, AreAdded, IsWrittenOut, new_rules, are_new_said}, WrittenOut.{IsWrittenAs, written_out}};
ghost use Rattle.zone_plain.specs.{Made.{with_format, with_ruleset, around_text, named_in, rules_for, are_rules_said}, Pairs.{with_pair}, OffsetTexts.{offset_text, has_text}, Shown.{parts_shown, pair_shown, text_in}};
ghost use Rattle.zone_plain_lines.specs.{LineFaults.{IsFaultOf}, Said.{is_said}, Renamed.{mark_of}};

use crate::asked::{
    Around, Asked, Pair, Pairs, around_text, asked_of, offset_of, with_format, with_ruleset,
};
use crate::made::{add_rules, add_said, has_text, made_name, offset_text};
use crate::parts::{Parts, joined, put_in_part};
use basics::{Items, TextMap};
use std::alloc::{AllocError, Global};
use zone_line::{Line, LineReader};
use zone_plain_lines::{PlainCause, PlainFault, mark_of};
use zone_source::LIMIT;

/// The line at a place, which counts from 0; nothing past the end.
pub(crate) fn line_in<'t>(lines: &[Line<'t>], place: usize) -> Line<'t>
    ensures { line_value result ≡ value_in (map line_value lines.now) place }
{
    match lines.get(place) {
        Some(line) => *line,
        None => Line::Space,
    }
}

/// Adds the place of a line to its ruleset, if it is a rule.
fn add_place(
    alloc: Global,
    groups: &mut TextMap<Items<usize>>,
    line: &Line<'_>,
    place: usize,
) -> Result<(), AllocError>
    ensures { OnOk result (groups.new ≡ with_place groups.old (line_value line.now) place) }
{
    match line {
        Line::Rule(rule) => groups.append(alloc, rule.name, place),
        Line::Space | Line::Zone(_) | Line::Continuation(_) | Line::Link(_) => Ok(()),
    }
}

/// The places of the rules of each ruleset, in order, by the ruleset's name.
pub(crate) fn places_by_name(
    alloc: Global,
    lines: &[Line<'_>],
) -> Result<TextMap<Items<usize>>, AllocError>
    ensures { IfOk result (λ groups. IsGrouped (map line_value lines.now) groups) }
{
    let mut groups = TextMap::new(alloc);
    for place in 0..lines.len() {
        let line = line_in(lines, place);
        add_place(alloc, &mut groups, &line, place)?;
    }
    Ok(groups)
}

/// The places of the rules of a ruleset, in order.
pub(crate) fn places_of<'g>(groups: &'g TextMap<Items<usize>>, name: &str) -> &'g [usize]
    ensures { result.now ≡ unwrap_or (get groups.now name.now) [] }
{
    match groups.get(name) {
        Some(places) => places.as_slice(),
        None => &[],
    }
}

/// Adds a line with another format. Answers whether it can be said.
fn add_with_format<'a>(
    alloc: Global,
    reader: &mut LineReader<'_>,
    line: &Line<'a>,
    format: &'a str,
    out: &mut Vec<u8>,
) -> Result<bool, AllocError>
    ensures { IfOk result (IsAdded out.old.items out.new.items (with_format (line_value line.now) format.now)) }
{
    add_said(alloc, reader, &with_format(line, format), out)
}

/// Adds a line with another format and under another ruleset. Answers whether it can be said.
fn add_with_ruleset<'a>(
    alloc: Global,
    reader: &mut LineReader<'_>,
    line: &Line<'a>,
    format: &'a str,
    name: &'a str,
    out: &mut Vec<u8>,
) -> Result<bool, AllocError>
    ensures { IfOk result (IsAdded out.old.items out.new.items (with_ruleset (with_format (line_value line.now) format.now) name.now)) }
{
    let line = with_format(line, format);
    add_said(alloc, reader, &with_ruleset(&line, name), out)
}

/// Adds a line with the text of a total for `%z`. Answers whether the total has a text and the line can be said.
fn add_with_total(
    alloc: Global,
    reader: &mut LineReader<'_>,
    line: &Line<'_>,
    parts: &Around<'_>,
    total: i64,
    out: &mut Vec<u8>,
) -> Result<bool, AllocError>
    ensures { IfOk result (AreAdded out.old.items out.new.items (with_format (line_value line.now) (around_text (parts_shown parts.now) (offset_text total)) ∷ [])
        (has_text total && is_said (with_format (line_value line.now) (around_text (parts_shown parts.now) (offset_text total))))) }
{
    if !has_text(total) {
        return Ok(false);
    }
    let text = offset_text(alloc, total)?;
    let format = around_text(alloc, parts, text.as_str())?;
    let line = *line;
    add_with_format(alloc, reader, &line, format.as_str(), out)
}

/// Adds a line with `%s` for `%z`, under the ruleset of that name. Answers whether the line can be said.
fn add_under(
    alloc: Global,
    reader: &mut LineReader<'_>,
    line: &Line<'_>,
    parts: &Around<'_>,
    name: &str,
    out: &mut Vec<u8>,
) -> Result<bool, AllocError>
    ensures { IfOk result (IsAdded out.old.items out.new.items (with_ruleset (with_format (line_value line.now) (around_text (parts_shown parts.now) (codes "%s"))) name.now)) }
{
    let format = around_text(alloc, parts, "%s")?;
    let line = *line;
    add_with_ruleset(alloc, reader, &line, format.as_str(), name, out)
}

/// Adds the rules of the ruleset that is made for a pair, under a name. Answers whether each has its text and can be said.
fn add_ruleset(
    alloc: Global,
    reader: &mut LineReader<'_>,
    lines: &[Line<'_>],
    groups: &TextMap<Items<usize>>,
    pair: &Pair<'_>,
    name: &str,
    made: &mut Vec<u8>,
) -> Result<bool, AllocError>
    requires { IsGrouped (map line_value lines.now) groups.now }
    ensures { IfOk result (AreAdded made.old.items made.new.items (rules_for (map line_value lines.now) name.now (pair_shown pair.now))
        (are_rules_said (map line_value lines.now) name.now (pair_shown pair.now))) }
{
    let places = places_of(groups, pair.rules);
    add_rules(alloc, reader, lines, places, name, offset_of(pair), made)
}

/// Names the ruleset that is made for a pair, and adds its rules to those that are made, if no line has asked for it yet. Answers its
/// name, and whether each of these rules has its text and can be said.
fn name_pair<'t>(
    alloc: Global,
    reader: &mut LineReader<'_>,
    lines: &[Line<'_>],
    groups: &TextMap<Items<usize>>,
    mark: &str,
    pair: Pair<'t>,
    pairs: &mut Pairs<'t>,
    made: &mut Vec<u8>,
) -> Result<(String, bool), AllocError>
    requires { IsGrouped (map line_value lines.now) groups.now }
    ensures pairs { OnOk result (pairs.new ≡ with_pair pairs.old (pair_shown pair.entry)) }
    ensures name { IfOk result (λ named. string_bytes named.0 ≡ named_in mark.now (with_pair pairs.old (pair_shown pair.entry)) (pair_shown pair.entry)) }
    ensures rules { IfOk result (λ named. AreAdded made.old.items made.new.items (new_rules (map line_value lines.now) mark.now pairs.old (pair_shown pair.entry))
        (are_new_said (map line_value lines.now) mark.now pairs.old (pair_shown pair.entry)) named.1) }
{
    let (number, is_new) = pairs.number(pair)?;
    let name = made_name(alloc, mark, number)?;
    if !is_new {
        return Ok((name, true));
    }
    let is_said = add_ruleset(alloc, reader, lines, groups, &pair, name.as_str(), made)?;
    Ok((name, is_said))
}

/// Writes what becomes of the line at a place in its part, and adds the ruleset that it asks for, if no line has asked for it yet. Answers
/// whether each of these lines has its text and can be said.
fn write_line<'t>(
    alloc: Global,
    reader: &mut LineReader<'_>,
    lines: &[Line<'t>],
    groups: &TextMap<Items<usize>>,
    mark: &str,
    place: usize,
    pairs: &mut Pairs<'t>,
    made: &mut Vec<u8>,
    out: &mut Parts,
) -> Result<bool, AllocError>
    requires { IsGrouped (map line_value lines.now) groups.now }
    ensures { IfOk result (IsWrittenOut (map line_value lines.now) mark.now pairs.old pairs.new made.old.items made.new.items
        (text_in out.old) (text_in out.new) (value_in (map line_value lines.now) place)) }
{
    let line = line_in(lines, place);
    match asked_of(&line) {
        Asked::Nothing => {
            put_in_part(out, &line)?;
            Ok(true)
        }
        Asked::Total(parts, total) => {
            add_with_total(alloc, reader, &line, &parts, total, &mut out.zones)
        }
        Asked::Under(parts, pair) => {
            let (name, are_said) = name_pair(
                alloc, reader, lines, groups, mark, pair, pairs, made,
            )?;
            if !are_said {
                return Ok(false);
            }
            add_under(alloc, reader, &line, &parts, name.as_str(), &mut out.zones)
        }
    }
}

/// What is written of the lines with `%z` written out, and of the rules that are made; or why they are refused. The rules that a line
/// asks for are counted as soon as they are made, since a few lines can ask for many times their own size.
fn write_lines<'t>(
    alloc: Global,
    reader: &mut LineReader<'_>,
    lines: &[Line<'t>],
    groups: &TextMap<Items<usize>>,
    mark: &str,
    pairs: &mut Pairs<'t>,
    made: &mut Vec<u8>,
) -> Result<Vec<u8>, PlainFault>
    requires grouped { IsGrouped (map line_value lines.now) groups.now }
    requires mark { mark.now ≡ mark_of (map line_value lines.now) }
    requires pairs { pairs.old ≡ [] }
    requires made { made.old.items ≡ [] }
    ensures ok { IfOk result (λ bytes. IsWrittenAs (map line_value lines.now) bytes.items) }
    ensures err { IfErr result (IsFaultOf (written_out (map line_value lines.now))) }
{
    let mut out = Parts {
        rules: Vec::new(alloc),
        zones: Vec::new(alloc),
        links: Vec::new(alloc),
    };
    for place in 0..lines.len() {
        let Ok(is_said) = write_line(
            alloc, reader, lines, groups, mark, place, pairs, made, &mut out,
        ) else {
            return Err(PlainFault::NoMemory);
        };
        if !is_said {
            return Err(PlainFault::Line(place + 1, PlainCause::Unsayable));
        }
        if made.as_slice().len() > LIMIT {
            return Err(PlainFault::TooLong);
        }
    }
    match joined(out, made.as_slice()) {
        Ok(bytes) => Ok(bytes),
        Err(_) => Err(PlainFault::NoMemory),
    }
}

/// What is written of a source's lines with `%z` written out: the rules, behind them those that are made, then the zones, then the links.
///
/// # Errors
///
/// `Line` tells the first line for which something can't be said (`Unsayable`): a total of 100 hours or more, or what isn't read as it
/// is meant. `TooLong` comes at the first line with which the rules that are made take more than 16,777,216 bytes, each with its line
/// feed; the lines after it aren't looked at.
pub fn write_out(
    alloc: Global,
    reader: &mut LineReader<'_>,
    lines: &[Line<'_>],
) -> Result<Vec<u8>, PlainFault>
    ensures ok { IfOk result (λ bytes. IsWrittenAs (map line_value lines.now) bytes.items) }
    ensures err { IfErr result (IsFaultOf (written_out (map line_value lines.now))) }
{
    let Ok(groups) = places_by_name(alloc, lines) else {
        return Err(PlainFault::NoMemory);
    };
    let Ok(mark) = mark_of(alloc, lines) else {
        return Err(PlainFault::NoMemory);
    };
    let mut pairs = Pairs::new(alloc);
    let mut made = Vec::new(alloc);
    let mark = mark.as_str();
    write_lines(alloc, reader, lines, &groups, mark, &mut pairs, &mut made)
}
