//! The names of rulesets in the plain form, the mark in front of those that are made, and the lines that name them.
ghost use Rattle.std.specs.Prelude.{◌≡◌, ◌<◌, ◌++◌, flat_map, string_bytes, OnOk, IfOk, map, option_map, option_to_list};
ghost use Rattle.zone_line.specs.Fields.{is_ruleset_name};
ghost use Rattle.zone_plain_lines.specs.{Names.{is_letter, letter, byte_text, said_name}, Marks.{behind, ending, mark_behind, rarer, tails}, Renamed.{saved_by, info_by, mark_of, ruleset_of, under}};
ghost use Rattle.zone_table.specs.Values.{line_value, info_value, saving_value};

use std::alloc::{AllocError, Global};
use zone_table::{Line, LineInfo as ZoneInfo, LineSaving as Saving, Rule, Zone};

/// Whether the byte is an ASCII letter or `_`.
fn is_letter(byte: u8) -> bool
    ensures { result ≡ is_letter byte }
{
    byte == b'_' || byte.is_ascii_alphabetic()
}

/// Whether RULES can say the name: it has ASCII letters, hyphens and underscores alone.
pub(crate) fn is_ruleset_name(name: &str) -> bool
    ensures { result ≡ is_ruleset_name name.now }
{
    name.bytes().all(|byte| byte == b'-' || byte == b'_' || byte.is_ascii_alphabetic())
}

/// A letter from `a` to `p`.
fn letter(bits: u8) -> char
    requires { bits < 16 }
    ensures letter { result ≡ letter bits }
    ensures ascii { result < 128 }
{
    char::from(b'a' + bits)
}

/// Writes what stands for a byte of a name.
fn put_byte(text: &mut String, byte: u8) -> Result<(), AllocError>
    ensures { OnOk result (string_bytes text.new ≡ string_bytes text.old ++ byte_text byte) }
{
    if is_letter(byte) {
        return text.push(char::from(byte));
    }
    text.push('-')?;
    text.push(letter(byte / 16))?;
    text.push(letter(byte % 16))
}

/// Writes what stands for the bytes of a name.
fn put_bytes(text: &mut String, name: &[u8]) -> Result<(), AllocError>
    ensures { OnOk result (string_bytes text.new ≡ string_bytes text.old ++ flat_map byte_text name.now) }
{
    for byte in name {
        put_byte(text, *byte)?;
    }
    Ok(())
}

/// The name of a ruleset in the plain form of a source of that mark. One that its RULES column can say stays. For any other stand the mark,
/// with which no name of the source begins, a hyphen and the bytes of the name, a letter or `_` as it is and any other byte as `-` and two
/// letters from `a` to `p`, one for each four of its bits: where no name begins with `_`, `b2` becomes `_-b-dc`.
///
/// # Errors
///
/// Want of memory alone.
#[tactic(auto, unfolding(crate::specs::Names::said_name), using(std::proofs::Common::append_assoc))]
pub fn said_name(alloc: Global, mark: &str, name: &str) -> Result<String, AllocError>
    ensures { IfOk result (λ said. string_bytes said ≡ said_name mark.now name.now) }
{
    let mut said = String::new(alloc);
    if is_ruleset_name(name) {
        said.push_str(name)?;
        return Ok(said);
    }
    said.push_str(mark)?;
    said.push('-')?;
    put_bytes(&mut said, name.as_bytes())?;
    Ok(said)
}

/// What stands behind a byte in a name that begins with it.
pub(crate) fn behind(byte: u8, name: &[u8]) -> Option<&[u8]>
    ensures { option_to_list (option_map (λ rest. rest.now) result) ≡ behind byte name.now }
{
    match name {
        [first, rest @ ..] if *first == byte => Some(rest),
        _ => None,
    }
}

/// Adds a name, if there is one.
pub(crate) fn add<'t>(names: &mut Vec<&'t [u8]>, name: Option<&'t [u8]>) -> Result<(), AllocError>
    ensures { OnOk result (map (λ one. one.now) names.new.items ≡ map (λ one. one.now) names.old.items ++ option_to_list (option_map (λ one. one.now) name.entry)) }
{
    match name {
        Some(name) => names.extend_from_slice(&[name]),
        None => Ok(()),
    }
}

/// What stands behind a byte in each name that begins with it.
fn tails<'t>(alloc: Global, byte: u8, names: &[&'t [u8]]) -> Result<Vec<&'t [u8]>, AllocError>
    ensures { IfOk result (λ rests. map (λ rest. rest.now) rests.items ≡ tails byte (map (λ name. name.now) names.now)) }
{
    let mut rests = Vec::new(alloc);
    for name in names {
        add(&mut rests, behind(byte, name))?;
    }
    Ok(rests)
}

/// `_` or `a`, whichever fewer of the names begin with, `_` where as many do; and what stands behind it in these.
fn rarer<'t>(alloc: Global, names: &[&'t [u8]]) -> Result<(char, Vec<&'t [u8]>), AllocError>
    ensures letter { IfOk result (λ found. found.0 ≡ rarer (map (λ name. name.now) names.now)) }
    ensures ascii { IfOk result (λ found. found.0 < 128) }
    ensures left { IfOk result (λ found. map (λ rest. rest.now) found.1.items ≡ tails found.0 (map (λ name. name.now) names.now)) }
{
    let with_a = tails(alloc, b'a', names)?;
    let with_underscore = tails(alloc, b'_', names)?;
    if with_a.len() < with_underscore.len() {
        Ok(('a', with_a))
    } else {
        Ok(('_', with_underscore))
    }
}

/// Writes letters with which none of the names begins: each is `_` or `a`, whichever fewer go on with of the names that begin with those
/// before it, until no name does.
fn put_ending(mark: &mut String, alloc: Global, names: Vec<&[u8]>) -> Result<(), AllocError>
    ensures { OnOk result (string_bytes mark.new ≡ string_bytes mark.old ++ ending (map (λ name. name.now) names.entry.items)) }
{
    let mut left = names;
    while !left.as_slice().is_empty() {
        let (letter, fewer) = rarer(alloc, &left)?;
        mark.push(letter)?;
        left = fewer;
    }
    Ok(())
}

/// The mark of a source, by what stands behind the `_` of its names that begin with one. It is short, since each letter leaves at most
/// half of the names.
///
/// # Errors
///
/// Want of memory alone.
pub fn mark_behind(alloc: Global, names: Vec<&[u8]>) -> Result<String, AllocError>
    ensures { IfOk result (λ mark. string_bytes mark ≡ mark_behind (map (λ name. name.now) names.entry.items)) }
{
    let mut mark = String::new(alloc);
    mark.push('_')?;
    put_ending(&mut mark, alloc, names)?;
    Ok(mark)
}

/// The ruleset in RULES, or nothing where there is none.
fn saved_by<'t>(saving: Saving<'t>) -> &'t str
    ensures { result.now ≡ saved_by (saving_value saving.entry) }
{
    match saving {
        Saving::Multiple(name) => name,
        Saving::NoSaving | Saving::OneOff(_) => "",
    }
}

/// The ruleset that a line is of or names, or nothing where it names none.
fn ruleset_of<'t>(line: &Line<'t>) -> &'t str
    ensures { result.now ≡ ruleset_of (line_value line.now) }
{
    match line {
        Line::Rule(rule) => rule.name,
        Line::Zone(zone) => saved_by(zone.info.saving),
        Line::Continuation(info) => saved_by(info.saving),
        Line::Space | Line::Link(_) => "",
    }
}

/// Whether RULES can say the name of the ruleset that a line is of or names; it can where the line names none.
pub fn has_said_name(line: &Line<'_>) -> bool
    ensures { result ≡ is_ruleset_name (ruleset_of (line_value line.now)) }
{
    is_ruleset_name(ruleset_of(line))
}

/// What a line says of a stretch of time, with another name for its ruleset.
fn info_by<'a>(info: &ZoneInfo<'a>, name: &'a str) -> ZoneInfo<'a>
    ensures { info_value result ≡ info_by (info_value info.now) name.now }
{
    match info.saving {
        Saving::Multiple(_) => ZoneInfo {
            saving: Saving::Multiple(name),
            ..*info
        },
        Saving::NoSaving => *info,
        Saving::OneOff(_) => *info,
    }
}

/// The line with another name for its ruleset.
pub fn under<'a>(line: &Line<'a>, name: &'a str) -> Line<'a>
    ensures { line_value result ≡ under (line_value line.now) name.now }
{
    match *line {
        Line::Rule(rule) => Line::Rule(Rule { name, ..rule }),
        Line::Zone(zone) => Line::Zone(Zone {
            name: zone.name,
            info: info_by(&zone.info, name),
        }),
        Line::Continuation(info) => Line::Continuation(info_by(&info, name)),
        Line::Space => Line::Space,
        Line::Link(link) => Line::Link(link),
    }
}

/// What stands behind the `_` in the name of the ruleset that a line is of or names, if it begins with one.
pub fn behind_underscore<'t>(line: &Line<'t>) -> Option<&'t [u8]>
    ensures { option_to_list (option_map (λ rest. rest.now) result) ≡ behind 95 (ruleset_of (line_value line.now)) }
{
    behind(b'_', ruleset_of(line).as_bytes())
}

/// The mark of a source of these lines, with which the name of no ruleset begins, in a rule or in RULES: `_`, and then, as long as a name
/// begins with what stands so far, `_` or `a`, whichever fewer of these names go on with.
///
/// # Errors
///
/// Want of memory alone.
pub fn mark_of(alloc: Global, lines: &[Line<'_>]) -> Result<String, AllocError>
    ensures { IfOk result (λ mark. string_bytes mark ≡ mark_of (map line_value lines.now)) }
{
    let mut names = Vec::new(alloc);
    for line in lines {
        add(&mut names, behind_underscore(line))?;
    }
    let mark = mark_behind(alloc, names)?;
    Ok(mark)
}

/// The name in the plain form of the ruleset that a line is of or names, or nothing where it names none, in a source of that mark.
///
/// # Errors
///
/// Want of memory alone.
pub fn said_name_of(alloc: Global, mark: &str, line: &Line<'_>) -> Result<String, AllocError>
    ensures { IfOk result (λ name. string_bytes name ≡ said_name mark.now (ruleset_of (line_value line.now))) }
{
    said_name(alloc, mark, ruleset_of(line))
}
