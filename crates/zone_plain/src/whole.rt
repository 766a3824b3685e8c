//! The plain form of a source: the line of its release; its mark; its lines, read, led through the stages and written out.
ghost use Rattle.std.specs.Prelude.{◌≡◌, IfOk, IfErr, ◌≤◌, Ok, map, length, Some, ◌++◌, codes, false, string_bytes, OnOk};
ghost use Rattle.zone_table.specs.Values.{line_value, space};
ghost use Rattle.zone_plain.specs.{LineValues.{is_open_after, mark_in, values_in, known, meant_in}, Told.{IsAddedLine, IsReadLine, added_line, IsLineFault, with_lines}, Plain.{plain_of}, Rebuilt.{IsRebuilt}, Heads.{is_silent, head_with, head_of}};
ghost use Rattle.zone_plain_lines.specs.{Told.{IsRefused}, LineFaults.{IsFaultOf}, Marks.{behind, tails}, Renamed.{renamed, ruleset_of}, Said.{is_said}};
ghost use Rattle.zone_source.specs.Zones.{source_value};

use crate::links::settle;
use crate::offsets::write_out;
use std::alloc::{AllocError, Global};
use zone_line::{Line, LineParser, LineReader};
use zone_plain_lines::{
    PlainCause, PlainFault, Refused, behind_underscore, fault_at, is_read, line_at, line_meant,
    lines_read, mark_behind, said_name_of, under, write_said,
};
use zone_source::{LIMIT, LineList, Lines, put_release_line, release_of, text_of};

/// Whether the line is read as one that says nothing.
#[tactic(auto, unfolding(crate::specs::Heads::is_silent))]
fn is_silent(alloc: Global, reader: &mut LineReader<'_>, line: &[u8]) -> Result<bool, AllocError>
    ensures { IfOk result (λ silent. silent ≡ is_silent line.now) }
{
    let Some(text) = text_of(line) else {
        return Ok(false);
    };
    is_read(alloc, reader, &Line::Space, text)
}

/// The line that names a release, with its line feed.
fn head_naming(
    alloc: Global,
    reader: &mut LineReader<'_>,
    release: &str,
) -> Result<Vec<u8>, PlainFault>
    ensures ok { IfOk result (λ head. head_with (Some release.now) ≡ Ok head.items) }
    ensures err { IfErr result (IsLineFault (head_with (Some release.now))) }
{
    let mut head = Vec::new(alloc);
    put_release_line(&mut head, release)?;
    if !is_silent(alloc, reader, head.as_slice())? {
        return Err(PlainFault::Line(1, PlainCause::Unsayable));
    }
    head.extend_from_slice(b"\n")?;
    Ok(head)
}

/// The line that names the source's release, with its line feed; nothing where it names none.
#[tactic(auto, unfolding(crate::specs::Heads::head_of))]
fn head_of(alloc: Global, reader: &mut LineReader<'_>, source: &[u8]) -> Result<Vec<u8>, PlainFault>
    ensures ok { IfOk result (λ head. head_of source.now ≡ Ok head.items) }
    ensures err { IfErr result (IsLineFault (head_of source.now)) }
{
    match release_of(source) {
        Some(release) => head_naming(alloc, reader, release),
        None => Ok(Vec::new(alloc)),
    }
}

/// Adds what stands behind the `_` in the name of the ruleset that a line is of or names, if it begins with one.
fn add_name(names: &mut LineList, line: &Line<'_>) -> Result<(), AllocError>
    ensures { OnOk result (names.new ≡ names.old ++ behind 95 (ruleset_of (line_value line.now))) }
{
    match behind_underscore(line) {
        Some(name) => names.push(name),
        None => Ok(()),
    }
}

/// What stands behind the `_` in the names of a source's rulesets that begin with one; nothing where a line is refused.
fn names_of(alloc: Global, source: &[u8]) -> Result<LineList, AllocError>
    requires { length source.now ≤ LIMIT }
    ensures { IfOk result (λ names. names ≡ tails 95 (map ruleset_of (known (meant_in source.now)))) }
{
    let mut laid = Vec::new(alloc);
    let mut is_open = false;
    let mut names = LineList::new(alloc);
    for line in Lines::new(source) {
        match line_meant(alloc, is_open, line, &mut laid) {
            Ok(meant) => {
                add_name(&mut names, &meant)?;
                is_open = is_open_after(is_open, &meant);
            }
            Err(Refused::NoMemory) => return Err(AllocError),
            Err(Refused::Cause(_)) => return Ok(LineList::new(alloc)),
        }
    }
    if is_open {
        return Ok(LineList::new(alloc));
    }
    Ok(names)
}

/// The lines of a list, borrowed.
fn slices(alloc: Global, lines: &LineList) -> Result<Vec<&[u8]>, AllocError>
    ensures { IfOk result (λ slices. map (λ line. line.now) slices.items ≡ lines.now) }
{
    let mut slices = Vec::new(alloc);
    for place in 0..lines.len() {
        slices.push(line_at(lines, place))?;
    }
    Ok(slices)
}

/// The mark of a source, with which the name of no ruleset begins.
fn mark_in(alloc: Global, source: &[u8]) -> Result<String, AllocError>
    requires { length source.now ≤ LIMIT }
    ensures { IfOk result (λ mark. string_bytes mark ≡ mark_in source.now) }
{
    let names = names_of(alloc, source)?;
    let slices = slices(alloc, &names)?;
    mark_behind(alloc, slices)
}

/// Whether a line of the zone has to follow, where one had to before.
fn is_open_after(is_open: bool, line: &Line<'_>) -> bool
    ensures { result ≡ is_open_after is_open (line_value line.now) }
{
    match line {
        Line::Space => is_open,
        Line::Zone(zone) => zone.info.time.is_some(),
        Line::Continuation(info) => info.time.is_some(),
        Line::Rule(_) | Line::Link(_) => false,
    }
}

/// Adds the plain text of what a line means to the lines, with its ruleset by its name in the plain form of a source of that mark.
/// Answers whether it can be said.
fn add_plain(
    alloc: Global,
    reader: &mut LineReader<'_>,
    mark: &str,
    meant: &Line<'_>,
    plain: &mut Vec<u8>,
    lines: &mut LineList,
) -> Result<bool, AllocError>
    ensures { IfOk result (IsAddedLine lines.old lines.new (renamed mark.now (line_value meant.now))) }
{
    let name = said_name_of(alloc, mark, meant)?;
    if !write_said(alloc, reader, &under(meant, name.as_str()), plain)? {
        return Ok(false);
    }
    lines.push(plain.as_slice())?;
    Ok(true)
}

/// The same, where it is told whether a line that says nothing can be said, as most do.
fn add_line(
    alloc: Global,
    reader: &mut LineReader<'_>,
    mark: &str,
    is_blank_said: bool,
    meant: &Line<'_>,
    plain: &mut Vec<u8>,
    lines: &mut LineList,
) -> Result<bool, AllocError>
    requires { is_blank_said ≡ is_said space }
    ensures { IfOk result (IsAddedLine lines.old lines.new (renamed mark.now (line_value meant.now))) }
{
    match meant {
        Line::Space => {
            if is_blank_said {
                lines.push(b"")?;
            }
            Ok(is_blank_said)
        }
        Line::Zone(_) | Line::Continuation(_) | Line::Rule(_) | Line::Link(_) => {
            add_plain(alloc, reader, mark, meant, plain, lines)
        }
    }
}

/// What became of a line that was read.
#[derive(Clone, Copy)]
struct LineRead {
    /// Whether a line of the zone has to follow.
    is_open: bool,
    /// Whether the name of its ruleset begins with `_`.
    is_marked: bool,
}

/// Reads a line in its place, and adds its plain text to the lines, with its ruleset by its name in the plain form of a source of that
/// mark.
fn read_line(
    alloc: Global,
    reader: &mut LineReader<'_>,
    mark: &str,
    is_blank_said: bool,
    is_open: bool,
    line: &[u8],
    laid: &mut Vec<u8>,
    plain: &mut Vec<u8>,
    lines: &mut LineList,
) -> Result<LineRead, Refused>
    requires { is_blank_said ≡ is_said space }
    ensures ok { IfOk result (λ read. IsReadLine lines.old lines.new mark.now is_open line.now read.is_marked read.is_open) }
    ensures err { IfErr result (IsRefused (added_line mark.now is_open line.now)) }
{
    let meant = match line_meant(alloc, is_open, line, laid) {
        Ok(meant) => meant,
        Err(refused) => return Err(refused),
    };
    if !add_line(alloc, reader, mark, is_blank_said, &meant, plain, lines)? {
        return Err(Refused::Cause(PlainCause::Unsayable));
    }
    Ok(LineRead {
        is_open: is_open_after(is_open, &meant),
        is_marked: behind_underscore(&meant).is_some(),
    })
}

/// The plain texts of a source's lines, each as it stands, or the first line that is refused. They are read as those of a source that has
/// no name of a ruleset with a `_` in front, as most have none, and again where it has one or a line is refused.
fn read_lines(
    alloc: Global,
    reader: &mut LineReader<'_>,
    source: &[u8],
) -> Result<LineList, PlainFault>
    requires { length source.now ≤ LIMIT }
    ensures ok { IfOk result (λ lines. values_in source.now ≡ Ok (map source_value lines)) }
    ensures err { IfErr result (IsLineFault (values_in source.now)) }
{
    match read_under(alloc, reader, source, "_") {
        Ok(read) => {
            if !read.is_marked {
                return Ok(read.lines);
            }
        }
        Err(_) => (),
    }
    read_marked(alloc, reader, source)
}

/// The same of any source, by its own mark.
fn read_marked(
    alloc: Global,
    reader: &mut LineReader<'_>,
    source: &[u8],
) -> Result<LineList, PlainFault>
    requires { length source.now ≤ LIMIT }
    ensures ok { IfOk result (λ lines. values_in source.now ≡ Ok (map source_value lines)) }
    ensures err { IfErr result (IsLineFault (values_in source.now)) }
{
    let mark = mark_in(alloc, source)?;
    match read_under(alloc, reader, source, mark.as_str()) {
        Ok(read) => Ok(read.lines),
        Err(fault) => Err(fault),
    }
}

/// What was read of a source.
#[derive(Drop)]
struct LinesRead {
    /// The plain text of each line.
    lines: LineList,
    /// Whether the name of some ruleset begins with `_`.
    is_marked: bool,
}

/// The same as of a source of that mark.
fn read_under(
    alloc: Global,
    reader: &mut LineReader<'_>,
    source: &[u8],
    mark: &str,
) -> Result<LinesRead, PlainFault>
    requires { length source.now ≤ LIMIT }
    ensures ok { IfOk result (λ read. mark.now ≡ mark_in source.now → values_in source.now ≡ Ok (map source_value read.lines)) }
    ensures mark { IfOk result (λ read. read.is_marked ≡ false → codes "_" ≡ mark_in source.now) }
    ensures err { IfErr result (λ fault. mark.now ≡ mark_in source.now → IsLineFault (values_in source.now) fault) }
{
    let mut laid = Vec::new(alloc);
    let mut plain = Vec::new(alloc);
    let Ok(is_blank_said) = write_said(alloc, reader, &Line::Space, &mut plain) else {
        return Err(PlainFault::NoMemory);
    };
    let mut lines = LineList::new(alloc);
    let mut is_open = false;
    let mut is_marked = false;
    let mut number = 1;
    for line in Lines::new(source) {
        match read_line(
            alloc,
            reader,
            mark,
            is_blank_said,
            is_open,
            line,
            &mut laid,
            &mut plain,
            &mut lines,
        ) {
            Ok(read) => {
                is_open = read.is_open;
                is_marked |= read.is_marked;
            }
            Err(refused) => return Err(fault_at(number, refused)),
        }
        number += 1;
    }
    if is_open {
        return Err(PlainFault::Line(number, PlainCause::Continuation));
    }
    Ok(LinesRead { lines, is_marked })
}

/// The plain form of a source in any form that `zic` reads: the line of its release, if its first line names one, as `# version 2026b`;
/// then its rules, then its zones, then its links, each in the order of the source, a line each, with `%z` written out and each link led
/// to its zone. A ruleset whose name RULES can't say has another name there, and every other one its own. Each line is written so that
/// `LineParser::parse_str` reads it as what is meant, and a source of what is written names the release of the source and has the rules,
/// the zones and the links that are meant. The source is at most 16,777,216 bytes long.
///
/// # Errors
///
/// `Line` tells the first line that is refused, and why. `TooLong` comes where more than 16,777,216 bytes would be written: of links
/// and of what `%z` asks for at the first line with which they alone take more, before what a later line is refused for.
pub fn plain(alloc: Global, parser: &LineParser, source: &[u8]) -> Result<Vec<u8>, PlainFault>
    requires { length source.now ≤ LIMIT }
    ensures ok { IfOk result (λ bytes. plain_of source.now ≡ Ok bytes.items) }
    ensures read { IfOk result (λ bytes. IsRebuilt source.now bytes.items) }
    ensures err { IfErr result (IsFaultOf (plain_of source.now)) }
{
    let Ok(mut reader) = parser.reader(alloc) else {
        return Err(PlainFault::NoMemory);
    };
    plain_of(alloc, &mut reader, source)
}

/// The line of a source's release, and behind it what is written of its lines, if that is short enough.
fn with_lines(
    alloc: Global,
    reader: &mut LineReader<'_>,
    head: Vec<u8>,
    lines: &[Line<'_>],
) -> Result<Vec<u8>, PlainFault>
    ensures ok { IfOk result (λ bytes. with_lines head.items (map line_value lines.now) ≡ Ok bytes.items) }
    ensures err { IfErr result (IsFaultOf (with_lines head.items (map line_value lines.now))) }
{
    let led = match settle(alloc, reader, lines) {
        Ok(led) => led,
        Err(fault) => return Err(fault),
    };
    let body = match write_out(alloc, reader, led.as_slice()) {
        Ok(body) => body,
        Err(fault) => return Err(fault),
    };
    let mut bytes = head;
    let Ok(()) = bytes.extend_from_slice(body.as_slice()) else {
        return Err(PlainFault::NoMemory);
    };
    if bytes.as_slice().len() > LIMIT {
        return Err(PlainFault::TooLong);
    }
    Ok(bytes)
}

/// What is written of a source, or why nothing is.
#[tactic(auto, unfolding(crate::specs::Plain::plain_of))]
fn plain_of(
    alloc: Global,
    reader: &mut LineReader<'_>,
    source: &[u8],
) -> Result<Vec<u8>, PlainFault>
    requires { length source.now ≤ LIMIT }
    ensures ok { IfOk result (λ bytes. plain_of source.now ≡ Ok bytes.items) }
    ensures err { IfErr result (IsFaultOf (plain_of source.now)) }
{
    let head = match head_of(alloc, reader, source) {
        Ok(head) => head,
        Err(fault) => return Err(fault),
    };
    let lines = match read_lines(alloc, reader, source) {
        Ok(lines) => lines,
        Err(fault) => return Err(fault),
    };
    let Ok(read) = lines_read(alloc, reader, &lines) else {
        return Err(PlainFault::NoMemory);
    };
    with_lines(alloc, reader, head, read.as_slice())
}
