//! What a line means, written and read back, and the lines of a list, each read once.
ghost use Rattle.std.specs.Prelude.{◌≡◌, ◌<◌, [], map, length, slice_index_or, IfOk};
ghost use Rattle.zone_source.specs.Zones.{source_value};
ghost use Rattle.zone_table.specs.Values.{line_value};
ghost use Rattle.zone_plain_lines.specs.{PlainTexts.{plain_text}, Meant.{line_meaning, is_next}, Said.{ends_returned, is_one_line, is_read_as, is_meant_as, is_read_by_both, is_said_by, is_said}};
ghost use Rattle.zone_line.specs.LineValues.{value};

use crate::error::Refused;
use crate::meant::{is_next, line_meant};
use crate::renamed::has_said_name;
use crate::text::put_plain;
use std::alloc::{AllocError, Global};
use zone_line::{Error, Line, LineReader};
use zone_source::{LineList, text_of};

/// What a line says. One that doesn't read says nothing.
///
/// # Errors
///
/// Want of memory alone.
#[tactic(auto, unfolding(zone_source::specs::Zones::source_value))]
fn line_of<'t>(
    alloc: Global,
    reader: &mut LineReader<'_>,
    bytes: &'t [u8],
) -> Result<Line<'t>, AllocError>
    ensures { IfOk result (λ line. line_value line ≡ source_value bytes.now) }
{
    let Some(text) = text_of(bytes) else {
        return Ok(Line::Space);
    };
    match reader.parse_str(alloc, text) {
        Ok(line) => Ok(line),
        Err(Error::NoMemory) => Err(AllocError),
        Err(_) => Ok(Line::Space),
    }
}

/// What a line says, where it is told what an empty one says.
fn line_or_blank<'t>(
    alloc: Global,
    reader: &mut LineReader<'_>,
    blank: &Line<'t>,
    bytes: &'t [u8],
) -> Result<Line<'t>, AllocError>
    requires { line_value blank.now ≡ source_value [] }
    ensures { IfOk result (λ line. line_value line ≡ source_value bytes.now) }
{
    if bytes.is_empty() {
        return Ok(*blank);
    }
    line_of(alloc, reader, bytes)
}

/// The line at a place, which counts from 0.
pub fn line_at(lines: &LineList, place: usize) -> &[u8]
    requires { place < length lines.now }
    ensures { result.now ≡ slice_index_or lines.now place [] }
{
    match lines.get(place) {
        Some(bytes) => bytes,
        None => unreachable!(),
    }
}

/// What the lines of a list say, in order. One that doesn't read says nothing.
///
/// # Errors
///
/// Want of memory alone.
pub fn lines_read<'t>(
    alloc: Global,
    reader: &mut LineReader<'_>,
    lines: &'t LineList,
) -> Result<Vec<Line<'t>>, AllocError>
    ensures { IfOk result (λ read. map line_value read.items ≡ map source_value lines.now) }
{
    let mut read = Vec::with_capacity(alloc, lines.len())?;
    let blank = line_of(alloc, reader, b"")?;
    for place in 0..lines.len() {
        let line = line_or_blank(alloc, reader, &blank, line_at(lines, place))?;
        read.push(line)?;
    }
    Ok(read)
}

/// Whether a text has a carriage return at its end.
fn ends_returned(text: &[u8]) -> bool
    ensures { result ≡ ends_returned text.now }
{
    match text.last() {
        Some(last) => *last == b'\r',
        None => false,
    }
}

/// Whether a text is one line of a source as it stands: it has no line feed, no carriage return at its end, which reading would
/// take, and no sharp, at which a comment would begin.
fn is_one_line(text: &[u8]) -> bool
    ensures { result ≡ is_one_line text.now }
{
    !text.contains(&b'\n') && !ends_returned(text) && !text.contains(&b'#')
}

/// Whether the text means this, as a line of a source in any form in its place.
#[tactic(auto, unfolding(crate::specs::Same::same_line))]
fn is_meant(alloc: Global, meant: &Line<'_>, text: &[u8]) -> Result<bool, AllocError>
    ensures { IfOk result (λ same. same ≡ is_meant_as (line_value meant.now) (line_meaning (is_next (line_value meant.now)) text.now)) }
{
    let mut laid = Vec::new(alloc);
    match line_meant(alloc, is_next(meant), text, &mut laid) {
        Ok(read) => Ok(read == *meant),
        Err(Refused::Cause(_)) => Ok(false),
        Err(Refused::NoMemory) => Err(AllocError),
    }
}

/// Whether the text is read as this in the plain form.
///
/// # Errors
///
/// Want of memory alone.
pub fn is_read(
    alloc: Global,
    reader: &mut LineReader<'_>,
    meant: &Line<'_>,
    text: &str,
) -> Result<bool, AllocError>
    ensures { IfOk result (λ same. same ≡ is_read_as (line_value meant.now) (value text.now)) }
{
    match reader.parse_str(alloc, text) {
        Ok(read) => Ok(read == *meant),
        Err(Error::NoMemory) => Err(AllocError),
        Err(_) => Ok(false),
    }
}

/// Whether the text is read as this in the plain form, and as a line of a source in any form.
#[tactic(auto, unfolding(crate::specs::Said::is_read_by_both))]
fn is_read_by_both(
    alloc: Global,
    reader: &mut LineReader<'_>,
    meant: &Line<'_>,
    text: &str,
) -> Result<bool, AllocError>
    ensures { IfOk result (λ read. read ≡ is_read_by_both (line_value meant.now) text.now) }
{
    if !is_read(alloc, reader, meant, text)? {
        return Ok(false);
    }
    is_meant(alloc, meant, text.as_bytes())
}

/// Whether the text is one line that is read as this, of a ruleset that RULES can say.
#[tactic(auto, unfolding(crate::specs::Said::is_said_by))]
fn is_said_by(
    alloc: Global,
    reader: &mut LineReader<'_>,
    meant: &Line<'_>,
    text: &[u8],
) -> Result<bool, AllocError>
    ensures { IfOk result (λ said. said ≡ is_said_by (line_value meant.now) text.now) }
{
    if !has_said_name(meant) {
        return Ok(false);
    }
    let Some(text) = text_of(text) else {
        return Ok(false);
    };
    if !is_one_line(text.as_bytes()) {
        return Ok(false);
    }
    is_read_by_both(alloc, reader, meant, text)
}

/// Writes what a line means, in place of what the buffer has, and answers whether it is one line that is read as this.
///
/// # Errors
///
/// Want of memory alone.
#[tactic(auto, unfolding(crate::specs::Said::is_said))]
pub fn write_said(
    alloc: Global,
    reader: &mut LineReader<'_>,
    meant: &Line<'_>,
    into: &mut Vec<u8>,
) -> Result<bool, AllocError>
    ensures text { IfOk result (λ _. into.new.items ≡ plain_text (line_value meant.now)) }
    ensures said { IfOk result (λ said. said ≡ is_said (line_value meant.now)) }
{
    into.clear();
    put_plain(into, meant)?;
    is_said_by(alloc, reader, meant, into.as_slice())
}
