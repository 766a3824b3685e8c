//! What a line of a source in any form means.
ghost use Rattle.std.specs.{Prelude.{◌≡◌}, Str.{is_utf8}};
ghost use Rattle.zone_table.specs.Values.{line_value};
ghost use Rattle.zone_plain_lines.specs.{Meanings.{meaning}, Quotes.{pieces}, Meant.{line_meaning, is_next}, Told.{IsToldBy}};

use crate::cause::PlainCause;
use crate::error::Refused;
use crate::fields::{fields_of, lay_out};
use crate::lines::meaning;
use std::alloc::Global;
use zone_line::Line;
use zone_source::text_of;

/// Whether the bytes are UTF-8.
fn is_text(bytes: &[u8]) -> bool
    ensures { result ≡ is_utf8 bytes.now }
{
    match text_of(bytes) {
        Some(_) => true,
        None => false,
    }
}

/// What the fields of a line mean that stand in a text.
fn parsed<'t>(alloc: Global, is_open: bool, text: &'t str) -> Result<Line<'t>, Refused>
    ensures { IsToldBy line_value result (meaning is_open (pieces text.now)) }
{
    let fields = fields_of(alloc, text)?;
    match meaning(is_open, fields.as_slice()) {
        Ok(line) => Ok(line),
        Err(cause) => Err(Refused::Cause(cause)),
    }
}

/// What a line means in its place, with its ruleset by the source's name. Its fields are laid out in a text that lends itself to what it
/// means.
///
/// # Errors
///
/// The cause of a line that means nothing, or want of memory.
pub fn line_meant<'t>(
    alloc: Global,
    is_open: bool,
    line: &[u8],
    laid: &'t mut Vec<u8>,
) -> Result<Line<'t>, Refused>
    ensures { IsToldBy line_value result (line_meaning is_open line.now) }
{
    if !is_text(line) {
        return Err(Refused::Cause(PlainCause::NotText));
    }
    if !lay_out(line, laid)? {
        return Err(Refused::Cause(PlainCause::Quotes));
    }
    let text = match text_of(laid.as_slice()) {
        Some(text) => text,
        None => return Err(Refused::Cause(PlainCause::NotText)),
    };
    parsed(alloc, is_open, text)
}

/// Whether the line stands where a line of a zone has to follow.
pub(crate) fn is_next(line: &Line<'_>) -> bool
    ensures { result ≡ is_next (line_value line.now) }
{
    match line {
        Line::Continuation(_) => true,
        Line::Space | Line::Zone(_) | Line::Rule(_) | Line::Link(_) => false,
    }
}
