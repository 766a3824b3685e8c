//! Padding to a requested width.
ghost use Rattle.std.specs.{Prelude.{◌≡◌, ◌-◌, ◌≤◌, ◌++◌, encode_utf8}, List.{repeat}};
ghost use Rattle.pad_fmt.specs.{Sink.{WroteInPieces}, Padding.{padded, fills, part_before, shortfall}, declared.options.Alignment.TheVariants.{Left}};

use crate::options::{Alignment, FormatterOptions};
use crate::sink::{Full, TextSink};

/// Writes the text, padded to the requested width as if it were `width` wide.
///
/// The fill follows the text where no alignment is set.
///
/// # Errors
///
/// `Full` exactly where text and fill do not fit; a part of them, from the first byte on, may then be written.
#[tactic(auto, unfolding(crate::specs::Padding::padded))]
pub fn pad_with_width<S: TextSink>(
    out: &mut S,
    options: FormatterOptions,
    width: usize,
    text: &str,
) -> Result<(), Full>
    ensures wrote { WroteInPieces S.text S.room out.old out.new (padded Left options width text.now) result }
{
    let padding = shortfall(options, width);
    let before = part_before(options.align().unwrap_or(Alignment::Left), padding);
    write_between(out, options.fill(), before, text, padding - before)
}

// Writes the text with so many of the character before and after it.
pub(crate) fn write_between<S: TextSink>(
    out: &mut S,
    c: char,
    before: usize,
    text: &str,
    after: usize,
) -> Result<(), Full>
    ensures wrote { WroteInPieces S.text S.room out.old out.new
        (repeat before (encode_utf8 c) ++ (text.now ++ repeat after (encode_utf8 c))) result }
{
    write_repeated(out, c, before)?;
    out.write_str(text)?;
    write_repeated(out, c, after)
}

// Writes the character so many times.
fn write_repeated<S: TextSink>(out: &mut S, c: char, count: usize) -> Result<(), Full>
    ensures wrote { WroteInPieces S.text S.room out.old out.new (repeat count (encode_utf8 c)) result }
{
    for _ in 0..count {
        out.write_char(c)?;
    }
    Ok(())
}

// How many fill characters a text of this width lacks.
pub(crate) fn shortfall(options: FormatterOptions, width: usize) -> usize
    ensures { result ≡ shortfall options width }
{
    options.width().unwrap_or(0).saturating_sub(width)
}

// How many fill characters stand before the text.
fn part_before(side: Alignment, padding: usize) -> usize
    ensures value { result ≡ part_before side padding }
    ensures within { result ≤ padding }
{
    match side {
        Alignment::Left => 0,
        Alignment::Center => padding / 2,
        Alignment::Right => padding,
    }
}
