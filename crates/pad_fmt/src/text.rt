//! Texts, cut and padded by characters.
ghost use Rattle.std.specs.{Prelude.{◌≡◌}, Fmt.{char_count, is_char_start, take_chars}};
ghost use Rattle.pad_fmt.specs.{Sink.{WroteInPieces}, Text.{cut, shown_text, text_width}};

use crate::options::FormatterOptions;
use crate::padding::pad_with_width;
use crate::sink::{Full, TextSink};

/// A text to be shown: `SmartDisplay` is for types with a size alone, so `str` needs this shell.
#[derive(Clone, Copy, PartialEq, Eq, Debug)]
pub struct Text<'a>(pub &'a str);

// Writes the text, cut to the precision and padded to the requested number of characters.
#[tactic(auto, unfolding(crate::specs::Text::shown_text))]
pub(crate) fn write_text<S: TextSink>(
    out: &mut S,
    options: FormatterOptions,
    text: &str,
) -> Result<(), Full>
    ensures wrote { WroteInPieces S.text S.room out.old out.new (shown_text text.now options) result }
{
    let body = cut(text, options.precision());
    pad_with_width(out, options, char_count(body), body)
}

// The bytes of the text, at most the precision.
pub(crate) fn text_width(text: &str, options: FormatterOptions) -> usize
    ensures { result ≡ text_width text.now options }
{
    match options.precision() {
        Some(most) => text.len().min(most),
        None => text.len(),
    }
}

/// How many characters the text has.
pub fn char_count(text: &str) -> usize
    ensures { result ≡ char_count text.now }
{
    let bytes = text.as_bytes().iter();
    bytes.filter(|byte| begins_char(**byte)).count()
}

// The text, cut to so many characters as the precision says.
fn cut(text: &str, precision: Option<usize>) -> &str
    ensures { result.now ≡ cut precision text.now }
{
    match precision {
        Some(count) => first_chars(text, count),
        None => text,
    }
}

// The first characters of the text, at most so many.
fn first_chars(text: &str, count: usize) -> &str
    ensures { result.now ≡ take_chars count text.now }
{
    let mut left = count;
    for (i, byte) in text.as_bytes().iter().enumerate() {
        if begins_char(*byte) {
            if left == 0 {
                return &text[..i];
            }
            left -= 1;
        }
    }
    text
}

// Whether a character begins with this byte of a text.
fn begins_char(byte: u8) -> bool
    ensures { result ≡ is_char_start byte }
{
    byte < 0x80 || byte >= 0xc0
}
