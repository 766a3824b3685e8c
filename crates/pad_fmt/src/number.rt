//! Whole numbers: a sign and decimal digits.
ghost use Rattle.std.specs.{Prelude.{◌≡◌, ◌+◌, ◌≤◌, ◌++◌, length, codes}, List.{repeat}, Fmt.{decimal}};
ghost use Rattle.pad_fmt.specs.{Sink.{WroteInPieces}, Number.{sign_text, shown_number, unsigned_width}};

use crate::options::{Alignment, FormatterOptions};
use crate::padding::{pad_with_width, shortfall, write_between};
use crate::sink::{Full, TextSink};
use arrayvec::ArrayString;
use itoa::Buffer;

// Writes the number of this sign and magnitude, padded as the options ask.
#[tactic(auto, unfolding(crate::specs::Number::shown_number, crate::specs::Padding::padded))]
pub(crate) fn write_number<S: TextSink>(
    out: &mut S,
    options: FormatterOptions,
    negative: bool,
    magnitude: u128,
) -> Result<(), Full>
    ensures wrote { WroteInPieces S.text S.room out.old out.new
        (shown_number (sign_text negative options) magnitude options) result }
{
    let sign = sign_text(negative, options);
    let mut buffer = Buffer::new();
    let digits = buffer.format(magnitude);
    let width = sign.len() + digits.len();
    if options.sign_aware_zero_pad() {
        return write_with_zeros(out, sign, shortfall(options, width), digits);
    }
    let mut body = ArrayString::<40>::new();
    body.push_str(sign);
    body.push_str(digits);
    pad_with_width(out, options.aligned(Alignment::Right), width, body.as_str())
}

// Writes the sign, so many zeros, and the digits.
fn write_with_zeros<S: TextSink>(
    out: &mut S,
    sign: &str,
    zeros: usize,
    digits: &str,
) -> Result<(), Full>
    ensures wrote { WroteInPieces S.text S.room out.old out.new
        (sign.now ++ (repeat zeros (codes "0") ++ digits.now)) result }
{
    out.write_str(sign)?;
    write_between(out, '0', zeros, digits, 0)
}

// The width of an unsigned number.
pub(crate) fn unsigned_width(options: FormatterOptions, number: u128) -> usize
    ensures { result ≡ unsigned_width number options }
{
    let has_sign = options.sign_plus() || options.sign_minus();
    digit_count(number) + usize::from(has_sign)
}

// The width of a signed number of this sign and magnitude.
pub(crate) fn signed_width(options: FormatterOptions, negative: bool, magnitude: u128) -> usize
    ensures { result ≡ length (sign_text negative options) + length (decimal magnitude) }
{
    sign_text(negative, options).len() + digit_count(magnitude)
}

// The sign that is shown.
fn sign_text(negative: bool, options: FormatterOptions) -> &'static str
    ensures value { result.now ≡ sign_text negative options }
    ensures short { length result.now ≤ 1 }
{
    if negative {
        "-"
    } else if options.sign_plus() {
        "+"
    } else {
        ""
    }
}

// How many decimal digits the number has.
fn digit_count(number: u128) -> usize
    ensures value { result ≡ length (decimal number) }
    ensures short { result ≤ 39 }
{
    Buffer::new().format(number).len()
}
