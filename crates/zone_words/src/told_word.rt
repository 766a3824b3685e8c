//! Words as they are told: no byte of one breaks the line or the quotes around it.
ghost use Rattle.std.specs.Prelude.{◌≡◌, ◌++◌, ◌<◌, OnOk};
ghost use Rattle.zone_words.specs.ToldWords.{hex_digit, told_byte, told_word};

use std::alloc::AllocError;

/// The digit of a number below 16, in small letters.
pub fn hex_digit(number: u8) -> u8
    requires { number < 16 }
    ensures { result ≡ hex_digit number }
{
    if number < 10 {
        b'0' + number
    } else {
        b'W' + number
    }
}

/// Adds a byte of a word.
fn add_told_byte(into: &mut Vec<u8>, byte: u8) -> Result<(), AllocError>
    ensures { OnOk result (into.new.items ≡ into.old.items ++ told_byte byte) }
{
    if byte == b'"' || byte == b'\\' {
        into.extend_from_slice(&[b'\\', byte])
    } else if byte == b'\n' {
        into.extend_from_slice(b"\\n")
    } else if byte == b'\t' {
        into.extend_from_slice(b"\\t")
    } else if byte < 32 || byte == 127 {
        let (high, low) = (hex_digit(byte / 16), hex_digit(byte % 16));
        into.extend_from_slice(&[b'\\', b'x', high, low])
    } else {
        into.extend_from_slice(&[byte])
    }
}

/// Adds a word that is told in quotes: a quote or a backslash behind a backslash, a line feed as `\n`, a tab as `\t`, and any other byte
/// below 32, and 127, as `\x0d`.
///
/// # Errors
///
/// Want of memory alone. Nothing is said then of the text.
pub fn add_told_word(into: &mut Vec<u8>, word: &str) -> Result<(), AllocError>
    ensures { OnOk result (into.new.items ≡ into.old.items ++ told_word word.now) }
{
    for byte in word.as_bytes() {
        add_told_byte(into, *byte)?;
    }
    Ok(())
}
