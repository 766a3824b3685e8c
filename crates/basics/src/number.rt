//! Whole numbers in decimal digits, texts cut at a mark, and the parts of paths.
ghost use Rattle.std.specs.{Prelude.{◌≡◌, ◌^◌, true, ◌<◌, option_map}, Char.{is_ascii_digit}, List.{list_all}};
ghost use Rattle.basics.specs.{Numbers.{is_numeral, signed_in, value_in}, Marks.{after_mark, before_mark, cut}, Paths.{has_parts, is_no_part}};

/// Whether the text is of ASCII digits alone, of which there is one at least.
pub fn is_numeral(text: &str) -> bool
    ensures value { result ≡ is_numeral text.now }
    ensures digits { result ≡ true → list_all is_ascii_digit text.now ≡ true }
{
    !text.is_empty() && are_digits(text)
}

/// Whether the text is of ASCII digits alone.
fn are_digits(text: &str) -> bool
    ensures { result ≡ list_all is_ascii_digit text.now }
{
    text.bytes().all(|byte| byte.is_ascii_digit())
}

/// The number that ASCII digits write, from 0 to 255; `None` where it is greater, or there is no digit.
pub fn u8_of_digits(digits: &str) -> Option<u8>
    requires { list_all is_ascii_digit digits.now ≡ true }
    ensures { result ≡ value_in 8 digits.now }
{
    digits.parse::<u8>().ok()
}

/// The number that ASCII digits write, from 0 to 65535; `None` where it is greater, or there is no digit.
pub fn u16_of_digits(digits: &str) -> Option<u16>
    requires { list_all is_ascii_digit digits.now ≡ true }
    ensures { result ≡ value_in 16 digits.now }
{
    digits.parse::<u16>().ok()
}

/// The number that Rust reads in the whole text, a sign or none and digits, from -128 to 127; else `None`.
pub fn i8_in(text: &str) -> Option<i8>
    ensures { result ≡ signed_in (2 ^ 7) text.now }
{
    text.parse::<i8>().ok()
}

/// The number of 64 bits that Rust reads in the whole text, a sign or none and digits; else `None`.
pub fn i64_in(text: &str) -> Option<i64>
    ensures { result ≡ signed_in (2 ^ 63) text.now }
{
    text.parse::<i64>().ok()
}

/// What stands before the first such mark, an ASCII character, and what stands after it; `None` where there is none.
pub fn cut(mark: char, text: &str) -> Option<(&str, &str)>
    requires { mark < 128 }
    ensures { option_map (λ parts. (parts.0.now, parts.1.now)) result ≡ cut mark text.now }
{
    text.split_once(mark)
}

/// What follows the mark, an ASCII character, where the text begins with it; else `None`.
pub fn after_mark(mark: char, text: &str) -> Option<&str>
    requires { mark < 128 }
    ensures { option_map (λ rest. rest.now) result ≡ after_mark mark text.now }
{
    text.strip_prefix(mark)
}

/// What stands before the mark, an ASCII character, where the text ends with it; else `None`.
pub fn before_mark(mark: char, text: &str) -> Option<&str>
    requires { mark < 128 }
    ensures { option_map (λ front. front.now) result ≡ before_mark mark text.now }
{
    text.strip_suffix(mark)
}

/// Whether a part is empty, `.` or `..`, and so names no file of its own.
fn is_no_part(part: &[u8]) -> bool
    ensures { result ≡ is_no_part part.now }
{
    match part {
        [] | [b'.'] | [b'.', b'.'] => true,
        _ => false,
    }
}

/// Whether no part of a path is empty, `.` or `..`.
pub fn has_parts(path: &[u8]) -> bool
    ensures { result ≡ has_parts path.now }
{
    path.split(|byte| *byte == b'/')
        .all(|part| !is_no_part(part))
}
