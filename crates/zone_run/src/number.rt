//! Whole numbers among words.
ghost use Rattle.std.specs.Prelude.{◌≡◌, ◌^◌, ◌<◌, Some, None, if◌then◌else◌};
ghost use Rattle.zone_run.specs.Numbers.{is_number, number_in};

use itoa::Buffer;

/// The whole number of at most that size whose decimal text the word is: an optional `-`, and digits without a leading
/// zero but for `0` itself; `-0` is none. The size is below 2^63.
pub fn number_in(word: &str, most: u64) -> Option<i64>
    requires { most < 2 ^ 63 }
    ensures { result ≡ number_in most word.now }
{
    match word.parse::<i64>() {
        Ok(number) => spelled(number, word, most),
        Err(_) => None,
    }
}

/// The number, if the word is its decimal text and it is at most so much in size.
fn spelled(number: i64, word: &str, most: u64) -> Option<i64>
    ensures { result ≡ if is_number most number word.now then Some number else None }
{
    if is_number(number, word, most) {
        Some(number)
    } else {
        None
    }
}

fn is_number(number: i64, word: &str, most: u64) -> bool
    ensures { result ≡ is_number most number word.now }
{
    number.unsigned_abs() <= most && Buffer::new().format(number) == word
}
