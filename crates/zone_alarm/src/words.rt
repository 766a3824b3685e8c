//! The words START, TIME and DAYS.
ghost use Rattle.std.specs.Prelude.{◌≡◌, ◌+◌, ◌≤◌, length};
ghost use Rattle.zone_alarm.specs.Words.{days_in, days_of, start_in, start_text};

use arrayvec::ArrayString;
use civil_base::{PlainDateTime, read_local};
use zone_run::number_in;

/// The most days that may be asked for.
const MOST_DAYS: u64 = 36_600;

/// How many bytes a date and a time of whole seconds have at most, together.
const LONGEST: usize = 19;

/// The local time of which START is the date and TIME the time of day, in whole seconds.
pub(crate) fn start_in(start: &str, time: &str) -> Option<PlainDateTime>
    ensures { result ≡ start_in start.now time.now }
{
    if start.len() + time.len() > LONGEST {
        return None;
    }
    read_local(&start_text(start, time))
}

/// The local text that the two words make.
fn start_text(start: &str, time: &str) -> ArrayString<30>
    requires { length start.now + length time.now ≤ 19 }
    ensures { result.bytes ≡ start_text start.now time.now }
{
    let mut text = ArrayString::<30>::new();
    text.push_str(start);
    text.push_str(" ");
    text.push_str(time);
    text.push_str(".000000000");
    text
}

/// The number from 1 to 36,600 whose decimal text the word is.
pub(crate) fn days_in(word: &str) -> Option<u32>
    ensures { result ≡ days_in word.now }
{
    match number_in(word, MOST_DAYS) {
        Some(number) if number >= 1 => Some(number as u32),
        _ => None,
    }
}
