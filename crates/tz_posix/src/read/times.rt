//! Times and offsets at the front of a text.
ghost use Rattle.std.specs.Prelude.{◌≡◌};
ghost use Rattle.tz_posix.specs.Reading.{read_as, part_at, clock_time_at, sign_at, offset_at};

use crate::read::numbers::small_number;
use crate::time::{Offset, Time};
use basics::after_mark;

/// `:` and a number, where the text begins with `:`.
#[tactic(auto, unfolding(crate::specs::Reading::part_at))]
fn part(text: &str) -> Option<(Option<u8>, &str)>
    ensures { read_as (λ n. n) result ≡ part_at text.now }
{
    match after_mark(':', text) {
        Some(rest) => {
            let (number, rest) = small_number(rest)?;
            Some((Some(number), rest))
        }
        None => Some((None, text)),
    }
}

/// A time at the front, and the rest.
#[tactic(auto, unfolding(crate::specs::Reading::clock_time_at))]
pub(crate) fn time(text: &str) -> Option<(Time, &str)>
    ensures { read_as (λ t. t) result ≡ clock_time_at text.now }
{
    let (hh, rest) = small_number(text)?;
    let (mm, rest) = part(rest)?;
    if mm.is_none() {
        return Some((Time { hh, mm, ss: None }, rest));
    }
    let (ss, rest) = part(rest)?;
    Some((Time { hh, mm, ss }, rest))
}

/// The sign of an offset, which is positive where none is written.
#[tactic(auto, unfolding(crate::specs::Reading::sign_at))]
fn sign(text: &str) -> (bool, &str)
    ensures { (result.0, result.1.now) ≡ sign_at text.now }
{
    if let Some(rest) = after_mark('-', text) {
        return (false, rest);
    }
    match after_mark('+', text) {
        Some(rest) => (true, rest),
        None => (true, text),
    }
}

/// The offset at the front of a text, as `5`, `-3:30` or `+4:01:02`, and the rest; none where there is none. Its range isn't tested.
#[tactic(auto, unfolding(crate::specs::Reading::offset_at))]
pub fn offset(text: &str) -> Option<(Offset, &str)>
    ensures { read_as (λ o. o) result ≡ offset_at text.now }
{
    let (positive, rest) = sign(text);
    let (time, rest) = time(rest)?;
    Some((Offset { positive, time }, rest))
}
