//! Names at the front of a text.
ghost use Rattle.std.specs.Prelude.{◌≡◌};
ghost use Rattle.tz_posix.specs.Reading.{read_as, letters_at, enclosed_at, name_at};

use crate::read::numbers::{split_enclosed, split_letters};
use basics::after_mark;

/// The fewest letters of a name without brackets.
const FEWEST: usize = 3;
/// The most letters of a name without brackets.
const MOST: usize = 16;

/// A name of letters, and the rest.
#[tactic(auto, unfolding(crate::specs::Reading::letters_at))]
fn letters(text: &str) -> Option<(&str, &str)>
    ensures { read_as (λ name. name.now) result ≡ letters_at text.now }
{
    let (name, rest) = split_letters(text);
    if FEWEST <= name.len() && name.len() <= MOST {
        Some((name, rest))
    } else {
        None
    }
}

/// A name before `>`, and the rest after it.
#[tactic(auto, unfolding(crate::specs::Reading::enclosed_at))]
fn enclosed(text: &str) -> Option<(&str, &str)>
    ensures { read_as (λ name. name.now) result ≡ enclosed_at text.now }
{
    let (name, rest) = split_enclosed(text);
    if name.is_empty() {
        return None;
    }
    Some((name, after_mark('>', rest)?))
}

/// The name at the front of a text, without its brackets, and the rest; none where there is no such name.
#[tactic(auto, unfolding(crate::specs::Reading::name_at))]
pub fn name(text: &str) -> Option<(&str, &str)>
    ensures { read_as (λ name. name.now) result ≡ name_at text.now }
{
    match after_mark('<', text) {
        Some(rest) => enclosed(rest),
        None => letters(text),
    }
}
