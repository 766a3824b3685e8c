//! The pieces at the front of a text, each with what follows it.
ghost use Rattle.std.specs.{Prelude.{◌≡◌, ◌<◌, ◌^◌, option_map, IfSome, min, true}, Char.{is_ascii_digit}, List.{list_all, prefix_len}};
ghost use Rattle.basics.specs.Marks.{after_mark};
ghost use Rattle.zone_words.specs.{Numbers.{is_separator, is_utc, number_after}, Pieces.{read_as, digit_at, two_at, four_at, two_after, date_at, separator_at, minute_at, second_at, sized_at, offset_at, run_of, after_run}};

use crate::form::{WrittenDate, WrittenOffset};

/// More seconds than any instant has.
const MANY: u128 = 10_000_000_000_000_000_000_000_000;

#[tactic(auto, unfolding(crate::specs::Pieces::digit_at))]
fn digit_at(text: &[u8]) -> Option<(u8, &[u8])>
    ensures value { read_as result ≡ digit_at text.now }
    ensures bound { IfSome result (λ x. x.0 < 10) }
{
    match text {
        [first, rest @ ..] => {
            if first.is_ascii_digit() {
                Some((*first - b'0', rest))
            } else {
                None
            }
        }
        [] => None,
    }
}

/// The number of two digits.
#[tactic(auto, unfolding(crate::specs::Pieces::two_at))]
pub(crate) fn two_at(text: &[u8]) -> Option<(u8, &[u8])>
    ensures value { read_as result ≡ two_at text.now }
    ensures bound { IfSome result (λ x. x.0 < 100) }
{
    let (tens, rest) = digit_at(text)?;
    let (ones, rest) = digit_at(rest)?;
    Some((10 * tens + ones, rest))
}

/// The number of four digits.
#[tactic(auto, unfolding(crate::specs::Pieces::four_at))]
fn four_at(text: &[u8]) -> Option<(u16, &[u8])>
    ensures { read_as result ≡ four_at text.now }
{
    let (front, rest) = two_at(text)?;
    let (back, rest) = two_at(rest)?;
    Some((100 * u16::from(front) + u16::from(back), rest))
}

/// What follows that byte.
pub(crate) fn after_mark(mark: u8, text: &[u8]) -> Option<&[u8]>
    ensures { option_map (λ rest. rest.now) result ≡ after_mark mark text.now }
{
    match text {
        [first, rest @ ..] => { if *first == mark { Some(rest) } else { None } }
        [] => None,
    }
}

/// The number of two digits that follow that byte.
fn two_after(mark: u8, text: &[u8]) -> Option<(u8, &[u8])>
    ensures { read_as result ≡ two_after mark text.now }
{
    two_at(after_mark(mark, text)?)
}

/// The numbers of `YYYY-MM-DD`.
#[tactic(auto, unfolding(crate::specs::Pieces::date_at))]
pub(crate) fn date_at(text: &[u8]) -> Option<(WrittenDate, &[u8])>
    ensures { read_as result ≡ date_at text.now }
{
    let (year, rest) = four_at(text)?;
    let (month, rest) = two_after(b'-', rest)?;
    let (day, rest) = two_after(b'-', rest)?;
    Some((WrittenDate { year, month, day }, rest))
}

fn is_separator(byte: u8) -> bool
    ensures { result ≡ is_separator byte }
{
    byte == b'T' || byte == b't' || byte == b' '
}

/// What follows a `T`, a `t` or a space.
pub(crate) fn separator_at(text: &[u8]) -> Option<&[u8]>
    ensures { option_map (λ rest. rest.now) result ≡ separator_at text.now }
{
    match text {
        [first, rest @ ..] => {
            if is_separator(*first) {
                Some(rest)
            } else {
                None
            }
        }
        [] => None,
    }
}

/// The numbers of `hh:mm`.
#[tactic(auto, unfolding(crate::specs::Pieces::minute_at))]
pub(crate) fn minute_at(text: &[u8]) -> Option<((u8, u8), &[u8])>
    ensures { read_as result ≡ minute_at text.now }
{
    let (hour, rest) = two_at(text)?;
    let (minute, rest) = two_after(b':', rest)?;
    Some(((hour, minute), rest))
}

/// The number of `:ss`.
#[tactic(auto, unfolding(crate::specs::Pieces::second_at))]
pub(crate) fn second_at(text: &[u8]) -> Option<(u8, &[u8])>
    ensures { read_as result ≡ second_at text.now }
{
    two_after(b':', text)
}

/// The offset whose numbers follow its sign.
fn sized_at(west: bool, text: &[u8]) -> Option<(WrittenOffset, &[u8])>
    ensures { read_as result ≡ sized_at west text.now }
{
    let ((hours, minutes), rest) = minute_at(text)?;
    let offset = WrittenOffset {
        west,
        hours,
        minutes,
    };
    Some((offset, rest))
}

/// `Z`, `z`, `+hh:mm` or `-hh:mm`.
#[tactic(auto, unfolding(crate::specs::Pieces::offset_at))]
pub(crate) fn offset_at(text: &[u8]) -> Option<(WrittenOffset, &[u8])>
    ensures { read_as result ≡ offset_at text.now }
{
    let utc = WrittenOffset {
        west: false,
        hours: 0,
        minutes: 0,
    };
    match text {
        [b'Z' | b'z', rest @ ..] => Some((utc, rest)),
        [b'+', rest @ ..] => sized_at(false, rest),
        [b'-', rest @ ..] => sized_at(true, rest),
        _ => None,
    }
}

/// How many ASCII digits stand at the front.
fn digits_ahead(text: &[u8]) -> usize
    ensures { result ≡ prefix_len is_ascii_digit text.now }
{
    text.iter().take_while(|byte| byte.is_ascii_digit()).count()
}

/// The longest run of ASCII digits, and what follows it.
pub(crate) fn split_digits(text: &[u8]) -> (&[u8], &[u8])
    ensures front { result.0.now ≡ run_of text.now }
    ensures rest { result.1.now ≡ after_run text.now }
    ensures digits { list_all is_ascii_digit result.0.now ≡ true }
{
    text.split_at(digits_ahead(text))
}

/// The number of the digits, or 10^25 where it is more.
pub(crate) fn number_of(digits: &[u8]) -> u128
    ensures { result ≡ min (number_after 0 digits.now) (10 ^ 25) }
{
    let mut number = 0;
    for digit in digits {
        number = (10 * number + u128::from(digit.saturating_sub(b'0'))).min(MANY);
    }
    number
}
