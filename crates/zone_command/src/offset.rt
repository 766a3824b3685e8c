//! Names that are offsets.
ghost use Rattle.std.specs.Prelude.{◌≡◌, ◌≤◌, ◌<◌, IfSome, Some, pos};
ghost use Rattle.civil_base.specs.Offsets.{signed_by};
ghost use Rattle.zone_command.specs.Offsets.{offset_in, sized_in, size_in, two_in};

use basics::{after_mark, cut, is_numeral, u8_of_digits};
use civil_base::UtcOffset;

/// The number of at most that size that two digits write.
#[tactic(auto, unfolding(crate::specs::Offsets::two_in))]
fn two_in(most: u8, text: &str) -> Option<u8>
    ensures value { result ≡ two_in most text.now }
    ensures bound { IfSome result (λ number. number ≤ most) }
{
    if text.len() != 2 || !is_numeral(text) {
        return None;
    }
    match u8_of_digits(text) {
        Some(number) if number <= most => Some(number),
        _ => None,
    }
}

/// The seconds of `hh:mm`.
#[tactic(auto, unfolding(crate::specs::Offsets::size_in))]
fn size_in(text: &str) -> Option<u32>
    ensures value { result ≡ size_in text.now }
    ensures bound { IfSome result (λ size. size < 86400) }
{
    let (hours, minutes) = cut(':', text)?;
    let hours = two_in(23, hours)?;
    let minutes = two_in(59, minutes)?;
    Some((u32::from(hours) * 60 + u32::from(minutes)) * 60)
}

/// So many seconds east of UTC, or west of it.
fn offset_of(west: bool, size: u32) -> Option<UtcOffset>
    requires { size < 86400 }
    ensures { result ≡ Some (signed_by west size) }
{
    let seconds = size as i32;
    UtcOffset::from_whole_seconds(if west { -seconds } else { seconds }).ok()
}

/// The offset of `hh:mm`, behind its sign.
fn sized_in(west: bool, text: &str) -> Option<UtcOffset>
    ensures { result ≡ sized_in west text.now }
{
    match size_in(text) {
        Some(size) => offset_of(west, size),
        None => None,
    }
}

/// The offset that a name is: `UTC`, `+hh:mm` or `-hh:mm`. Other names are none.
#[tactic(auto, unfolding(crate::specs::Offsets::offset_in))]
pub fn offset_in(name: &str) -> Option<UtcOffset>
    ensures { result ≡ offset_in name.now }
{
    if name == "UTC" {
        return offset_of(false, 0);
    }
    if let Some(rest) = after_mark('+', name) {
        return sized_in(false, rest);
    }
    match after_mark('-', name) {
        Some(rest) => sized_in(true, rest),
        None => None,
    }
}
