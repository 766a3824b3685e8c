//! The names of a block.
ghost use Rattle.std.specs.Prelude.{◌≡◌, ◌==◌, ◌≤◌, length, option_map, position, IfSome};
ghost use Rattle.zone_tzif_core.specs.{Names.{AreNames}, Reading.{before_zero, name_in}};

use crate::header::cut;
use crate::parts::text;

/// Where the first zero is.
fn zero_place(bytes: &[u8]) -> Option<usize>
    ensures place { result ≡ position (λ c. c == 0) bytes.now }
    ensures within { IfSome result (λ n. n ≤ length bytes.now) }
{
    bytes.iter().position(|byte| *byte == 0)
}

/// The bytes before the first zero.
#[tactic(auto, unfolding(crate::specs::Reading::before_zero))]
fn before_zero(bytes: &[u8]) -> Option<&[u8]>
    ensures { option_map (λ front. front.now) result ≡ before_zero bytes.now }
{
    let place = zero_place(bytes)?;
    Some(&bytes[..place])
}

/// The name at a place of the names.
#[tactic(auto, unfolding(crate::specs::Reading::name_in))]
fn name(names: &[u8], place: usize) -> Option<&str>
    ensures { option_map (λ text. text.now) result ≡ name_in names.now place }
{
    let (_, rest) = cut(names, place)?;
    let name = before_zero(rest)?;
    text(name)
}

/// The names at the first 256 places: a record's place is a byte. Each is looked for once, however many records there are.
pub(crate) fn name_table(names: &[u8]) -> [Option<&str>; 256]
    ensures { AreNames names.now result }
{
    let mut table = [None; 256];
    for place in 0..256 {
        table[place] = name(names, place);
    }
    table
}

/// The name at a place, from the table as far as that goes.
pub(crate) fn name_at<'a>(names: &'a [u8], table: &[Option<&'a str>], place: u8) -> Option<&'a str>
    requires { AreNames names.now table.now }
    ensures { option_map (λ text. text.now) result ≡ name_in names.now place }
{
    match table.get(place as usize) {
        Some(found) => *found,
        None => name(names, place as usize),
    }
}
