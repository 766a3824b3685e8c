//! The fields of a line.
ghost use Rattle.std.specs.Prelude.{◌≡◌, ◌++◌, true, false, not, List, ℕ, map, flat_map, IfOk, OnOk};
ghost use Rattle.zone_plain_lines.specs.{Quotes.{laid, laid_out, kept, mark, pieces, has_bad_quotes}, declared.quotes.Place.TheVariants.{Outside}};

use crate::quotes::Place;
use std::alloc::{AllocError, Global};

/// Writes the fields of a line into the buffer, in place of what it has, each gap as a line feed, without the comment and
/// the quotes. Answers whether the quotes are in order: none is left open, and something stands between two.
///
/// # Errors
///
/// Want of memory alone.
pub fn lay_out(line: &[u8], into: &mut Vec<u8>) -> Result<bool, AllocError>
    ensures text { IfOk result (λ good. good ≡ true → into.new.items ≡ laid_out line.now) }
    ensures quotes { IfOk result (λ good. has_bad_quotes (kept Outside line.now) ≡ not good) }
{
    into.clear();
    let mut place = Place::Outside;
    for &byte in line {
        if place.begins_comment(byte) {
            return Ok(place.is_outside());
        }
        if place.closes_nothing(byte) {
            return Ok(false);
        }
        put_byte(into, place, byte)?;
        place = place.after(byte);
    }
    Ok(place.is_outside())
}

/// Writes what is left of a byte.
fn put_byte(into: &mut Vec<u8>, place: Place, byte: u8) -> Result<(), AllocError>
    ensures { OnOk result (into.new.items ≡ into.old.items ++ laid (mark place byte)) }
{
    if place.is_gap(byte) {
        into.extend_from_slice(b"\n")?;
    } else if byte != b'"' {
        into.extend_from_slice(&[byte])?;
    }
    Ok(())
}

/// The fields that are laid out in a text.
///
/// # Errors
///
/// Want of memory alone.
pub fn fields_of(alloc: Global, text: &str) -> Result<Vec<&str>, AllocError>
    ensures { IfOk result (λ fields. map (λ t. t.now) fields.items ≡ pieces text.now) }
{
    let mut fields = Vec::new(alloc);
    for piece in text.split('\n') {
        if !piece.is_empty() {
            fields.extend_from_slice(&[piece])?;
        }
    }
    Ok(fields)
}
