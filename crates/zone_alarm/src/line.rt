//! The line of a ring.
ghost use Rattle.std.specs.Prelude.{◌≡◌, [], ◌++◌, OnOk, IfOk, map};
ghost use Rattle.civil_base.specs.{DateTimes.{instant, offset_of}, Layout.{zoned_text}};
ghost use Rattle.zone_alarm.specs.{RingLines.{date_text, ring_line}, Shown.{ring_shown}};

use crate::ring::Ring;
use civil_base::{Date, OffsetDateTime, PlainDateTime, Time, write_local, write_zoned};
use std::alloc::{AllocError, Global};
use zone_source::LineList;

/// How many bytes a local text has from the space between its date and its time on.
const TIME_BYTES: usize = 19;

/// The lines of these rings, in their order.
pub(crate) fn lines_of(alloc: Global, rings: &[Ring]) -> Result<LineList, AllocError>
    ensures { IfOk result (λ lines. lines ≡ map ring_line (map ring_shown rings.now)) }
{
    let mut lines = LineList::new(alloc);
    let mut text = Vec::new(alloc);
    for ring in rings {
        write_ring(ring, &mut text)?;
        lines.push(&text)?;
    }
    Ok(lines)
}

/// Puts the line of a ring into the text, in place of what is there.
fn write_ring(ring: &Ring, text: &mut Vec<u8>) -> Result<(), AllocError>
    ensures { OnOk result (text.new.items ≡ ring_line (ring_shown ring.now)) }
{
    text.clear();
    match &ring.at {
        Some(at) => add_date_time(at, text),
        None => {
            add_date(ring.date, text)?;
            add_bytes(b" none", text)
        }
    }
}

/// Adds the zoned text.
fn add_date_time(at: &OffsetDateTime, text: &mut Vec<u8>) -> Result<(), AllocError>
    ensures { OnOk result (text.new.items ≡ text.old.items ++ zoned_text (instant at.now) (offset_of at.now)) }
{
    let mut zoned = [0; 40];
    let end = write_zoned(at, &mut zoned);
    add_bytes(&zoned[..end], text)
}

/// Adds the date as a local text begins with it.
fn add_date(date: Date, text: &mut Vec<u8>) -> Result<(), AllocError>
    ensures { OnOk result (text.new.items ≡ text.old.items ++ date_text date) }
{
    let mut local = [0; 30];
    let end = write_local(&PlainDateTime::new(date, Time::MIDNIGHT), &mut local);
    add_bytes(&local[..end - TIME_BYTES], text)
}

fn add_bytes(bytes: &[u8], text: &mut Vec<u8>) -> Result<(), AllocError>
    ensures { OnOk result (text.new.items ≡ text.old.items ++ bytes.now) }
{
    text.extend_from_slice(bytes)
}
