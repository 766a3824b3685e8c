//! What a zone is asked of many seconds at once.
ghost use Rattle.std.specs.Prelude.{◌≡◌, ◌<◌, length, pos, slice_index_or};
ghost use Rattle.sefunjaro.specs.{Offsets.{offsets_of}, Rooms.{filled}, Shown.{clocks_of, textless_place, texts_of, unshown_place}};
ghost use Rattle.sefunjaro_c.specs.{Lists.{far_place, OfPlace}, Opened.{StaysLent}, Held.{OfZone, OnZone, Seen}, Statuses.{IfRefused}};

use crate::fault::{DONE, NOT_OPEN, OUT_OF_RANGE};
use crate::opened::Opened;
use crate::view::View;
use sefunjaro::{Clock, is_in_years};

/// The seconds east of UTC that are in force at each of some seconds of the years -9999 to 9999 in UTC, in their order, as far as they
/// fit. Where a second lies outside them the place of the first such one is told, from 0.
#[unsafe(no_mangle)]
pub extern "C" fn sefunjaro_offsets_at_by(
    zone: &mut View,
    seconds: &[i64],
    offsets: &mut [i32],
    place: &mut usize,
) -> u32
    ensures lent { StaysLent zone.old zone.new }
    ensures answer { OnZone zone.old.part.opened result ((offsets.new ≡ offsets.old) × (place.new ≡ place.old))
        (λ held. OfPlace (far_place seconds.now) result place.old place.new (offsets.new ≡ offsets.old)
        (Seen held (λ total _. offsets.new ≡ filled (offsets_of total seconds.now) offsets.old))) }
    ensures kept { IfRefused result (offsets.new ≡ offsets.old) }
{
    let Some(reading) = zone.take() else {
        return NOT_OPEN;
    };
    let status = offsets_at(reading.get(), seconds, offsets, place);
    zone.put(reading);
    status
}

fn offsets_at(opened: &Opened, seconds: &[i64], offsets: &mut [i32], place: &mut usize) -> u32
    ensures answer { OfZone opened.now result ((offsets.new ≡ offsets.old) × (place.new ≡ place.old))
        (λ held. OfPlace (far_place seconds.now) result place.old place.new (offsets.new ≡ offsets.old)
        (Seen held (λ total _. offsets.new ≡ filled (offsets_of total seconds.now) offsets.old))) }
    ensures kept { IfRefused result (offsets.new ≡ offsets.old) }
{
    let Opened::Zone(zone) = opened else {
        return NOT_OPEN;
    };
    match far_place(seconds) {
        Some(far) => {
            *place = far;
            OUT_OF_RANGE
        }
        None => {
            zone.offsets_at(seconds, offsets);
            DONE
        }
    }
}

/// What clocks show at each of some seconds, in their order, as far as it fits. Where a second lies outside the years -9999 to 9999 in UTC,
/// or its local date does, the place of the first such one is told, from 0.
#[unsafe(no_mangle)]
pub extern "C" fn sefunjaro_clocks_at_by(
    zone: &mut View,
    seconds: &[i64],
    clocks: &mut [Clock],
    place: &mut usize,
) -> u32
    ensures lent { StaysLent zone.old zone.new }
    ensures answer { OnZone zone.old.part.opened result ((clocks.new ≡ clocks.old) × (place.new ≡ place.old))
        (λ held. Seen held (λ total _. OfPlace (unshown_place total seconds.now) result place.old place.new (clocks.new ≡ clocks.old)
        (clocks.new ≡ filled (clocks_of total seconds.now) clocks.old))) }
    ensures kept { IfRefused result (clocks.new ≡ clocks.old) }
{
    let Some(reading) = zone.take() else {
        return NOT_OPEN;
    };
    let status = clocks_at(reading.get(), seconds, clocks, place);
    zone.put(reading);
    status
}

fn clocks_at(opened: &Opened, seconds: &[i64], clocks: &mut [Clock], place: &mut usize) -> u32
    ensures answer { OfZone opened.now result ((clocks.new ≡ clocks.old) × (place.new ≡ place.old))
        (λ held. Seen held (λ total _. OfPlace (unshown_place total seconds.now) result place.old place.new (clocks.new ≡ clocks.old)
        (clocks.new ≡ filled (clocks_of total seconds.now) clocks.old))) }
    ensures kept { IfRefused result (clocks.new ≡ clocks.old) }
{
    let Opened::Zone(zone) = opened else {
        return NOT_OPEN;
    };
    match zone.clocks_at(seconds, clocks) {
        Ok(()) => DONE,
        Err(unshown) => {
            *place = unshown;
            OUT_OF_RANGE
        }
    }
}

/// The zoned texts of some seconds, one after another, each with a line feed behind it, as far as they fit, and their whole length. Where
/// a second lies outside the years -9999 to 9999 in UTC, or its local date does, the place of the first such one is told, from 0; of
/// more than 2^58 seconds that of the first too many.
#[unsafe(no_mangle)]
pub extern "C" fn sefunjaro_texts_at_by(
    zone: &mut View,
    seconds: &[i64],
    text: &mut [u8],
    whole: &mut usize,
    place: &mut usize,
) -> u32
    ensures lent { StaysLent zone.old zone.new }
    ensures answer { OnZone zone.old.part.opened result ((text.new ≡ text.old) × (place.new ≡ place.old))
        (λ held. Seen held (λ total _. OfPlace (textless_place total seconds.now) result place.old place.new (text.new ≡ text.old)
        ((text.new ≡ filled (texts_of total seconds.now) text.old) × (whole.new ≡ length (texts_of total seconds.now))))) }
    ensures kept { IfRefused result ((text.new ≡ text.old) × (whole.new ≡ whole.old)) }
{
    let Some(reading) = zone.take() else {
        return NOT_OPEN;
    };
    let status = texts_at(reading.get(), seconds, text, whole, place);
    zone.put(reading);
    status
}

fn texts_at(
    opened: &Opened,
    seconds: &[i64],
    text: &mut [u8],
    whole: &mut usize,
    place: &mut usize,
) -> u32
    ensures answer { OfZone opened.now result ((text.new ≡ text.old) × (place.new ≡ place.old))
        (λ held. Seen held (λ total _. OfPlace (textless_place total seconds.now) result place.old place.new (text.new ≡ text.old)
        ((text.new ≡ filled (texts_of total seconds.now) text.old) × (whole.new ≡ length (texts_of total seconds.now))))) }
    ensures kept { IfRefused result ((text.new ≡ text.old) × (whole.new ≡ whole.old)) }
{
    let Opened::Zone(zone) = opened else {
        return NOT_OPEN;
    };
    match zone.texts_at(seconds, text) {
        Ok(length) => {
            *whole = length;
            DONE
        }
        Err(textless) => {
            *place = textless;
            OUT_OF_RANGE
        }
    }
}

/// The place, from 0, of the first second outside the years.
fn far_place(seconds: &[i64]) -> Option<usize>
    ensures { result ≡ far_place seconds.now }
{
    for i in 0..seconds.len() {
        if !is_in_years(second_at(seconds, i)) {
            return Some(i);
        }
    }
    None
}

fn second_at(seconds: &[i64], place: usize) -> i64
    requires { place < length seconds.now }
    ensures { result ≡ slice_index_or seconds.now place (pos 0) }
{
    seconds[place]
}
