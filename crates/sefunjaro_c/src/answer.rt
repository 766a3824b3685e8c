//! All that a zone says of an instant, in one call.
ghost use Rattle.std.specs.Prelude.{◌≡◌};
ghost use Rattle.civil_base.specs.DateTimes.{instant};
ghost use Rattle.sefunjaro.specs.Answers.{IsAnswer, TellsSaving, TellsUntil};
ghost use Rattle.sefunjaro_c.specs.{Answers.{is_shown, Where, Within}, Times.{is_instant, nanos_at}, Opened.{StaysLent}, Held.{OfZone, OnZone, Seen}, Statuses.{done, IfRefused}};

use crate::fault::{DONE, NOT_OPEN, OUT_OF_RANGE};
use crate::opened::Opened;
use crate::view::View;
use crate::zones::instant_of;
use civil_base::OffsetDateTime;
use sefunjaro::{Answer, OpenZone};

/// All that a zone says of an instant, and how long it holds. The abbreviation goes into the room, as far as it fits.
#[unsafe(no_mangle)]
pub extern "C" fn sefunjaro_answer_at_by(
    zone: &mut View,
    second: i64,
    nanosecond: u32,
    answer: &mut Answer,
    name: &mut [u8],
) -> u32
    ensures lent { StaysLent zone.old zone.new }
    ensures answer { OnZone zone.old.part.opened result (name.new ≡ name.old)
        (λ held. Within (is_instant second nanosecond) result (name.new ≡ name.old) (Seen held (λ total gives.
        Where (is_shown total (nanos_at second nanosecond)) result (name.new ≡ name.old)
        (IsAnswer total gives (nanos_at second nanosecond) answer.new name.old name.new)))) }
    ensures saving { OnZone zone.old.part.opened result (Unit {0}) (λ held. result ≡ done → TellsSaving held answer.new) }
    ensures until { OnZone zone.old.part.opened result (Unit {0}) (λ held. result ≡ done → TellsUntil held (nanos_at second nanosecond) answer.new) }
    ensures kept { IfRefused result ((answer.new ≡ answer.old) × (name.new ≡ name.old)) }
{
    let Some(reading) = zone.take() else {
        return NOT_OPEN;
    };
    let status = answer_at(reading.get(), second, nanosecond, answer, name);
    zone.put(reading);
    status
}

fn answer_at(
    opened: &Opened,
    second: i64,
    nanosecond: u32,
    answer: &mut Answer,
    name: &mut [u8],
) -> u32
    ensures answer { OfZone opened.now result (name.new ≡ name.old)
        (λ held. Within (is_instant second nanosecond) result (name.new ≡ name.old) (Seen held (λ total gives.
        Where (is_shown total (nanos_at second nanosecond)) result (name.new ≡ name.old)
        (IsAnswer total gives (nanos_at second nanosecond) answer.new name.old name.new)))) }
    ensures saving { OfZone opened.now result (Unit {0}) (λ held. result ≡ done → TellsSaving held answer.new) }
    ensures until { OfZone opened.now result (Unit {0}) (λ held. result ≡ done → TellsUntil held (nanos_at second nanosecond) answer.new) }
    ensures kept { IfRefused result ((answer.new ≡ answer.old) × (name.new ≡ name.old)) }
{
    let Opened::Zone(zone) = opened else {
        return NOT_OPEN;
    };
    match instant_of(second, nanosecond) {
        Some(at) => answer_in(zone, &at, answer, name),
        None => OUT_OF_RANGE,
    }
}

fn answer_in(zone: &OpenZone, at: &OffsetDateTime, answer: &mut Answer, name: &mut [u8]) -> u32
    ensures answer { Seen zone.now (λ total gives. Where (is_shown total (instant at.now)) result (name.new ≡ name.old)
        (IsAnswer total gives (instant at.now) answer.new name.old name.new)) }
    ensures saving { result ≡ done → TellsSaving zone.now answer.new }
    ensures until { result ≡ done → TellsUntil zone.now (instant at.now) answer.new }
    ensures kept { IfRefused result ((answer.new ≡ answer.old) × (name.new ≡ name.old)) }
{
    match zone.answer_at(at, name) {
        Some(told) => {
            *answer = told;
            DONE
        }
        None => OUT_OF_RANGE,
    }
}
