//! What a zone is asked of many local times at once.
ghost use Rattle.std.specs.Prelude.{◌≡◌};
ghost use Rattle.sefunjaro_c.specs.{Found.{fold_of, gap_of, AreInstantsTold, OfRules}, Opened.{StaysLent}, Held.{OfZone, OnZone, Seen}, Statuses.{IfRefused}};

use crate::fault::{DONE, NOT_OPEN, OUT_OF_RANGE};
use crate::opened::Opened;
use crate::view::View;
use sefunjaro::{Clock, FoldRule, Found, GapRule, OpenZone};

/// One instant of each of some local times, by the rules of these numbers, in their order, as far as they fit. Where some parts are no
/// local time the place of the first such ones is told, from 0.
#[unsafe(no_mangle)]
pub extern "C" fn sefunjaro_instants_of_by(
    zone: &mut View,
    clocks: &[Clock],
    fold: u32,
    gap: u32,
    found: &mut [Found],
    place: &mut usize,
) -> u32
    ensures lent { StaysLent zone.old zone.new }
    ensures answer { OnZone zone.old.part.opened result ((found.new ≡ found.old) × (place.new ≡ place.old))
        (λ held. OfRules (fold_of fold) (gap_of gap) result ((found.new ≡ found.old) × (place.new ≡ place.old)) (λ fold gap. Seen held (λ total _.
        AreInstantsTold total fold gap clocks.now result found.old found.new place.old place.new))) }
    ensures kept { IfRefused result (found.new ≡ found.old) }
{
    let Some(reading) = zone.take() else {
        return NOT_OPEN;
    };
    let status = instants_of(reading.get(), clocks, fold, gap, found, place);
    zone.put(reading);
    status
}

fn instants_of(
    opened: &Opened,
    clocks: &[Clock],
    fold: u32,
    gap: u32,
    found: &mut [Found],
    place: &mut usize,
) -> u32
    ensures answer { OfZone opened.now result ((found.new ≡ found.old) × (place.new ≡ place.old))
        (λ held. OfRules (fold_of fold) (gap_of gap) result ((found.new ≡ found.old) × (place.new ≡ place.old)) (λ fold gap. Seen held (λ total _.
        AreInstantsTold total fold gap clocks.now result found.old found.new place.old place.new))) }
    ensures kept { IfRefused result (found.new ≡ found.old) }
{
    let Opened::Zone(zone) = opened else {
        return NOT_OPEN;
    };
    let Some(fold) = fold_of(fold) else {
        return OUT_OF_RANGE;
    };
    let Some(gap) = gap_of(gap) else {
        return OUT_OF_RANGE;
    };
    found_by(zone, clocks, fold, gap, found, place)
}

/// One instant of each of some local times by two rules.
fn found_by(
    zone: &OpenZone,
    clocks: &[Clock],
    fold: FoldRule,
    gap: GapRule,
    found: &mut [Found],
    place: &mut usize,
) -> u32
    ensures answer { Seen zone.now (λ total _. AreInstantsTold total fold gap clocks.now result found.old found.new place.old place.new) }
    ensures kept { IfRefused result (found.new ≡ found.old) }
{
    match zone.instants_of(clocks, fold, gap, found) {
        Ok(()) => DONE,
        Err(faulty) => {
            *place = faulty;
            OUT_OF_RANGE
        }
    }
}

/// The rule for folds of a number.
fn fold_of(number: u32) -> Option<FoldRule>
    ensures { result ≡ fold_of number }
{
    match number {
        0 => Some(FoldRule::First),
        1 => Some(FoldRule::Second),
        _ => None,
    }
}

/// The rule for gaps of a number.
fn gap_of(number: u32) -> Option<GapRule>
    ensures { result ≡ gap_of number }
{
    match number {
        0 => Some(GapRule::Before),
        1 => Some(GapRule::After),
        2 => Some(GapRule::None),
        _ => None,
    }
}
