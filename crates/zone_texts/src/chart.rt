//! The chart of zones over a year.
ghost use Rattle.std.specs.Prelude.{◌≡◌, map, IfErr, IfOk};
ghost use Rattle.zone_texts.specs.{Charts.{are_untold, chart_due}, Faults.{IsFaultOf}, Frames.{IsWithin}, SeenZones.{named}};

use crate::drawing::add_drawings;
use crate::fault::ReplyFault;
use crate::frame::{frame_of, head_of, tail_of};
use crate::view::ReplyZone;
use crate::zone::ChartZone;
use std::alloc::Global;

/// Whether some zone isn't told for the year.
fn are_untold<Z: ReplyZone>(zones: &[ChartZone<'_, Z>], year: u16) -> bool
    ensures { result ≡ are_untold year (map (named Z.view) zones.now) }
{
    for zone in zones {
        if zone.zone.last_year() < i32::from(year) {
            return true;
        }
    }
    false
}

/// A picture (SVG) of the offsets of zones over a year by UTC: of each zone a line from the year's beginning to its end, with a circle at
/// each change by which clocks skip local times (of the class `gap`) or read some twice (`fold`), whose title is the line of the change as
/// [`crate::add_list`] has it for people. What stands before and behind these, as grid, words and colours, is any text.
///
/// # Errors
///
/// `OutOfYears` where the year is past 9999; then `Untold` exactly where it lies past the last year of some zone; then `OutOfYears` where a
/// date of a change that has a circle lies outside the years; `NoMemory`.
#[tactic(auto, unfolding(crate::specs::Charts::chart_due))]
pub fn chart_of<Z: ReplyZone>(
    alloc: Global,
    zones: &[ChartZone<'_, Z>],
    year: u16,
) -> Result<Vec<u8>, ReplyFault>
    ensures ok { IfOk result (λ text. IsWithin (chart_due (map (named Z.view) zones.now) year) text.items) }
    ensures err { IfErr result (IsFaultOf (chart_due (map (named Z.view) zones.now) year)) }
{
    if 9999 < year {
        return Err(ReplyFault::OutOfYears);
    }
    if are_untold(zones, year) {
        return Err(ReplyFault::Untold);
    }
    let frame = frame_of(alloc, zones, year)?;
    let mut text = head_of(frame, zones.len())?;
    add_drawings(&mut text, alloc, zones, year)?;
    let tail = tail_of(frame, zones)?;
    text.extend_from_slice(&tail)?;
    Ok(text)
}
