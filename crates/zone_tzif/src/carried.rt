//! What the zone of a set says past its last change.
ghost use Rattle.std.specs.Prelude.{◌≡◌, ℕ, ℤ, ◌<ℤ◌, List, Option, Some, true};
ghost use Rattle.civil_base.specs.Instants.{seconds_of};
ghost use Rattle.zone_spans.specs.Schedules.{total_at as set_total_at};
ghost use Rattle.tz_lookup.specs.{Sets.{schedule_of}, declared.set.FixedTimespanSet.{FixedTimespanSet}};
ghost use Rattle.tz_tzif.specs.{FooterForce.{FooterZone, is_of_one_year}, Standing.{StandsFor}, Faults.{SaysInFooter}, InForce.{are_over, told_total_at}};
ghost use Rattle.zone_tail.specs.{Carried.{CarriesOn}, Tails.{IsTail, end_of_last_year, is_ending_early}};
ghost use Rattle.zone_tzif_core.specs.{Denotes.{Denotes}, Tzif.{IsTzif}, Zones.{ZoneValue}};
ghost use Rattle.zone_tzif.specs.{Files.{consistent_zone, IsCarriedOn}, Values.{value_of}, Footers.{IsFooterText, IsSaid}};

use crate::laws::totals_kept;
use tz_tzif::{file_totals, one_footer};
use zone_tzif_core::{one_reading, written_denotes};

/// The string that `tail` gives for a set is a footer, and of the zone that `from_set` makes of the set with it, the total is the
/// set's at every instant before the end of the last year, as `tail` reckons it. Only where daylight saving time of that year ends in
/// its first week, from the last change on, is this so where the footer's rule of the instant's year has begun, and that of the year
/// after hasn't: `tail` reads a string in one standard year, and a footer's rule may end in the last hours of the year before.
pub fn carried_on()
    ensures footer { (set : FixedTimespanSet) (from : Option ℤ) (text : List ℕ) → CarriesOn set from text → IsFooterText text }
    ensures totals { (set : FixedTimespanSet) (from : Option ℤ) (text : List ℕ) (footer : FooterZone) (t : ℤ) → IsTail set from text
        → CarriesOn set from text → StandsFor text footer → seconds_of t <ℤ end_of_last_year set
        → (is_ending_early set ≡ true → are_over (value_of set text).rest (seconds_of t) ≡ true → is_of_one_year footer (seconds_of t) ≡ true)
        → told_total_at (value_of set text) (Some footer) t ≡ set_total_at (schedule_of set) t }
{
    one_footer();
    file_totals();
    totals_kept();
}

/// Whatever is read from a set's consistent file, with what its footer says, has the set's offset: at every instant, where the set
/// has no string or one that may say otherwise as a footer, and else at every instant before the end of the last year. That the string
/// carries the set on is told by whoever writes the file (`consistent_tzif_of`).
pub fn consistent_totals()
    ensures { (set : FixedTimespanSet) (bytes : List ℕ) (zone : ZoneValue) (footer : Option FooterZone) (t : ℤ) → IsCarriedOn set
        → IsTzif bytes (consistent_zone set) → Denotes bytes zone → SaysInFooter zone.footer footer → IsSaid set t
        → told_total_at zone footer t ≡ set_total_at (schedule_of set) t }
{
    carried_on();
    file_totals();
    totals_kept();
    one_reading();
    written_denotes();
}
