//! What the grammar of footers says, what a compiled zone's totals are beside those of its changes alone, and what its spans show.
ghost use Rattle.std.specs.Prelude.{◌≡◌, ℕ, ℤ, List, true, false, Some, None};
ghost use Rattle.civil_base.specs.{Instants.{seconds_of}, Ranges.{IsInYears}};
ghost use Rattle.tz_ever.specs.Recurrences.{zone_total};
ghost use Rattle.tz_lookup.specs.InForce.{all_in_force};
ghost use Rattle.tz_tzif.specs.{FooterForce.{FooterZone, held_at}, InForce.{are_over, told_total_at}, Opened.{IsOpenedAs}, Spells.{SpellsFooter}, Values.{FooterValue}, Years.{HasDate}, declared.spans.FileSpans.{FileSpans}};
ghost use Rattle.zone_tzif_core.specs.{Totals.{file_total_at}, Zones.{ZoneValue}};

use tz_ever::laws::reads_alike;

/// Where nothing is said in the footer, or some change lies after the instant, the total is that of the last change at or before it;
/// from the last change on it is what the footer says.
pub fn file_totals()
    ensures alone { (zone : ZoneValue) (t : ℤ) → told_total_at zone None t ≡ file_total_at zone t }
    ensures before { (zone : ZoneValue) (footer : FooterZone) (t : ℤ) → are_over zone.rest (seconds_of t) ≡ false
        → told_total_at zone (Some footer) t ≡ file_total_at zone t }
    ensures after { (zone : ZoneValue) (footer : FooterZone) (t : ℤ) → are_over zone.rest (seconds_of t) ≡ true
        → told_total_at zone (Some footer) t ≡ (held_at footer (seconds_of t)).utoff }
{}

/// A text is the footer of one value at most.
pub fn one_footer()
    ensures { (text : List ℕ) (x y : FooterValue) → SpellsFooter text x → SpellsFooter text y → x ≡ y }
{}

/// The spans of a file have its total at each instant that has a date, and each local time of the years is read by them as by it.
pub fn opened_shows()
    ensures total { (name : List ℕ) (value : ZoneValue) (opened : FileSpans) (is : IsOpenedAs name value opened) (t : ℤ) → HasDate (seconds_of t)
        → zone_total opened.recurrence opened.set t ≡ told_total_at value is.says t }
    ensures reads { (name : List ℕ) (value : ZoneValue) (opened : FileSpans) (is : IsOpenedAs name value opened) (x : ℤ) → IsInYears x
        → all_in_force (zone_total opened.recurrence opened.set) x ≡ all_in_force (told_total_at value is.says) x }
{
    reads_alike();
}
