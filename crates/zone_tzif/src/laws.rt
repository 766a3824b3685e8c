//! What a file of a compiled set says.
ghost use Rattle.std.specs.Prelude.{◌≡◌, ◌≢◌, ℕ, ℤ, List, Some};
ghost use Rattle.zone_spans.specs.Schedules.{total_at as set_total_at};
ghost use Rattle.tz_lookup.specs.{Sets.{schedule_of, IsAccepted}, declared.set.FixedTimespanSet.{FixedTimespanSet}};
ghost use Rattle.zone_tzif_core.specs.{Denotes.{Denotes}, Totals.{file_total_at}, Tzif.{IsTzif}, Zones.{ZoneValue}};
ghost use Rattle.zone_tzif.specs.{Files.{consistent_fault, file_fault}, Values.{value_of}};

use zone_tail::laws::one_line;
use zone_tzif_core::{WriteFault, one_reading, one_value, written_denotes};

/// At each instant the zone of a set has the set's offset.
pub fn totals_kept()
    ensures { (set : FixedTimespanSet) (footer : List ℕ) (t : ℤ) → file_total_at (value_of set footer) t ≡ set_total_at (schedule_of set) t }
{}

/// Whatever zone is read from the file of a set, by `read_any` or by `read_tzif`, has the set's offset at each instant.
pub fn reads_back()
    ensures any { (set : FixedTimespanSet) (footer bytes : List ℕ) (zone : ZoneValue) → IsTzif bytes (value_of set footer) → Denotes bytes zone
        → (t : ℤ) → file_total_at zone t ≡ set_total_at (schedule_of set) t }
    ensures tzif { (set : FixedTimespanSet) (footer bytes : List ℕ) (zone : ZoneValue) → IsTzif bytes (value_of set footer) → IsTzif bytes zone
        → (t : ℤ) → file_total_at zone t ≡ set_total_at (schedule_of set) t }
{
    totals_kept();
    one_reading();
    one_value();
    written_denotes();
}

/// The file of a set that can be looked up is refused neither for an offset nor for the footer, be that the set's string or the
/// consistent one.
pub fn few_causes()
    ensures string { (set : FixedTimespanSet) → IsAccepted (schedule_of set) → (file_fault set ≢ Some WriteFault.Offset) × (file_fault set ≢ Some WriteFault.Footer) }
    ensures consistent { (set : FixedTimespanSet) → IsAccepted (schedule_of set)
        → (consistent_fault set ≢ Some WriteFault.Offset) × (consistent_fault set ≢ Some WriteFault.Footer) }
{
    one_line();
}
