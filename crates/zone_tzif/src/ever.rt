//! The file of a zone that goes on for ever.
ghost use Rattle.std.specs.Prelude.{◌≡◌, ℕ, ℤ, IfOk, List, MatchResult, Option};
ghost use Rattle.tz_ever.specs.{Ever.{ever_total}, ZoneShown.{zone_set_of}};
ghost use Rattle.tz_tzif.specs.{FooterForce.{FooterZone}, Faults.{SaysInFooter}, InForce.{kind_at, told_total_at}};
ghost use Rattle.tz_lookup.specs.declared.set.FixedTimespanSet.{FixedTimespanSet};
ghost use Rattle.zone_tzif.specs.{Agreement.{ever_kind}, EverFiles.{IsEverFile, IsEverFileFault, IsFooterFor, IsInReach}};
ghost use Rattle.zone_tzif_core.specs.{Denotes.{Denotes}, Zones.{ZoneValue}};

use crate::call::tail_for_ever;
use crate::convert::Saves;
use crate::file::{FileFault, with_footer};
use crate::outcome::EverTailFault;
use crate::saved::is_saved_for_good;
use crate::until::Until;
use crate::version::version_of;
use std::alloc::Global;
use tz_ever::ZoneSet;
use tz_tzif::one_footer;
use tz_tzif::repeats::footers_repeat;
use zone_tzif_core::{Version, each_denotes, one_reading};

/// Why a zone for ever has no file.
#[derive(Clone, Copy, Debug, PartialEq, Eq)]
pub enum EverFileFault {
    /// No footer carries it on.
    Footer(EverTailFault),
    /// The changes up to 2102 are refused.
    File(FileFault),
}

/// Whatever zone is read from the file of a set for ever shows by its changes and its footer, at each instant up to the end of the
/// year 9999, what the set shows for ever: the offset, the abbreviation, and any saving but 0 as daylight saving time.
pub fn ever_kinds()
    ensures { (set : FixedTimespanSet) (bytes : List ℕ) (zone : ZoneValue) (footer : Option FooterZone) (t : ℤ) → IsEverFile set bytes
        → Denotes bytes zone → SaysInFooter zone.footer footer → IsInReach footer t → kind_at zone footer t ≡ ever_kind set t }
{
    footers_repeat();
    one_footer();
    one_reading();
    each_denotes();
}

/// So its offset is the total that the set shows for ever.
pub fn ever_totals()
    ensures { (set : FixedTimespanSet) (bytes : List ℕ) (zone : ZoneValue) (footer : Option FooterZone) (t : ℤ) → IsEverFile set bytes
        → Denotes bytes zone → SaysInFooter zone.footer footer → IsInReach footer t → told_total_at zone footer t ≡ ever_total set t }
{
    ever_kinds();
}

/// The TZif file of a zone that goes on for ever: its changes up to 2102-01-01 00:00:00 UTC, from which on each year comes again, and the
/// footer of [`tail_for_ever`], which says the same from one of these changes on, or from the beginning of time.
/// So the last change and the footer agree. A saving below 0 is daylight saving time too. Where daylight saving time holds for good from
/// then on there is no footer, and the last change is what holds. The version is 3 where a rule's time in the footer
/// lies below 0 or has an hour past 24, and else 2: 24:30 is one of version 2.
///
/// # Errors
///
/// `Footer` with the cause of [`tail_for_ever`], but where daylight saving time holds for good; then `File`, of these changes and exactly:
/// `Times`, `Types`, `Names`, or `NoMemory`, and never where one of these is due.
pub fn tzif_for_ever(alloc: Global, set: &ZoneSet) -> Result<Vec<u8>, EverFileFault>
    ensures told { MatchResult result (λ file. IsEverFile (zone_set_of set.now) file.items) (IsEverFileFault (zone_set_of set.now)) }
    ensures kinds { IfOk result (λ file. (zone : ZoneValue) (footer : Option FooterZone) (t : ℤ) → Denotes file.items zone
        → SaysInFooter zone.footer footer → IsInReach footer t → kind_at zone footer t ≡ ever_kind (zone_set_of set.now) t) }
    ensures totals { IfOk result (λ file. (zone : ZoneValue) (footer : Option FooterZone) (t : ℤ) → Denotes file.items zone
        → SaysInFooter zone.footer footer → IsInReach footer t → told_total_at zone footer t ≡ ever_total (zone_set_of set.now) t) }
{
    ever_kinds();
    ever_totals();
    due_file(alloc, set)
}

/// The file that is due: without a footer where daylight saving time holds for good.
fn due_file(alloc: Global, set: &ZoneSet) -> Result<Vec<u8>, EverFileFault>
    ensures { MatchResult result (λ file. IsEverFile (zone_set_of set.now) file.items) (IsEverFileFault (zone_set_of set.now)) }
{
    if is_saved_for_good(set.compact()) {
        return file_with(alloc, set, Version::Two, "");
    }
    match tail_for_ever(alloc, set) {
        Ok(tail) => {
            let footer = tail.text.as_str();
            let version = version_of(footer);
            file_with(alloc, set, version, footer)
        }
        Err(fault) => Err(EverFileFault::Footer(fault)),
    }
}

/// The file of a set with its footer.
fn file_with(
    alloc: Global,
    set: &ZoneSet,
    version: Version,
    footer: &str,
) -> Result<Vec<u8>, EverFileFault>
    requires { IsFooterFor (zone_set_of set.now) version footer.now }
    ensures { MatchResult result (λ file. IsEverFile (zone_set_of set.now) file.items) (IsEverFileFault (zone_set_of set.now)) }
{
    let front = Until::new(set);
    match with_footer(alloc, version, Saves::Any, &front, footer) {
        Ok(file) => Ok(file),
        Err(fault) => Err(EverFileFault::File(fault)),
    }
}
