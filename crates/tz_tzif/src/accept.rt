//! The tests of a compiled zone.
ghost use Rattle.std.specs.{Prelude.{◌≡◌, MatchOption, MatchResult, option_map}, List.{list_all}};
ghost use Rattle.zone_tzif_core.specs.{ZoneFiles.{zone_seen}, Zones.{is_small, rises}};
ghost use Rattle.tz_tzif.specs.{FooterShown.{footer_shown}, Faults.{are_small, IsAcceptedFile, IsTzifFault, IsNoFooter, SaysInFooter}};

use crate::fault::TzifFault;
use crate::footer::Footer;
use zone_tzif_core::{ZoneFile, do_rise, is_small};

/// What the footer of a zone that can be looked up says.
pub(crate) fn accepted_footer(zone: &ZoneFile) -> Result<Option<Footer<'_>>, TzifFault>
    ensures { MatchResult result (λ footer. IsAcceptedFile (zone_seen zone.now) (option_map footer_shown footer)) (IsTzifFault (zone_seen zone.now)) }
{
    if !times_rise(zone) {
        return Err(TzifFault::Times);
    }
    if !are_small(zone) {
        return Err(TzifFault::Offset);
    }
    match read_footer(zone.footer()) {
        Some(footer) => Ok(footer),
        None => Err(TzifFault::Footer),
    }
}

/// Whether the times strictly rise.
fn times_rise(zone: &ZoneFile) -> bool
    ensures { result ≡ rises (zone_seen zone.now).rest }
{
    do_rise(zone.changes())
}

/// Whether each offset is at most 93,599 in size.
fn are_small(zone: &ZoneFile) -> bool
    ensures { result ≡ are_small (zone_seen zone.now) }
{
    is_small(zone.first().utoff) && all_small(zone)
}

/// Whether the offset of each change is at most 93,599 in size.
fn all_small(zone: &ZoneFile) -> bool
    ensures { result ≡ list_all (λ change. is_small change.1.utoff) (zone_seen zone.now).rest }
{
    for place in 0..zone.change_count() {
        if !is_small(zone.kind_at(place).utoff) {
            return false;
        }
    }
    true
}

/// What a footer says: nothing where it is empty. There is no answer exactly where it is not empty and is no footer.
pub fn read_footer(text: &str) -> Option<Option<Footer<'_>>>
    ensures { MatchOption result (IsNoFooter text.now) (λ footer. SaysInFooter text.now (option_map footer_shown footer)) }
{
    if text.is_empty() {
        return Some(None);
    }
    match Footer::parse(text) {
        Some(footer) => Some(Some(footer)),
        None => None,
    }
}
