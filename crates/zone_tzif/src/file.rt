//! The file of a compiled set.
ghost use Rattle.std.specs.Prelude.{◌≡◌, ◌≢◌, ℤ, None, Some, IfOk, string_bytes};
ghost use Rattle.zone_spans.specs.Schedules.{total_at as set_total_at};
ghost use Rattle.tz_lookup.specs.Sets.{schedule_of, IsAccepted};
ghost use Rattle.zone_tail.specs.{Carried.{CarriesOn}, Found.{found_from}, Tails.{tail_fault}};
ghost use Rattle.zone_tzif_core.specs.{Denotes.{Denotes}, Totals.{file_total_at}, Tzif.{IsTzif, IsTzifBy, write_fault}, Zones.{ZoneValue}};
ghost use Rattle.zone_tzif.specs.{Files.{consistent_footer, consistent_zone, footer_of, is_contradicted, zone_of, IsCarriedOn, Makes, MakesBy, MakesZone}, Values.{value_by}};

use crate::causes::cause_of;
use crate::convert::{Saves, zone_by};
use crate::laws::few_causes;
use std::alloc::{AllocError, Global};
use thiserror::Error;
use tz_lookup::SpanTable;
use zone_tail::laws::one_tail;
use zone_tail::{TailFault, is_ending_early, is_outlasting, is_saving_on, tail};
use zone_tzif_core::{Version, WriteFault, each_denotes, one_reading, write_version};

/// Why a set has no file, the first cause that holds.
#[derive(Clone, Copy, Debug, PartialEq, Eq, Error)]
pub enum FileFault {
    /// The times of its entries don't strictly rise, or are more than 4,294,967,295.
    #[error("the changes of the zone don't rise, or are too many for a file")]
    Times,
    /// It has more than 256 distinct kinds: offsets with an abbreviation, and whether they are daylight saving time.
    #[error("the zone has more kinds of time than a file can have")]
    Types,
    /// An abbreviation has a zero byte, or the distinct ones take more than 256 bytes, each with a zero after it.
    #[error("the abbreviations of the zone don't fit into a file")]
    Names,
    /// There was no memory for the file, of which none of these is a cause.
    #[error("out of memory")]
    NoMemory,
}

impl From<AllocError> for FileFault {
    ghost use Rattle.std.specs.Prelude.{◌≡◌};
    ghost use Rattle.zone_tzif.specs.declared.file.FileFault.TheVariants.{NoMemory};

    ghost from_gives = { λ _ fault. fault ≡ NoMemory };

    fn from(_: AllocError) -> FileFault {
        FileFault::NoMemory
    }
}

/// The string that carries a set on, or nothing where it has none.
fn footer_of<S: SpanTable>(alloc: Global, set: &S) -> Result<String, AllocError>
    requires { IsAccepted (schedule_of (S.seen set.now)) }
    ensures text { IfOk result (λ text. string_bytes text ≡ footer_of (S.seen set.now)) }
    ensures carried { IfOk result (λ _. IsCarriedOn (S.seen set.now)) }
{
    one_tail();
    match tail(alloc, set) {
        Ok(tail) => Ok(tail.text),
        Err(TailFault::NoMemory) => Err(AllocError),
        Err(TailFault::Shape) => Ok(String::new(alloc)),
        Err(TailFault::OffsetRange) => Ok(String::new(alloc)),
        Err(TailFault::Name) => Ok(String::new(alloc)),
    }
}

/// Whether a set's string may say otherwise as a footer: a change lies past all that it says, or daylight saving time ends in the
/// first week of the last year, or holds all of it.
#[tactic(auto, unfolding(crate::specs::Files::is_contradicted))]
fn is_contradicted<S: SpanTable>(set: &S) -> bool
    requires { IsAccepted (schedule_of (S.seen set.now)) }
    ensures { result ≡ is_contradicted (S.seen set.now) }
{
    is_outlasting(set) || is_ending_early(set) || is_saving_on(set)
}

/// The string that carries a set on, or nothing where it has none or may say otherwise as a footer.
#[tactic(auto, unfolding(crate::specs::Files::consistent_footer))]
fn consistent_footer<S: SpanTable>(alloc: Global, set: &S) -> Result<String, AllocError>
    requires { IsAccepted (schedule_of (S.seen set.now)) }
    ensures text { IfOk result (λ text. string_bytes text ≡ consistent_footer (S.seen set.now)) }
    ensures carried { IfOk result (λ _. IsCarriedOn (S.seen set.now)) }
{
    let footer = footer_of(alloc, set)?;
    if is_contradicted(set) {
        Ok(String::new(alloc))
    } else {
        Ok(footer)
    }
}

/// The file of the zone that a set is with that footer.
fn written<S: SpanTable>(
    alloc: Global,
    version: Version,
    saves: Saves,
    set: &S,
    footer: &str,
) -> Result<Vec<u8>, WriteFault>
    requires { IsAccepted (schedule_of (S.seen set.now)) }
    ensures { IfOk result (λ file. IsTzifBy version file.items (value_by saves (S.seen set.now) footer.now)) }
{
    let zone = zone_by(alloc, saves, set, footer)?;
    match write_version(alloc, version, &zone) {
        Ok(file) => Ok(file),
        Err(fault) => Err(fault),
    }
}

/// The file of a set with that footer, of that version. Where there is none, the cause is looked for without memory, so that want of memory is told only
/// where nothing else refuses the file.
pub(crate) fn with_footer<S: SpanTable>(
    alloc: Global,
    version: Version,
    saves: Saves,
    set: &S,
    footer: &str,
) -> Result<Vec<u8>, FileFault>
    requires accepted { IsAccepted (schedule_of (S.seen set.now)) }
    requires offset { write_fault (value_by saves (S.seen set.now) footer.now) ≢ Some WriteFault.Offset }
    requires footer { write_fault (value_by saves (S.seen set.now) footer.now) ≢ Some WriteFault.Footer }
    ensures told { MakesBy version (λ file. file.items) (value_by saves (S.seen set.now) footer.now) result }
    ensures file { IfOk result (λ file. IsTzifBy version file.items (value_by saves (S.seen set.now) footer.now)) }
    ensures totals { IfOk result (λ file. (zone : ZoneValue) → Denotes file.items zone → (t : ℤ) → file_total_at zone t ≡ set_total_at (schedule_of (S.seen set.now)) t) }
{
    one_reading();
    each_denotes();
    match written(alloc, version, saves, set, footer) {
        Ok(file) => Ok(file),
        Err(_) => Err(cause_of(saves, set)),
    }
}

/// The TZif file of a compiled set, the one that [`write_tzif`](zone_tzif_core::write_tzif) writes: each span as what holds from
/// its time on, and as the footer the POSIX TZ string that [`tail`](zone_tail::tail) gives, or nothing where the set has
/// none. The set is a `FixedTimespanSet`, a `CompactSet` or whatever else gives spans by number, and one that a `Tz` can be made of.
/// Whatever zone is read from the file has the set's offset at each instant, as long as its footer is left out of account: where the
/// set changes at or past the end of the year 2099, the footer takes that back.
///
/// # Errors
///
/// In this order, and each exactly where it says: `Times`, `Types`, `Names`; `NoMemory`, and never where one of these is due.
pub fn tzif_of<S: SpanTable>(alloc: Global, set: &S) -> Result<Vec<u8>, FileFault>
    requires { IsAccepted (schedule_of (S.seen set.now)) }
    ensures told { Makes (λ file. file.items) (S.seen set.now) result }
    ensures file { IfOk result (λ file. IsTzif file.items (zone_of (S.seen set.now))) }
    ensures totals { IfOk result (λ file. (zone : ZoneValue) → Denotes file.items zone → (t : ℤ) → file_total_at zone t ≡ set_total_at (schedule_of (S.seen set.now)) t) }
    ensures carried { IfOk result (λ file. tail_fault (S.seen set.now) ≡ None → CarriesOn (S.seen set.now) (found_from (S.seen set.now)) (footer_of (S.seen set.now))) }
{
    few_causes();
    match footer_of(alloc, set) {
        Ok(footer) => with_footer(alloc, Version::Two, Saves::Above, set, footer.as_str()),
        Err(_) => Err(cause_of(Saves::Above, set)),
    }
}

/// The same file, or the one without a footer: where the set has a change at or past the end of the year 2099, or its daylight saving
/// time of that year ends in the first week of January or never, which its string calls standard time. Whatever zone is read from the
/// file has the set's offset at each instant before the end of that year also by the footer, and at each instant at all where there is
/// none. RFC 8536 wants a footer to be consistent with the last change.
///
/// # Errors
///
/// In this order, and each exactly where it says: `Times`, `Types`, `Names`; `NoMemory`, and never where one of these is due.
pub fn consistent_tzif_of<S: SpanTable>(alloc: Global, set: &S) -> Result<Vec<u8>, FileFault>
    requires { IsAccepted (schedule_of (S.seen set.now)) }
    ensures told { MakesZone (λ file. file.items) (consistent_zone (S.seen set.now)) result }
    ensures file { IfOk result (λ file. IsTzif file.items (consistent_zone (S.seen set.now))) }
    ensures totals { IfOk result (λ file. (zone : ZoneValue) → Denotes file.items zone → (t : ℤ) → file_total_at zone t ≡ set_total_at (schedule_of (S.seen set.now)) t) }
    ensures carried { IfOk result (λ _. IsCarriedOn (S.seen set.now)) }
{
    few_causes();
    match consistent_footer(alloc, set) {
        Ok(footer) => with_footer(alloc, Version::Two, Saves::Above, set, footer.as_str()),
        Err(_) => Err(cause_of(Saves::Above, set)),
    }
}
