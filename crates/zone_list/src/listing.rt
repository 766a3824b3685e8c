//! The rows of a window.
ghost use Rattle.std.specs.Prelude.{◌≡◌, ◌<◌, [], ◌∷◌, ◌++◌, IfOk, IsErrOf, OnOk, length, true, false};
ghost use Rattle.tz_lookup.specs.Sets.{schedule_of, IsAccepted};
ghost use Rattle.zone_list.specs.{Ranges.{all_have_dates, has_dates}, Rows.{row, rows}, Windows.{entry_at, window}};

use crate::row::{date_time_at, write_row};
use crate::row_text::RowText;
use crate::widths::Widths;
use crate::window::{Window, is_within};
use std::alloc::{AllocError, Global};
use tz_lookup::{FixedTimespanSet, SpanTable};
pub use zone_source::LineList as Listing;

/// Why a window is not listed.
#[derive(Clone, Copy, Debug, PartialEq, Eq)]
pub enum ListFault {
    /// The UTC date or the local date of an entry lies outside the years -9999 to 9999.
    Range,
    /// Memory ran out.
    NoMemory,
}

impl From<AllocError> for ListFault {
    ghost use Rattle.std.specs.Prelude.{◌≡◌};
    ghost use Rattle.zone_list.specs.declared.listing.ListFault.TheVariants.{NoMemory};

    ghost from_gives = { λ _ fault. fault ≡ NoMemory };

    fn from(_: AllocError) -> ListFault {
        ListFault::NoMemory
    }
}

/// The rows of the set's entries whose time is at least `from` and below `to`, in their order; both are in seconds from
/// 1970-01-01 00:00:00 UTC. There are none where `from` is not below `to`. The set is one that `Tz::new` accepts.
///
/// A row is the time in decimal, on the right of as many characters as the widest of the list has; two spaces; the
/// abbreviation, on the left of as many; two spaces; and the time as a zoned text at the entry's own total offset.
///
/// # Errors
///
/// `Range` exactly where the UTC date or the local date of one of these entries lies outside the years -9999 to 9999;
/// `NoMemory`.
pub fn list_lines(
    alloc: Global,
    set: &FixedTimespanSet,
    from: i64,
    to: i64,
) -> Result<Listing, ListFault>
    requires { IsAccepted (schedule_of set.now) }
    ensures ok { OnOk result (all_have_dates (window set.now from to) ≡ true) }
    ensures lines { IfOk result (λ listing. listing ≡ rows (window set.now from to)) }
    ensures range { IsErrOf result ListFault.Range → all_have_dates (window set.now from to) ≡ false }
{
    match lines_of(alloc, set, from, to) {
        Ok(listing) => Ok(listing),
        Err(fault) => Err(fault),
    }
}

/// As [`list_lines`], of whatever gives spans by number, as a `CompactSet` does.
///
/// # Errors
///
/// As [`list_lines`].
pub fn lines_of<S: SpanTable>(
    alloc: Global,
    set: &S,
    from: i64,
    to: i64,
) -> Result<Listing, ListFault>
    requires { IsAccepted (schedule_of (S.seen set.now)) }
    ensures ok { OnOk result (all_have_dates (window (S.seen set.now) from to) ≡ true) }
    ensures lines { IfOk result (λ listing. listing ≡ rows (window (S.seen set.now) from to)) }
    ensures range { IsErrOf result ListFault.Range → all_have_dates (window (S.seen set.now) from to) ≡ false }
{
    match list_window(alloc, set, &Window { from, to }) {
        Ok(listing) => Ok(listing),
        Err(fault) => Err(fault),
    }
}

/// The rows of a window.
#[tactic(auto, unfolding(crate::specs::Rows::rows))]
fn list_window<S: SpanTable>(alloc: Global, set: &S, asked: &Window) -> Result<Listing, ListFault>
    requires { IsAccepted (schedule_of (S.seen set.now)) }
    ensures ok { OnOk result (all_have_dates (window (S.seen set.now) asked.now.from asked.now.to) ≡ true) }
    ensures lines { IfOk result (λ listing. listing ≡ rows (window (S.seen set.now) asked.now.from asked.now.to)) }
    ensures range { IsErrOf result ListFault.Range → all_have_dates (window (S.seen set.now) asked.now.from asked.now.to) ≡ false }
{
    let widths = Widths::of(set, asked);
    let mut listing = Listing::new(alloc);
    let mut text = RowText::new(alloc);
    for place in 0..set.entry_count() {
        if is_within(set, place, asked) {
            match add_row(set, place, widths, &mut text, &mut listing) {
                Ok(()) => {}
                Err(fault) => return Err(fault),
            }
        } else {}
    }
    Ok(listing)
}

/// Adds the row of the entry at a place, which counts from 0.
fn add_row<S: SpanTable>(
    set: &S,
    place: usize,
    widths: Widths,
    text: &mut RowText,
    listing: &mut Listing,
) -> Result<(), ListFault>
    requires accepted { IsAccepted (schedule_of (S.seen set.now)) }
    requires within { place < length (S.seen set.now).others }
    requires bound { place < 18446744073709551615 }
    ensures ok { OnOk result (has_dates (entry_at (S.seen set.now) place) ≡ true) }
    ensures row { OnOk result (listing.new ≡ listing.old ++ row widths.times widths.names (entry_at (S.seen set.now) place) ∷ []) }
    ensures range { IsErrOf result ListFault.Range → has_dates (entry_at (S.seen set.now) place) ≡ false }
{
    let Some(shown) = date_time_at(set, place) else {
        return Err(ListFault::Range);
    };
    write_row(text, widths, set, place, &shown)?;
    listing.push(text.as_bytes())?;
    Ok(())
}
