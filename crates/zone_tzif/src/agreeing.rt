//! Where a footer begins to say what a set shows that goes on for ever.
ghost use Rattle.std.specs.Prelude.{◌≡◌, ◌<◌, ◌↔◌, IsTrue, true, length, pos, ◌≤ℤ◌};
ghost use Rattle.civil_base.specs.Ranges.{IsOffset};
ghost use Rattle.tz_tzif.specs.{FooterShown.{footer_shown}, FooterForce.{held_at, is_fixed, standard_total}};
ghost use Rattle.tz_lookup.specs.Sets.{IsAccepted, schedule_of, shifts_of};
ghost use Rattle.zone_tzif_core.specs.Shown.{record_shown};
ghost use Rattle.zone_tzif.specs.{Agreement.{AgreesAlways, cycle_begin, time_of_entry}, Tells.{Tells, TellsEntry}, Walked.{IsWalked}};

use crate::causes::kind_at;
use crate::convert::Saves;
use crate::until::CYCLE_BEGIN;
use crate::walk::{is_held, walk};
use tz_lookup::SpanTable;
use tz_tzif::Footer;
use tz_tzif::repeats::footers_repeat;
use zone_tzif_core::Record;

/// Where a footer begins to say what a set shows for ever, up to the end of the year 9999 by its standard time: the offset, the
/// abbreviation, and any saving but 0 as daylight saving time.
#[derive(Clone, Copy, Debug, PartialEq, Eq)]
pub enum Agreement {
    /// At no entry from the year 0 to 2101.
    Nowhere,
    /// At the first of these entries from which on it does, a second from 1970-01-01 00:00:00 UTC. No footer at all does so from an
    /// earlier one.
    From(i64),
    /// At the beginning of time: the footer is standard time alone.
    Always,
}

/// Where a footer begins to say what a set, which can be looked up, shows for ever, each year from 2102 on being that of 400 years
/// before.
pub fn first_agreement<S: SpanTable>(footer: &Footer<'_>, set: &S) -> Agreement
    requires { IsAccepted (schedule_of (S.seen set.now)) }
    ensures { Tells (footer_shown footer.now) (S.seen set.now) result }
{
    let entry = walk(footer, set);
    if is_always(footer, set, entry) {
        return Agreement::Always;
    }
    from_entry(footer, set, entry)
}

/// Whether a footer that was walked to an entry agrees from the beginning of time on.
fn is_always<S: SpanTable>(footer: &Footer<'_>, set: &S, entry: usize) -> bool
    requires accepted { IsAccepted (schedule_of (S.seen set.now)) }
    requires walked { IsWalked (footer_shown footer.now) (S.seen set.now) entry }
    ensures { IsTrue result ↔ AgreesAlways (footer_shown footer.now) (S.seen set.now) }
{
    footers_repeat();
    read_offset(footer);
    let kind = kind_at(Saves::Any, set, 0);
    let is_standing = is_standing(footer, &kind);
    entry == 0 && is_standing
}

/// Where it agrees from an entry on.
fn from_entry<S: SpanTable>(footer: &Footer<'_>, set: &S, entry: usize) -> Agreement
    requires accepted { IsAccepted (schedule_of (S.seen set.now)) }
    requires walked { IsWalked (footer_shown footer.now) (S.seen set.now) entry }
    ensures { TellsEntry (footer_shown footer.now) (S.seen set.now) result }
{
    footers_repeat();
    read_offset(footer);
    if is_early(set, entry) {
        Agreement::From(set.time(entry))
    } else {
        Agreement::Nowhere
    }
}

/// Whether there is an entry of that number, up to the end of 2101.
fn is_early<S: SpanTable>(set: &S, entry: usize) -> bool
    ensures { IsTrue result ↔ ((entry < length (shifts_of (S.seen set.now))) × (time_of_entry (S.seen set.now) entry ≤ℤ cycle_begin)) }
{
    entry < set.entry_count() && set.time(entry) <= CYCLE_BEGIN
}

/// Read for what it says of every offset: that it is in range.
fn read_offset(footer: &Footer<'_>)
    ensures { IsOffset (standard_total (footer_shown footer.now)) }
{
    let (standard, _saving) = footer.offsets();
    let _in_range = standard.whole_seconds();
}

/// Whether a footer is standard time alone, and of this kind.
fn is_standing(footer: &Footer<'_>, kind: &Record<'_>) -> bool
    ensures { IsTrue result ↔ ((is_fixed (footer_shown footer.now) ≡ true) × (held_at (footer_shown footer.now) (pos 0) ≡ record_shown kind.now)) }
{
    footer.is_fixed() && is_held(&footer.held_at(0), kind)
}
