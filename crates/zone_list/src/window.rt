//! The entries of a set in a window of time.
ghost use Rattle.std.specs.Prelude.{◌≡◌, ◌<◌, length};
ghost use Rattle.zone_list.specs.Windows.{entry_at, is_within};

use tz_lookup::SpanTable;

/// A window of time, in seconds from 1970-01-01 00:00:00 UTC: from the first on, and before the other.
#[derive(Clone, Copy, Debug, PartialEq, Eq)]
pub struct Window {
    /// The first second.
    pub from: i64,
    /// The second before which it ends.
    pub to: i64,
}

/// Whether the entry at a place, which counts from 0, lies in a window.
pub(crate) fn is_within<S: SpanTable>(set: &S, place: usize, asked: &Window) -> bool
    requires { place < length (S.seen set.now).others }
    ensures { result ≡ is_within asked.now.from asked.now.to (entry_at (S.seen set.now) place) }
{
    let time = set.time(place);
    asked.from <= time && time < asked.to
}
