//! How wide the columns are.
ghost use Rattle.std.specs.{Prelude.{◌≡◌, ◌<◌, length, map, max}, Fmt.{char_count, signed_decimal}};
ghost use Rattle.zone_list.specs.{Rows.{name_of, time_of, widest}, Windows.{entry_at, window}};

use crate::window::{Window, is_within};
use pad_fmt::{FormatterOptions, char_count, padded_width_of};
use tz_lookup::SpanTable;

/// The greatest numbers of characters of the times and of the abbreviations.
#[derive(Clone, Copy, Debug, PartialEq, Eq)]
pub(crate) struct Widths {
    pub(crate) times: usize,
    pub(crate) names: usize,
}

impl Widths {
    /// Of the texts of the entries of a window.
    pub(crate) fn of<S: SpanTable>(set: &S, asked: &Window) -> Widths
        ensures times { result.times ≡ widest (map time_of (window (S.seen set.now) asked.now.from asked.now.to)) }
        ensures names { result.names ≡ widest (map name_of (window (S.seen set.now) asked.now.from asked.now.to)) }
    {
        let mut widths = Widths { times: 0, names: 0 };
        for place in 0..set.entry_count() {
            if is_within(set, place, asked) {
                widths = widths.with(set, place);
            } else {}
        }
        widths
    }

    /// With the texts of one more entry.
    fn with<S: SpanTable>(self, set: &S, place: usize) -> Widths
        requires within { place < length (S.seen set.now).others }
        requires bound { place < 18446744073709551615 }
        ensures times { result.times ≡ max (char_count (time_of (entry_at (S.seen set.now) place))) self.times }
        ensures names { result.names ≡ max (char_count (name_of (entry_at (S.seen set.now) place))) self.names }
    {
        Widths {
            times: time_width(set.time(place)).max(self.times),
            names: char_count(set.span(place + 1).name.as_str()).max(self.names),
        }
    }
}

/// How many characters a time has in decimal.
fn time_width(time: i64) -> usize
    ensures { result ≡ char_count (signed_decimal time) }
{
    padded_width_of(&time, FormatterOptions::default())
}
