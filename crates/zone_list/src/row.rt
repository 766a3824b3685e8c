//! The row of an entry.
ghost use Rattle.std.specs.{Prelude.{◌≡◌, ◌<◌, ◌++◌, IfSome, OnOk, is_some, length}, Fmt.{char_count}};
ghost use Rattle.civil_base.specs.{DateTimes.{instant, offset_of as offset_shown}, Layout.{zoned_text}};
ghost use Rattle.pad_fmt.specs.{Padding.{padded}, declared.options.Alignment.TheVariants.{Left}};
ghost use Rattle.zone_list.specs.{Ranges.{has_dates}, Rows.{on_the_left, on_the_right, row}, Columns.{on_side}, ShownEntries.{IsShownAs}, Windows.{entry_at}};
ghost use Rattle.tz_lookup.specs.Sets.{schedule_of, IsAccepted};

use crate::row_text::RowText;
use crate::widths::Widths;
use civil_base::{OffsetDateTime, write_zoned};
use itoa::Buffer;
use pad_fmt::{Alignment, FormatterOptions, Full, char_count, pad_with_width};
use std::alloc::AllocError;
use tz_lookup::{SpanTable, offset_of};

/// The time of the entry at a place, at its own total offset, if its UTC date and its local date lie in the years -9999 to 9999.
pub(crate) fn date_time_at<S: SpanTable>(set: &S, place: usize) -> Option<OffsetDateTime>
    requires accepted { IsAccepted (schedule_of (S.seen set.now)) }
    requires within { place < length (S.seen set.now).others }
    requires bound { place < 18446744073709551615 }
    ensures dates { is_some result ≡ has_dates (entry_at (S.seen set.now) place) }
    ensures shown { IfSome result (IsShownAs (entry_at (S.seen set.now) place)) }
{
    match OffsetDateTime::from_unix_timestamp(set.time(place)) {
        Ok(at_utc) => at_utc.to_offset(offset_of(set, place + 1)),
        Err(_) => None,
    }
}

/// Puts the row of the entry at a place, whose time is shown so, into the text, in place of what is there.
#[tactic(auto, unfolding(crate::specs::Rows::row))]
pub(crate) fn write_row<S: SpanTable>(
    text: &mut RowText,
    widths: Widths,
    set: &S,
    place: usize,
    shown: &OffsetDateTime,
) -> Result<(), AllocError>
    requires within { place < length (S.seen set.now).others }
    requires bound { place < 18446744073709551615 }
    requires shown { IsShownAs (entry_at (S.seen set.now) place) shown.now }
    ensures { OnOk result (text.new.text ≡ row widths.times widths.names (entry_at (S.seen set.now) place)) }
{
    text.clear();
    add_on_the_right(text, widths.times, Buffer::new().format(set.time(place)))?;
    text.add(b"  ")?;
    add_on_the_left(text, widths.names, set.span(place + 1).name.as_str())?;
    text.add(b"  ")?;
    add_date_time(text, shown)
}

/// Adds the zoned text.
fn add_date_time(text: &mut RowText, shown: &OffsetDateTime) -> Result<(), AllocError>
    ensures { OnOk result (text.new.text ≡ text.old.text ++ zoned_text (instant shown.now) (offset_shown shown.now)) }
{
    let mut zoned = [0; 40];
    let end = write_zoned(shown, &mut zoned);
    text.add(&zoned[..end])
}

/// Adds the column's text, with spaces in front up to the width in characters.
fn add_on_the_right(text: &mut RowText, width: usize, column: &str) -> Result<(), AllocError>
    ensures { OnOk result (text.new.text ≡ text.old.text ++ on_the_right width column.now) }
{
    add_padded(text, Alignment::Right, width, column)
}

/// Adds the column's text, with spaces after it up to the width in characters.
fn add_on_the_left(text: &mut RowText, width: usize, column: &str) -> Result<(), AllocError>
    ensures { OnOk result (text.new.text ≡ text.old.text ++ on_the_left width column.now) }
{
    add_padded(text, Alignment::Left, width, column)
}

/// Adds the column's text on that side of so many characters, over room that is reserved first.
fn add_padded(
    text: &mut RowText,
    side: Alignment,
    width: usize,
    column: &str,
) -> Result<(), AllocError>
    ensures { OnOk result (text.new.text ≡ text.old.text ++ padded Left (on_side side width) (char_count column.now) column.now) }
{
    let count = char_count(column);
    let Some(room) = column.len().checked_add(width.saturating_sub(count)) else {
        return Err(AllocError);
    };
    text.make_room(room)?;
    match pad_with_width(text, options_of(side, width), count, column) {
        Ok(()) => Ok(()),
        Err(Full) => unreachable!(),
    }
}

/// To stand on that side of so many characters.
fn options_of(side: Alignment, width: usize) -> FormatterOptions
    ensures { result ≡ on_side side width }
{
    let mut options = FormatterOptions::default();
    options.with_align(Some(side)).with_width(Some(width));
    options
}
