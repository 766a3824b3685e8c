//! The lines of zones in a chart, and the marks of their changes.
ghost use Rattle.std.specs.{Prelude.{◌≡◌, ◌++◌, ◌≤◌, ◌+◌, [], codes, decimal, map, IfErr, IfOk, Ok, OnOk}, List.{flat_map}, Fmt.{signed_decimal}};
ghost use Rattle.zone_words.specs.declared.answer_form.AnswerForm.TheVariants.{People};
ghost use Rattle.zone_texts.specs.{Charts.{changes_in, circle_text, drawing_due, head_text, line_text, mark_due, opening_text, point_text, titled_due, x_of, y_of, year_begin}, Escapes.{escaped_due}, Faults.{behind, each_due, IsFaultOf}, Frames.{each_numbered}, Lists.{change_due}, SeenZones.{named}};

use crate::bytes::add_bytes;
use crate::changes::{add_change_line, kind_between};
use crate::escape::add_escaped;
use crate::kind::Kind;
use crate::line::Style;
use crate::view::ReplyZone;
use crate::zone::{ChartZone, Replied};
use basics::day_number;
use itoa::Buffer;
use std::alloc::{AllocError, Global};
use zone_words::AnswerForm;

/// A text grew, or memory ran out.
pub(crate) type Added = Result<(), AllocError>;

/// The second at which a year begins by UTC.
#[tactic(auto, unfolding(crate::specs::Charts::year_begin))]
pub(crate) fn year_begin(year: u16) -> i64
    requires { year ≤ 10000 }
    ensures { result ≡ year_begin year }
{
    i64::from(day_number(i32::from(year), 1, 1)) * 86_400
}

/// The changes of a zone in a year by UTC.
pub(crate) fn changes_in<Z: ReplyZone>(
    alloc: Global,
    zone: &Z,
    year: u16,
) -> Result<Vec<i64>, AllocError>
    requires { year ≤ 9999 }
    ensures { IfOk result (λ found. found.items ≡ changes_in year (Z.view zone.now)) }
{
    zone.changes(alloc, year_begin(year), year_begin(year + 1))
}

/// How many units across a second is.
fn x_of(year: u16, second: i64) -> i128
    requires { year ≤ 9999 }
    ensures { result ≡ x_of year second }
{
    i128::from(second) - i128::from(year_begin(year))
}

/// How many units up the offset in force at a second is.
fn y_of<Z: ReplyZone>(zone: &Z, second: i64) -> i128
    ensures { result ≡ y_of (Z.view zone.now) second }
{
    250 * i128::from(zone.offset_at(second).whole_seconds())
}

fn add_number(into: &mut Vec<u8>, number: i128) -> Added
    ensures { OnOk result (into.new.items ≡ into.old.items ++ signed_decimal number) }
{
    into.extend_from_slice(Buffer::new().format(number).as_bytes())
}

/// Adds how many units across a second is.
fn add_x(into: &mut Vec<u8>, year: u16, second: i64) -> Added
    requires { year ≤ 9999 }
    ensures { OnOk result (into.new.items ≡ into.old.items ++ signed_decimal (x_of year second)) }
{
    let x = x_of(year, second);
    add_number(into, x)
}

/// Adds how many units across the end of a year is.
fn add_end(into: &mut Vec<u8>, year: u16) -> Added
    requires { year ≤ 9999 }
    ensures { OnOk result (into.new.items ≡ into.old.items ++ signed_decimal (x_of year (year_begin (year + 1)))) }
{
    let x = x_of(year, year_begin(year + 1));
    add_number(into, x)
}

/// Adds how many units up the offset in force at a second is.
fn add_y<Z: ReplyZone>(into: &mut Vec<u8>, zone: &Z, second: i64) -> Added
    ensures { OnOk result (into.new.items ≡ into.old.items ++ signed_decimal (y_of (Z.view zone.now) second)) }
{
    let y = y_of(zone, second);
    add_number(into, y)
}

/// Adds the point of the offset in force at a second, its numbers behind two texts.
fn add_point<Z: ReplyZone>(
    into: &mut Vec<u8>,
    before: &[u8],
    between: &[u8],
    zone: &Z,
    year: u16,
    second: i64,
) -> Added
    requires { year ≤ 9999 }
    ensures { OnOk result (into.new.items ≡ into.old.items ++ point_text before.now between.now year (Z.view zone.now) second) }
{
    add_bytes(into, before)?;
    add_x(into, year, second)?;
    add_bytes(into, between)?;
    add_y(into, zone, second)?;
    Ok(())
}

/// Adds the ways to some changes.
fn add_steps<Z: ReplyZone>(into: &mut Vec<u8>, zone: &Z, year: u16, changes: &[i64]) -> Added
    requires { year ≤ 9999 }
    ensures { OnOk result (into.new.items ≡ into.old.items ++ flat_map (point_text (codes "H") (codes "V") year (Z.view zone.now)) changes.now) }
{
    for change in changes {
        add_point(into, b"H", b"V", zone, year, *change)?;
    }
    Ok(())
}

/// Adds the line of a zone, from the year's beginning to its end.
fn add_line<Z: ReplyZone>(into: &mut Vec<u8>, zone: &Z, year: u16, changes: &[i64]) -> Added
    requires year { year ≤ 9999 }
    requires changes { changes.now ≡ changes_in year (Z.view zone.now) }
    ensures { OnOk result (into.new.items ≡ into.old.items ++ line_text year (Z.view zone.now)) }
{
    add_point(into, b"M", b" ", zone, year, year_begin(year))?;
    add_steps(into, zone, year, changes)?;
    add_bytes(into, b"H")?;
    add_end(into, year)?;
    Ok(())
}

fn add_natural(into: &mut Vec<u8>, number: usize) -> Added
    ensures { OnOk result (into.new.items ≡ into.old.items ++ decimal number) }
{
    into.extend_from_slice(Buffer::new().format(number).as_bytes())
}

/// Adds the beginning of a zone's group: its number and its name.
fn add_head(into: &mut Vec<u8>, number: usize, name: &[u8]) -> Added
    ensures { OnOk result (into.new.items ≡ into.old.items ++ head_text number name.now) }
{
    add_bytes(into, b"<g id=\"zone")?;
    add_natural(into, number)?;
    add_bytes(into, b"\"><title>")?;
    add_escaped(into, name)?;
    Ok(())
}

/// Adds a zone's number, its name and its line.
fn add_opening<Z: ReplyZone>(
    into: &mut Vec<u8>,
    number: usize,
    zone: &ChartZone<'_, Z>,
    year: u16,
    changes: &[i64],
) -> Added
    requires year { year ≤ 9999 }
    requires changes { changes.now ≡ changes_in year (Z.view zone.now.zone) }
    ensures { OnOk result (into.new.items ≡ into.old.items ++ opening_text year number (named Z.view zone.now)) }
{
    add_head(into, number, zone.name.as_bytes())?;
    add_bytes(into, b"</title>\n<path class=\"line\" d=\"")?;
    add_line(into, &zone.zone, year, changes)?;
    add_bytes(into, b"\"/>\n")?;
    Ok(())
}

/// Adds the circle of a change, up to its title.
fn add_circle<Z: ReplyZone>(
    into: &mut Vec<u8>,
    zone: &Z,
    year: u16,
    kind: Kind,
    second: i64,
) -> Added
    requires { year ≤ 9999 }
    ensures { OnOk result (into.new.items ≡ into.old.items ++ circle_text year (Z.view zone.now) kind second) }
{
    add_bytes(into, b"<circle class=\"")?;
    add_bytes(into, kind.text())?;
    add_point(into, b"\" cx=\"", b"\" cy=\"", zone, year, second)?;
    add_bytes(into, b"\" r=\"200000\"><title>")?;
    Ok(())
}

/// Adds the line of a change as XML writes it.
fn add_title<Z: ReplyZone>(into: &mut Vec<u8>, alloc: Global, zone: &Z, second: i64) -> Replied
    ensures ok { OnOk result (Ok into.new.items ≡ behind into.old.items (escaped_due (change_due People (Z.view zone.now) [] second))) }
    ensures err { IfErr result (IsFaultOf (escaped_due (change_due People (Z.view zone.now) [] second))) }
{
    let style = Style {
        name: "",
        form: AnswerForm::People,
    };
    let mut title = Vec::new(alloc);
    add_change_line(&mut title, alloc, zone, &style, second)?;
    add_escaped(into, &title)?;
    Ok(())
}

/// Adds the mark of a change with its title.
fn add_titled<Z: ReplyZone>(
    into: &mut Vec<u8>,
    alloc: Global,
    zone: &Z,
    year: u16,
    kind: Kind,
    second: i64,
) -> Replied
    requires { year ≤ 9999 }
    ensures ok { OnOk result (Ok into.new.items ≡ behind into.old.items (titled_due year (Z.view zone.now) kind second)) }
    ensures err { IfErr result (IsFaultOf (titled_due year (Z.view zone.now) kind second)) }
{
    add_circle(into, zone, year, kind, second)?;
    add_title(into, alloc, zone, second)?;
    into.extend_from_slice(b"</title></circle>\n")?;
    Ok(())
}

/// Adds the mark of a change, if clocks skip local times by it or read some twice.
#[tactic(auto, unfolding(crate::specs::Charts::mark_due))]
fn add_mark<Z: ReplyZone>(
    into: &mut Vec<u8>,
    alloc: Global,
    zone: &Z,
    year: u16,
    second: i64,
) -> Replied
    requires { year ≤ 9999 }
    ensures ok { OnOk result (Ok into.new.items ≡ behind into.old.items (mark_due year (Z.view zone.now) second)) }
    ensures err { IfErr result (IsFaultOf (mark_due year (Z.view zone.now) second)) }
{
    match kind_between(zone.offset_before(second), zone.offset_at(second)) {
        Kind::One => Ok(()),
        Kind::Gap => add_titled(into, alloc, zone, year, Kind::Gap, second),
        Kind::Fold => add_titled(into, alloc, zone, year, Kind::Fold, second),
        Kind::More => Ok(()),
    }
}

/// Adds the marks of some changes.
fn add_marks<Z: ReplyZone>(
    into: &mut Vec<u8>,
    alloc: Global,
    zone: &Z,
    year: u16,
    changes: &[i64],
) -> Replied
    requires { year ≤ 9999 }
    ensures ok { OnOk result (Ok into.new.items ≡ behind into.old.items (each_due (mark_due year (Z.view zone.now)) changes.now)) }
    ensures err { IfErr result (IsFaultOf (each_due (mark_due year (Z.view zone.now)) changes.now)) }
{
    for change in changes {
        add_mark(into, alloc, zone, year, *change)?;
    }
    Ok(())
}

/// Adds the zone of that number.
#[tactic(auto, unfolding(crate::specs::Charts::drawing_due))]
fn add_drawing<Z: ReplyZone>(
    into: &mut Vec<u8>,
    alloc: Global,
    number: usize,
    zone: &ChartZone<'_, Z>,
    year: u16,
) -> Replied
    requires { year ≤ 9999 }
    ensures ok { OnOk result (Ok into.new.items ≡ behind into.old.items (drawing_due year number (named Z.view zone.now))) }
    ensures err { IfErr result (IsFaultOf (drawing_due year number (named Z.view zone.now))) }
{
    let changes = changes_in(alloc, &zone.zone, year)?;
    add_opening(into, number, zone, year, &changes)?;
    add_marks(into, alloc, &zone.zone, year, &changes)?;
    add_bytes(into, b"</g>\n")?;
    Ok(())
}

/// Adds the zones.
pub(crate) fn add_drawings<Z: ReplyZone>(
    into: &mut Vec<u8>,
    alloc: Global,
    zones: &[ChartZone<'_, Z>],
    year: u16,
) -> Replied
    requires { year ≤ 9999 }
    ensures ok { OnOk result (Ok into.new.items ≡ behind into.old.items (each_numbered (drawing_due year) 0 (map (named Z.view) zones.now))) }
    ensures err { IfErr result (IsFaultOf (each_numbered (drawing_due year) 0 (map (named Z.view) zones.now))) }
{
    for number in 0..zones.len() {
        add_drawing(into, alloc, number, &zones[number], year)?;
    }
    Ok(())
}
