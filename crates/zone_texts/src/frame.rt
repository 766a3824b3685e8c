//! What stands around the lines of a chart: grid, words and colours. No clause speaks of it; `bin/try_chart` looks at it.
ghost use Rattle.std.specs.Prelude.{◌<◌, ◌≤◌, length, IfOk};

use crate::drawing::{Added, changes_in, year_begin};
use crate::escape::add_escaped;
use crate::view::ReplyZone;
use crate::zone::ChartZone;
use basics::day_number;
use civil_base::UtcOffset;
use std::alloc::{AllocError, Global};

const MONTHS: [&str; 12] = [
    "Jan", "Feb", "Mar", "Apr", "May", "Jun", "Jul", "Aug", "Sep", "Oct", "Nov", "Dec",
];

// Those of Okabe and Ito, which people tell apart who see no red or no green.
const COLOURS: [&str; 8] = [
    "#0072b2", "#e69f00", "#009e73", "#cc79a7", "#d55e00", "#56b4e9", "#000000", "#f0e442",
];

const STYLE: &str = "<style>text{fill:#000}.grid{stroke:#ddd}.line{fill:none}.gap{fill:#fff}</style>
<rect width=\"100%\" height=\"100%\" fill=\"#fff\"/>
";

/// The year of a chart, the hours below and above its lines, and where memory comes from.
#[derive(Clone, Copy)]
pub(crate) struct Frame {
    pub(crate) alloc: Global,
    pub(crate) year: u16,
    low: i8,
    high: i8,
}

/// The hours with one offset more, and an hour of room on either side.
fn widened(hours: (i8, i8), offset: UtcOffset) -> (i8, i8) {
    let seconds = offset.whole_seconds();
    let below = seconds.div_euclid(3600) as i8 - 1;
    let above = (seconds + 3599).div_euclid(3600) as i8 + 1;
    (hours.0.min(below), hours.1.max(above))
}

/// The frame of some zones over a year.
pub(crate) fn frame_of<Z: ReplyZone>(
    alloc: Global,
    zones: &[ChartZone<'_, Z>],
    year: u16,
) -> Result<Frame, AllocError>
    requires { year ≤ 9999 }
    ensures { IfOk result (λ frame. frame.year ≤ 9999) }
{
    let mut hours = (127, -128);
    for charted in zones {
        hours = widened(hours, charted.zone.offset_at(year_begin(year)));
        let changes = changes_in(alloc, &charted.zone, year)?;
        for change in &changes {
            hours = widened(hours, charted.zone.offset_at(*change));
        }
    }
    Ok(Frame {
        alloc,
        year,
        low: hours.0,
        high: hours.1,
    })
}

/// The place of a day, in pixels.
fn across(year: u16, day: i32) -> i64
    requires { year ≤ 9999 }
{
    let days = i64::from(day) - i64::from(day_number(i32::from(year), 1, 1));
    // A unit of the lines, a second, is 0.00003 pixels.
    70 + days * 324 / 125
}

/// The place of an hour, in pixels.
fn down(frame: Frame, hour: i8) -> i16 {
    70 + 27 * (i16::from(frame.high) - i16::from(hour))
}

fn add(into: &mut Vec<u8>, text: Result<String, AllocError>) -> Added {
    let text = text?;
    into.extend_from_slice(text.as_bytes())
}

/// Adds the head of a picture with so many lines of a legend.
fn add_open(into: &mut Vec<u8>, frame: Frame, count: usize) -> Added {
    let year = frame.year;
    let height = i128::from(down(frame, frame.low)) + 50 + 22 * (count as i128 + 3);
    add(
        into,
        format!(in frame.alloc;
            "<svg xmlns=\"http://www.w3.org/2000/svg\" width=\"1060\" height=\"{height}\" viewBox=\"0 0 1060 {height}\"
font-family=\"sans-serif\" font-size=\"14\">
<title>Offsets from UTC in {year}</title>
"
        ),
    )?;
    into.extend_from_slice(STYLE.as_bytes())?;
    add(
        into,
        format!(in frame.alloc;
            "<text x=\"70\" y=\"30\" font-size=\"20\">Offsets from UTC in {year}</text>
<text x=\"20\" y=\"56\">hours from UTC</text>
"
        ),
    )
}

/// Adds the line at the first of a month, and the month's name.
fn add_month(into: &mut Vec<u8>, frame: Frame, month: u8) -> Added
    requires year { frame.year ≤ 9999 }
    requires first { 1 ≤ month }
    requires last { month ≤ 12 }
{
    let name = MONTHS[usize::from(month) - 1];
    let x = across(frame.year, day_number(i32::from(frame.year), month, 1));
    let middle = across(frame.year, day_number(i32::from(frame.year), month, 15));
    let bottom = down(frame, frame.low);
    add(
        into,
        format!(in frame.alloc;
            "<path class=\"grid\" d=\"M{x} 70V{bottom}\"/>
<text x=\"{middle}\" y=\"{bottom}\" dy=\"20\" text-anchor=\"middle\">{name}</text>\n"
        ),
    )
}

/// Adds the line of an hour, and the hour.
fn add_hour(into: &mut Vec<u8>, frame: Frame, hour: i8) -> Added
    requires { frame.year ≤ 9999 }
{
    let sign = if 0 < hour { "+" } else { "" };
    let right = across(frame.year, day_number(i32::from(frame.year) + 1, 1, 1));
    let y = down(frame, hour);
    add(
        into,
        format!(in frame.alloc;
            "<path class=\"grid\" d=\"M70 {y}H{right}\"/>
<text x=\"60\" y=\"{y}\" dy=\"5\" text-anchor=\"end\">{sign}{hour}</text>\n"
        ),
    )
}

/// What stands before the lines.
pub(crate) fn head_of(frame: Frame, count: usize) -> Result<Vec<u8>, AllocError>
    requires { frame.year ≤ 9999 }
{
    let mut head = Vec::new(frame.alloc);
    add_open(&mut head, frame, count)?;
    for month in 1..13 {
        add_month(&mut head, frame, month)?;
    }
    for hour in frame.low..=frame.high {
        add_hour(&mut head, frame, hour)?;
    }
    head.extend_from_slice(b"<defs>\n")?;
    Ok(head)
}

/// Whether two zones have one offset at some time of the year, as far as its first of January and of July tell.
fn meet<Z: ReplyZone>(one: &Z, other: &Z, year: u16) -> bool
    requires { year ≤ 9999 }
{
    let winter = year_begin(year);
    let summer = i64::from(day_number(i32::from(year), 7, 1)) * 86_400;
    one.offset_at(winter) == other.offset_at(winter)
        || one.offset_at(summer) == other.offset_at(summer)
}

/// How many units right and down a zone is drawn: three pixels more than the one before, where it would cover one.
fn shift_of<Z: ReplyZone>(zones: &[ChartZone<'_, Z>], number: usize, year: u16) -> u128
    requires year { year ≤ 9999 }
    requires place { number < length zones.now }
{
    for other in 0..number {
        if meet(&zones[other].zone, &zones[number].zone, year) {
            return number as u128 * 100_000;
        }
    }
    0
}

/// Draws the lines of the zone of that number in its colour.
fn add_use<Z: ReplyZone>(
    into: &mut Vec<u8>,
    frame: Frame,
    number: usize,
    zones: &[ChartZone<'_, Z>],
) -> Added
    requires year { frame.year ≤ 9999 }
    requires place { number < length zones.now }
{
    let colour = COLOURS[number.min(7)];
    let right = shift_of(zones, number, frame.year);
    add(
        into,
        format!(in frame.alloc;
            "<use href=\"#zone{number}\" stroke=\"{colour}\" fill=\"{colour}\" transform=\"translate({right} -{right})\"/>\n"
        ),
    )
}

/// Adds the zone of that number to the legend: its colour, its name, and its abbreviations as they come into force.
fn add_label<Z: ReplyZone>(
    into: &mut Vec<u8>,
    frame: Frame,
    number: usize,
    charted: &ChartZone<'_, Z>,
) -> Added
    requires { frame.year ≤ 9999 }
{
    let colour = COLOURS[number.min(7)];
    let y = i128::from(down(frame, frame.low)) + 50 + 22 * number as i128;
    add(
        into,
        format!(in frame.alloc;
            "<path stroke=\"{colour}\" stroke-width=\"2\" d=\"M70 {y}h40\"/><text x=\"120\" y=\"{y}\" dy=\"5\">"
        ),
    )?;
    add_escaped(into, charted.name.as_bytes())?;
    let force = charted.zone.force_at(frame.alloc, year_begin(frame.year))?;
    into.extend_from_slice(b": ")?;
    add_escaped(into, force.name.as_bytes())?;
    let changes = changes_in(frame.alloc, &charted.zone, frame.year)?;
    for change in &changes {
        let force = charted.zone.force_at(frame.alloc, *change)?;
        into.extend_from_slice(b", ")?;
        add_escaped(into, force.name.as_bytes())?;
    }
    into.extend_from_slice(b"</text>\n")
}

/// Adds what ring and dot mean.
fn add_meanings(into: &mut Vec<u8>, frame: Frame, count: usize) -> Added {
    let y = i128::from(down(frame, frame.low)) + 50 + 22 * count as i128;
    add(
        into,
        format!(in frame.alloc;
            "<circle cx=\"90\" cy=\"{y}\" r=\"6\" fill=\"#fff\" stroke=\"#000\" stroke-width=\"2\"/>
<text x=\"120\" y=\"{y}\" dy=\"5\">clocks are set ahead and skip local times (gap)</text>
<circle cx=\"490\" cy=\"{y}\" r=\"7\"/>
<text x=\"520\" y=\"{y}\" dy=\"5\">clocks are set back and read local times twice (fold)</text>
<text x=\"120\" y=\"{y}\" dy=\"27\">lines that would cover each other are drawn 3 pixels apart</text>
</svg>\n"
        ),
    )
}

/// What stands behind the lines.
pub(crate) fn tail_of<Z: ReplyZone>(
    frame: Frame,
    zones: &[ChartZone<'_, Z>],
) -> Result<Vec<u8>, AllocError>
    requires { frame.year ≤ 9999 }
{
    let mut tail = Vec::new(frame.alloc);
    let y = down(frame, 0);
    add(
        &mut tail,
        format!(in frame.alloc;
            "</defs>\n<g transform=\"translate(70 {y}) scale(.00003 -.00003)\" stroke-width=\"70000\">\n"
        ),
    )?;
    for number in 0..zones.len() {
        add_use(&mut tail, frame, number, zones)?;
    }
    tail.extend_from_slice(b"</g>\n")?;
    for number in 0..zones.len() {
        add_label(&mut tail, frame, number, &zones[number])?;
    }
    add_meanings(&mut tail, frame, zones.len())?;
    Ok(tail)
}
