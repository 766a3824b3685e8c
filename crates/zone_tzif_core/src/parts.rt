//! The parts of a file.
ghost use Rattle.std.specs.Prelude.{◌≡◌, ◌*◌, ◌+◌, ◌≤◌, drop, length, option_map, take, IfSome};
ghost use Rattle.zone_tzif_core.specs.{Format.{is_one_line, is_only, is_sound, block_len, suits}, Reading.{between, block_in, end_in, footer_in, parts_in, parts_shown, said_parts, second_in, text_in, time_of, time_size, AreCounted}};

use crate::header::{Header, cut, read_header};
use crate::numbers::{signed_eight, signed_four};

/// The last version that is taken: a version later than 4 is read as that.
const LAST_VERSION: u8 = 255;

/// The parts of a block, and the footer.
#[derive(Drop)]
pub(crate) struct Parts<'a> {
    /// Whether a time has eight bytes; in a file of version 1 it has four.
    pub wide: bool,
    pub kinds: u32,
    pub times: &'a [u8],
    pub numbers: &'a [u8],
    pub records: &'a [u8],
    pub names: &'a [u8],
    pub footer: &'a str,
}

/// How many bytes a first block takes.
#[tactic(auto, unfolding(crate::specs::Format::block_len))]
fn block_len(header: &Header) -> usize
    ensures { result ≡ block_len header.now }
{
    let (isut, isstd) = (header.isut as usize, header.isstd as usize);
    let (leap, time) = (header.leap as usize, header.time as usize);
    let (kind, char) = (header.kind as usize, header.char as usize);
    5 * time + 6 * kind + char + 8 * leap + isstd + isut
}

/// Whether there is no leap second, some kind and some character, and of either sort of flags none or one for each kind.
fn is_sound(header: &Header) -> bool
    ensures { result ≡ is_sound header.now }
{
    header.leap == 0
        && header.kind >= 1
        && header.char >= 1
        && (header.isstd == 0 || header.isstd == header.kind)
        && (header.isut == 0 || header.isut == header.kind)
}

/// Whether a header is the only one of its file: that of version 1, whose byte is zero.
#[tactic(auto, unfolding(crate::specs::Format::is_only))]
fn is_only(header: &Header) -> bool
    ensures { result ≡ is_only header.now }
{
    header.version == 0 && is_sound(header)
}

/// Whether a second header may stand after a first one of that version, which is 2 to the last one that is taken.
#[tactic(auto, unfolding(crate::specs::Format::suits))]
fn suits(last: u8, version: u8, header: &Header) -> bool
    ensures { result ≡ suits last version header.now }
{
    header.version == version && version >= b'2' && version <= last && is_sound(header)
}

/// The text that the bytes are.
#[tactic(auto, unfolding(crate::specs::Reading::text_in))]
pub(crate) fn text(bytes: &[u8]) -> Option<&str>
    ensures { option_map (λ text. text.now) result ≡ text_in bytes.now }
{
    std::str::from_utf8(bytes).ok()
}

/// The bytes between a first and a last LF.
#[tactic(auto, unfolding(crate::specs::Reading::between))]
fn between(bytes: &[u8]) -> Option<&[u8]>
    ensures { option_map (λ inner. inner.now) result ≡ between bytes.now }
{
    let length = bytes.len();
    if length < 2 || bytes[0] != b'\n' || bytes[length - 1] != b'\n' {
        return None;
    }
    Some(&bytes[1..length - 1])
}

/// Whether no byte is an LF or zero.
pub(crate) fn is_one_line(bytes: &[u8]) -> bool
    ensures { result ≡ is_one_line bytes.now }
{
    bytes.iter().all(|byte| *byte != b'\n' && *byte != 0)
}

/// The footer that the bytes are, which stands between two LFs.
#[tactic(auto, unfolding(crate::specs::Reading::footer_in))]
fn footer(bytes: &[u8]) -> Option<&str>
    ensures { option_map (λ text. text.now) result ≡ footer_in bytes.now }
{
    let inner = between(bytes)?;
    if is_one_line(inner) {
        text(inner)
    } else {
        None
    }
}

/// The footer that the bytes are after a block: in a file of version 1 there is none.
fn ending(wide: bool, bytes: &[u8]) -> Option<&str>
    ensures { option_map (λ text. text.now) result ≡ end_in wide bytes.now }
{
    if wide {
        footer(bytes)
    } else if bytes.is_empty() {
        Some("")
    } else {
        None
    }
}

/// How many bytes so many times take.
fn times_len(wide: bool, count: u32) -> usize
    ensures { result ≡ time_size wide * count }
{
    if wide {
        8 * count as usize
    } else {
        4 * count as usize
    }
}

/// The time at a place.
pub(crate) fn time_at(wide: bool, times: &[u8], place: usize) -> i64
    requires { time_size wide * place + time_size wide ≤ length times.now }
    ensures { result ≡ time_of wide (take (time_size wide) (drop (time_size wide * place) times.now)) }
{
    if wide {
        signed_eight(&times[8 * place..8 * place + 8])
    } else {
        signed_four(&times[4 * place..4 * place + 4]) as i64
    }
}

/// The parts of the block of a header, and of what follows it.
fn block<'a>(wide: bool, header: &Header, bytes: &'a [u8]) -> Option<Parts<'a>>
    ensures parts { option_map parts_shown result ≡ block_in wide header.now bytes.now }
    ensures counted { IfSome result (λ parts. AreCounted (parts_shown parts)) }
{
    let times = times_len(wide, header.time);
    let (time, kind) = (header.time as usize, header.kind as usize);
    let char = header.char as usize;
    let flags = header.isstd as usize + header.isut as usize;
    if times + time + 6 * kind + char + flags > bytes.len() {
        return None;
    }
    let (times, rest) = bytes.split_at(times);
    let (numbers, rest) = rest.split_at(time);
    let (records, rest) = rest.split_at(6 * kind);
    let (names, rest) = rest.split_at(char);
    let footer = ending(wide, &rest[flags..])?;
    Some(Parts {
        wide,
        kinds: header.kind,
        times,
        numbers,
        records,
        names,
        footer,
    })
}

/// The parts of what follows the first of two headers, of a version up to the last one.
#[tactic(auto, unfolding(crate::specs::Reading::second_in))]
fn second<'a>(last: u8, first: &Header, bytes: &'a [u8]) -> Option<Parts<'a>>
    ensures parts { option_map parts_shown result ≡ second_in last first.now bytes.now }
    ensures counted { IfSome result (λ parts. AreCounted (parts_shown parts)) }
{
    let (_, rest) = cut(bytes, block_len(first))?;
    let (header, rest) = read_header(rest)?;
    if suits(last, first.version, &header) {
        block(true, &header, rest)
    } else {
        None
    }
}

/// The parts of a whole file of two headers, of a version up to the last one.
#[tactic(auto, unfolding(crate::specs::Reading::parts_in))]
pub(crate) fn cut_parts(bytes: &[u8], last: u8) -> Option<Parts<'_>>
    ensures parts { option_map parts_shown result ≡ parts_in last bytes.now }
    ensures counted { IfSome result (λ parts. AreCounted (parts_shown parts)) }
{
    let (first, rest) = read_header(bytes)?;
    second(last, &first, rest)
}

/// The parts of a whole file of any version.
#[tactic(auto, unfolding(crate::specs::Reading::said_parts))]
pub(crate) fn said_parts(bytes: &[u8]) -> Option<Parts<'_>>
    ensures parts { option_map parts_shown result ≡ said_parts bytes.now }
    ensures counted { IfSome result (λ parts. AreCounted (parts_shown parts)) }
{
    let (first, rest) = read_header(bytes)?;
    if is_only(&first) {
        block(false, &first, rest)
    } else {
        second(LAST_VERSION, &first, rest)
    }
}
