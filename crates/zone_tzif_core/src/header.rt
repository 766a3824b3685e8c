//! A header, and parts of a known length.
ghost use Rattle.std.specs.Prelude.{◌≡◌, ◌≤◌, length, option_map, IfSome};
ghost use Rattle.zone_tzif_core.specs.{Format.{header_of, begins_well}, Reading.{cut_as, cut, header_as, header_at}};

use crate::numbers::count_at;

/// What a header says.
#[derive(Clone, Copy)]
pub(crate) struct Header {
    pub version: u8,
    pub isut: u32,
    pub isstd: u32,
    pub leap: u32,
    pub time: u32,
    pub kind: u32,
    pub char: u32,
}

/// The first bytes, as many as asked for, and the rest.
#[tactic(auto, unfolding(crate::specs::Reading::cut))]
pub(crate) fn cut(bytes: &[u8], count: usize) -> Option<(&[u8], &[u8])>
    ensures parts { cut_as result ≡ cut count bytes.now }
    ensures front { IfSome result (λ parts. length parts.0.now ≡ count) }
{
    if count > bytes.len() {
        return None;
    }
    Some(bytes.split_at(count))
}

/// Whether the bytes begin with the format's four.
#[tactic(auto, unfolding(crate::specs::Format::begins_well))]
fn begins_well(bytes: &[u8]) -> bool
    ensures { result ≡ begins_well bytes.now }
{
    bytes.starts_with(b"TZif".as_slice())
}

/// What the 44 bytes of a header say.
#[tactic(auto, unfolding(crate::specs::Format::header_of))]
fn header_of(head: &[u8]) -> Header
    requires { 44 ≤ length head.now }
    ensures { result ≡ header_of head.now }
{
    Header {
        version: head[4],
        isut: count_at(head, 20),
        isstd: count_at(head, 24),
        leap: count_at(head, 28),
        time: count_at(head, 32),
        kind: count_at(head, 36),
        char: count_at(head, 40),
    }
}

/// The header at the front, and the rest.
#[tactic(auto, unfolding(crate::specs::Reading::header_at))]
pub(crate) fn read_header(bytes: &[u8]) -> Option<(Header, &[u8])>
    ensures { header_as result ≡ header_at bytes.now }
{
    let (head, rest) = cut(bytes, 44)?;
    if begins_well(head) {
        Some((header_of(head), rest))
    } else {
        None
    }
}
