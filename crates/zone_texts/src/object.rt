//! Objects of JSON.
ghost use Rattle.std.specs.Prelude.{◌≡◌, ◌++◌, false, length, take, true, is_ok, OnErr, OnOk, if◌then◌else◌};
ghost use Rattle.civil_base.specs.DateTimes.{instant, offset_of};
ghost use Rattle.zone_texts.specs.{Forces.{force_shown}, declared.kind.Kind.TheVariants.{Gap}, Objects.{change_object_text, clock_members, escaped, force_members, front_members, gap_object_text, instant_key, kind_member, members, object_text, quoted, skipped_members}};

use crate::bytes::add_bytes;
use crate::force::Force;
use crate::kind::Kind;
use civil_base::{OffsetDateTime, PlainDateTime, UtcOffset};
use itoa::Buffer;
use std::alloc::AllocError;
use zone_words::{add_local, add_offset, add_seconds, hex_digit};

/// What an object tells of an instant: its zone's name, the local time, what is in force, and the kind of the local time.
#[derive(Clone, Copy)]
pub(crate) struct Told<'a> {
    pub(crate) name: &'a str,
    pub(crate) at: &'a OffsetDateTime,
    pub(crate) local: &'a PlainDateTime,
    pub(crate) force: &'a Force,
    pub(crate) kind: Kind,
}

/// Adds a byte of a string.
fn add_escaped(into: &mut Vec<u8>, byte: u8) -> Result<(), AllocError>
    ensures { into.new.items ≡ (if is_ok result then into.old.items ++ escaped byte else into.old.items) }
{
    if byte == b'"' || byte == b'\\' {
        into.extend_from_slice(&[b'\\', byte])
    } else if byte < 32 {
        let (high, low) = (hex_digit(byte / 16), hex_digit(byte % 16));
        into.extend_from_slice(&[b'\\', b'u', b'0', b'0', high, low])
    } else {
        into.extend_from_slice(&[byte])
    }
}

/// Adds a text as a string, or a part of it where memory runs out.
#[tactic(auto, using(std::proofs::Common::append_assoc), unfolding(crate::specs::Objects::quoted))]
fn add_string(into: &mut Vec<u8>, text: &str) -> Result<(), AllocError>
    ensures ok { OnOk result (into.new.items ≡ into.old.items ++ quoted text.now) }
    ensures err { OnErr result (take (length into.old.items) into.new.items ≡ into.old.items) }
{
    into.extend_from_slice(b"\"")?;
    for byte in text.as_bytes() {
        add_escaped(into, *byte)?;
    }
    into.extend_from_slice(b"\"")?;
    Ok(())
}

/// Adds a text as a string of JSON.
///
/// # Errors
///
/// Want of memory alone. The text is as before then.
pub fn add_quoted(into: &mut Vec<u8>, text: &str) -> Result<(), AllocError>
    ensures ok { OnOk result (into.new.items ≡ into.old.items ++ quoted text.now) }
    ensures err { OnErr result (into.new.items ≡ into.old.items) }
{
    let before = into.len();
    let added = add_string(into, text);
    if added.is_err() {
        into.truncate(before);
    }
    added
}

/// The key of an instant, or of that at which clocks skip a local time.
fn instant_key(is_skip: bool) -> &'static [u8]
    ensures { result.now ≡ instant_key is_skip }
{
    if is_skip {
        b",\"skipped_at\":"
    } else {
        b",\"instant\":"
    }
}

#[tactic(auto, using(std::proofs::Common::append_assoc), unfolding(crate::specs::Objects::front_members))]
fn add_front(
    into: &mut Vec<u8>,
    is_skip: bool,
    name: &str,
    at: &OffsetDateTime,
) -> Result<(), AllocError>
    ensures { OnOk result (into.new.items ≡ into.old.items ++ front_members is_skip name.now (instant at.now)) }
{
    add_bytes(into, b"{\"zone\":")?;
    add_quoted(into, name)?;
    add_bytes(into, instant_key(is_skip))?;
    add_seconds(into, at)?;
    add_bytes(into, b",")
}

#[tactic(auto, using(std::proofs::Common::append_assoc), unfolding(crate::specs::Objects::clock_members))]
fn add_clock(into: &mut Vec<u8>, local: &PlainDateTime, offset: UtcOffset) -> Result<(), AllocError>
    ensures { OnOk result (into.new.items ≡ into.old.items ++ clock_members local.now offset) }
{
    add_bytes(into, b"\"local\":\"")?;
    add_local(into, local)?;
    add_bytes(into, b"\",\"offset\":\"")?;
    add_offset(into, offset)?;
    add_bytes(into, b"\",")
}

#[tactic(auto, using(std::proofs::Common::append_assoc), unfolding(crate::specs::Objects::force_members))]
fn add_force(into: &mut Vec<u8>, force: &Force) -> Result<(), AllocError>
    ensures { OnOk result (into.new.items ≡ into.old.items ++ force_members (force_shown force.now)) }
{
    add_bytes(into, b"\"abbreviation\":")?;
    add_quoted(into, force.name.as_str())?;
    add_bytes(into, b",\"saving\":")?;
    add_bytes(into, Buffer::new().format(force.saving).as_bytes())
}

#[tactic(auto, using(std::proofs::Common::append_assoc), unfolding(crate::specs::Objects::kind_member))]
fn add_kind(into: &mut Vec<u8>, kind: Kind) -> Result<(), AllocError>
    ensures { OnOk result (into.new.items ≡ into.old.items ++ kind_member kind) }
{
    add_bytes(into, b",\"kind\":\"")?;
    add_bytes(into, kind.text())?;
    add_bytes(into, b"\"")
}

/// Adds an object, but for its end.
#[tactic(auto, using(std::proofs::Common::append_assoc))]
fn add_members(into: &mut Vec<u8>, told: &Told<'_>) -> Result<(), AllocError>
    ensures { OnOk result (into.new.items ≡ into.old.items
        ++ members told.now.name.now (instant told.now.at.now) told.now.local.now (offset_of told.now.at.now) (force_shown told.now.force.now) told.now.kind) }
{
    add_front(into, false, told.name, told.at)?;
    add_clock(into, told.local, told.at.offset())?;
    add_force(into, told.force)?;
    add_kind(into, told.kind)
}

/// Adds the object of an instant.
#[tactic(auto, using(std::proofs::Common::append_assoc), unfolding(crate::specs::Objects::object_text))]
pub(crate) fn add_object(into: &mut Vec<u8>, told: &Told<'_>) -> Result<(), AllocError>
    ensures { OnOk result (into.new.items ≡ into.old.items
        ++ object_text told.now.name.now (instant told.now.at.now) told.now.local.now (offset_of told.now.at.now) (force_shown told.now.force.now) told.now.kind) }
{
    add_members(into, told)?;
    add_bytes(into, b"}")
}

/// Adds the object of a change from that offset.
#[tactic(auto, using(std::proofs::Common::append_assoc), unfolding(crate::specs::Objects::change_object_text))]
pub(crate) fn add_change_object(
    into: &mut Vec<u8>,
    told: &Told<'_>,
    before: UtcOffset,
) -> Result<(), AllocError>
    ensures { OnOk result (into.new.items ≡ into.old.items
        ++ change_object_text told.now.name.now (instant told.now.at.now) told.now.local.now (offset_of told.now.at.now) (force_shown told.now.force.now) told.now.kind before) }
{
    add_members(into, told)?;
    add_bytes(into, b",\"before\":\"")?;
    add_offset(into, before)?;
    add_bytes(into, b"\"}")
}

#[tactic(auto, using(std::proofs::Common::append_assoc), unfolding(crate::specs::Objects::skipped_members))]
fn add_skipped(
    into: &mut Vec<u8>,
    local: &PlainDateTime,
    before: UtcOffset,
    after: UtcOffset,
) -> Result<(), AllocError>
    ensures { OnOk result (into.new.items ≡ into.old.items ++ skipped_members local.now before after) }
{
    add_bytes(into, b"\"local\":\"")?;
    add_local(into, local)?;
    add_bytes(into, b"\",\"before\":\"")?;
    add_offset(into, before)?;
    add_bytes(into, b"\",\"after\":\"")?;
    add_offset(into, after)?;
    add_bytes(into, b"\",")
}

/// Adds the object of a local time that clocks skip, by a change from that offset.
#[tactic(auto, using(std::proofs::Common::append_assoc), unfolding(crate::specs::Objects::gap_object_text))]
pub(crate) fn add_gap_object(
    into: &mut Vec<u8>,
    told: &Told<'_>,
    before: UtcOffset,
) -> Result<(), AllocError>
    ensures { OnOk result (into.new.items ≡ into.old.items
        ++ gap_object_text told.now.name.now (instant told.now.at.now) told.now.local.now before (offset_of told.now.at.now) (force_shown told.now.force.now)) }
{
    add_front(into, true, told.name, told.at)?;
    add_skipped(into, told.local, before, told.at.offset())?;
    add_force(into, told.force)?;
    add_kind(into, Kind::Gap)?;
    add_bytes(into, b"}")
}
