//! The kinds of a block.
ghost use Rattle.std.specs.Prelude.{◌≡◌, ◌≤◌, length, option_map};
ghost use Rattle.zone_tzif_core.specs.{Zones.{is_small}, Names.{AreNames}, Reading.{kind_in}, Shown.{record_shown, TellsFound}};

use crate::names::name_at;
use crate::numbers::signed_four;
use crate::values::ReadFault;

/// A kind as its record says it. Its name is lent.
#[derive(Clone, Copy, Debug)]
pub struct Record<'a> {
    /// The offset, in seconds east of UTC.
    pub utoff: i32,
    /// Whether this is daylight saving time.
    pub is_dst: bool,
    /// The abbreviation.
    pub name: &'a str,
}

// The seconds of the largest offset in size, 25:59:59. It is `civil_base`'s, with a name of its own here: the readers and
// the writer of RFC 8536 stand on no other crate.
const GREATEST_UTOFF: i32 = 93_599;

/// Whether an offset is at most 93,599 in size.
pub fn is_small(utoff: i32) -> bool
    ensures { result ≡ is_small utoff }
{
    utoff >= -GREATEST_UTOFF && utoff <= GREATEST_UTOFF
}

/// The kind that a record of six bytes is.
#[tactic(auto, unfolding(crate::specs::Reading::kind_in))]
pub(crate) fn read_record<'a>(
    names: &'a [u8],
    table: &[Option<&'a str>],
    bytes: &[u8],
) -> Option<Record<'a>>
    requires six { 6 ≤ length bytes.now }
    requires names { AreNames names.now table.now }
    ensures { option_map record_shown result ≡ kind_in names.now bytes.now }
{
    let utoff = signed_four(bytes);
    if !is_small(utoff) || bytes[4] > 1 {
        return None;
    }
    let name = name_at(names, table, bytes[5])?;
    Some(Record {
        utoff,
        is_dst: bytes[4] == 1,
        name,
    })
}

/// The kind that a record is, or a refusal.
pub(crate) fn kind<'a>(
    names: &'a [u8],
    table: &[Option<&'a str>],
    bytes: &[u8],
) -> Result<Record<'a>, ReadFault>
    requires six { 6 ≤ length bytes.now }
    requires names { AreNames names.now table.now }
    ensures { TellsFound record_shown result (kind_in names.now bytes.now) }
{
    match read_record(names, table, bytes) {
        Some(record) => Ok(record),
        None => Err(ReadFault::Refused),
    }
}
