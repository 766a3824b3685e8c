//! A source in any form, asked with one error; and the same for whoever only shows what is refused.
ghost use Rattle.std.specs.Prelude.{IfErr, IfOk, OnErr};
ghost use Rattle.civil_base.specs.DateTimes.{instant};
ghost use Rattle.zone_uses.specs.{Causes.{IsOffsetCause, HasOffsetCause}, Opened.{IsGivenInSource}};

use sefunjaro::{Error, OffsetDateTime, OpenSource};
use std::alloc::Global;

/// The offset of a zone of a source at an instant, in seconds east of UTC. Whoever asks more of one source keeps it, and the zone.
///
/// # Errors
///
/// In this order: `TooLong`, `Line`, `PlainTooLong` and `Plain` of the source; `Zone` where the name finds no zone that can be asked;
/// `NoMemory`, never where `TooLong` is due.
pub fn offset_in_source(
    alloc: Global,
    text: &[u8],
    name: &str,
    at: &OffsetDateTime,
) -> Result<i32, Error>
    ensures given { IfOk result (IsGivenInSource text.now name.now (instant at.now)) }
    ensures err { IfErr result (IsOffsetCause text.now name.now) }
{
    let source = OpenSource::open(alloc, text)?;
    let zone = source.zone(alloc, name)?;
    Ok(zone.offset_at(at))
}

/// As [`offset_in_source`], but what is refused goes on as its text, as a program ends with it.
///
/// # Errors
///
/// The text of the [`Error`] of [`offset_in_source`].
pub fn offset_or_text(
    alloc: Global,
    text: &[u8],
    name: &str,
    at: &OffsetDateTime,
) -> anyhow::Result<i32>
    ensures given { IfOk result (IsGivenInSource text.now name.now (instant at.now)) }
    ensures err { OnErr result (HasOffsetCause text.now name.now) }
{
    Ok(offset_in_source(alloc, text, name, at)?)
}
