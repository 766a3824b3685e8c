//! A zone from the bytes of a source.
ghost use Rattle.std.specs.Prelude.{◌≡◌, ◌≤◌, None, IfErr, IfOk, OnOk, length};
ghost use Rattle.zone_outside.specs.Limit.{text_limit};
ghost use Rattle.zone_source.specs.Faults.{source_fault};
ghost use Rattle.zone_uses.specs.{Causes.{IsOpenCause}, Opened.{IsOpened}};

use sefunjaro::{CompactSet, Error, LineParser, open_source, open_zone};
use std::alloc::Global;

/// The zone of that name in a source, the text of the tz database in its plain form. A parser serves for any number of
/// sources; whoever needs more zones of one source keeps its table.
///
/// # Errors
///
/// Those of [`open_source`], and then those of [`open_zone`].
pub fn zone_of_source(
    alloc: Global,
    parser: &LineParser,
    source: &[u8],
    name: &str,
) -> Result<CompactSet, Error>
    ensures short { OnOk result (length source.now ≤ text_limit) }
    ensures valid { OnOk result (source_fault source.now ≡ None) }
    ensures opened { IfOk result (IsOpened source.now name.now) }
    ensures err { IfErr result (IsOpenCause source.now name.now) }
{
    let table = open_source(alloc, parser, source)?;
    open_zone(alloc, &table, name)
}
