//! The table of a source.
ghost use Rattle.std.specs.Prelude.{◌≡◌, ◌≤◌, None, length, IfOk, IfErr, OnOk};
ghost use Rattle.zone_table.specs.{BoundedTables.{IsBoundedTable}, Tables.{IsTableOf}};
ghost use Rattle.zone_source.specs.{Faults.{source_fault}, Joining.{Takes, IsRefusal}, Told.{TellsOfSource}, Zones.{values_of}};

use crate::error::SourceError;
use crate::lines::{Lines, text_of};
use std::alloc::Global;
use zone_line::{LineParser, LineReader};
use zone_outside::LIMIT;
use zone_table::{Table, TableBuilder};

/// The table that the lines of a source join to. Lines end at an LF, a CR before it is dropped, and they are numbered from
/// 1. The source is at most 16,777,216 bytes long.
///
/// # Errors
///
/// The first fault of the source, with its line's number, or want of memory.
pub fn read_table(alloc: Global, parser: &LineParser, source: &[u8]) -> Result<Table, SourceError>
    requires { length source.now ≤ LIMIT }
    ensures ok { OnOk result (source_fault source.now ≡ None) }
    ensures table { IfOk result (λ table. IsTableOf table (values_of source.now)) }
    ensures bounded { IfOk result IsBoundedTable }
    ensures err { IfErr result (TellsOfSource (source_fault source.now)) }
{
    let mut reader = parser.reader(alloc)?;
    let mut builder = TableBuilder::new(alloc);
    let mut number = 1;
    for line in Lines::new(source) {
        join_line(alloc, &mut reader, &mut builder, number, line)?;
        number += 1;
    }
    Ok(builder.build())
}

/// Joins the nth source line to the lines before it, or tells why it is refused.
fn join_line(
    alloc: Global,
    reader: &mut LineReader<'_>,
    builder: &mut TableBuilder,
    number: usize,
    line: &[u8],
) -> Result<(), SourceError>
    ensures ok { OnOk result (Takes builder.old builder.new number line.now) }
    ensures err { IfErr result (IsRefusal builder.old number line.now) }
{
    let Some(text) = text_of(line) else {
        return Err(SourceError::NotText(number));
    };
    let read = match reader.parse_str(alloc, text) {
        Ok(read) => read,
        Err(error) => return Err(SourceError::of_line(number, error)),
    };
    match builder.add_line(read) {
        Ok(()) => Ok(()),
        Err(error) => Err(SourceError::of_join(number, &error)),
    }
}
