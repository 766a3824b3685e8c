//! The fields of a row of a table.

use std::process::Abort;
use std::str::Split;
use tz_lookup::Offset;

/// The next field of a row.
pub(crate) fn field<'x>(rt: &impl Abort, fields: &mut Split<'x, char>) -> &'x str {
    fields.next().expect(rt, "a field is missing")
}

/// The next field of a row, a number.
pub(crate) fn number(rt: &impl Abort, fields: &mut Split<'_, char>) -> i64 {
    field(rt, fields)
        .parse::<i64>()
        .ok()
        .expect(rt, "no number")
}

/// What is in force at a second: the seconds from 1970-01-01 00:00:00 UTC, and then the offset in seconds, whether it is daylight saving
/// time, and the abbreviation.
#[derive(Drop)]
pub(crate) struct Due<'x> {
    pub(crate) second: i64,
    offset: i64,
    is_saving: bool,
    name: &'x str,
}

impl Due<'_> {
    /// Whether an offset is that.
    pub(crate) fn is<O: Offset>(&self, found: &O) -> bool {
        (i64::from(found.to_utc().whole_seconds()) == self.offset)
            & (found.is_dst() == self.is_saving)
            & (found.name() == self.name)
    }
}

/// What a row of these four fields says, with 1 for daylight saving time and 0 for none.
pub(crate) fn due_of<'x>(rt: &impl Abort, row: &'x str) -> Due<'x> {
    let mut fields = row.split(' ');
    Due {
        second: number(rt, &mut fields),
        offset: number(rt, &mut fields),
        is_saving: field(rt, &mut fields) == "1",
        name: field(rt, &mut fields),
    }
}
