//! Compiled zones as they are looked up.
ghost use Rattle.std.specs.Prelude.{◌≡◌, ◌<◌, length};
ghost use Rattle.zone_tzif_core.specs.{Shown.{record_shown}, Stored.{stored_kind, AreNumbered, AreStored, IsStored}};

use crate::file_reader::zone_file;
use crate::kinds::Record;
use crate::stored::Stored;
use std::alloc::{AllocError, Global};

/// A compiled zone as a file says it: each kind once, and for each change its time and the number of its kind. It takes
/// memory in proportion to the file.
#[derive(Debug, Drop)]
pub struct ZoneFile {
    pub(crate) names: Vec<u8>,
    pub(crate) kinds: Vec<Stored>,
    pub(crate) changes: Vec<(i64, u8)>,
    pub(crate) footer: String,
    ghost stored: { AreStored names.items kinds.items },
    ghost some: { 0 < length kinds.items },
    ghost numbered: { AreNumbered (length kinds.items) changes.items },
}

impl ZoneFile {
    ghost use Rattle.std.specs.Prelude.{[], pos, slice_index_or, IfOk};
    ghost use Rattle.zone_tzif_core.specs.ZoneFiles.{changes_with, kind_numbered, kinds_kept, unnumbered, zone_seen};

    /// A zone of one kind at all times but for what its footer says.
    ///
    /// # Errors
    ///
    /// Want of memory alone.
    pub fn steady(alloc: Global, kind: &Record<'_>, footer: &str) -> Result<ZoneFile, AllocError>
        ensures { IfOk result (λ file. zone_seen file ≡ record { first = record_shown kind.now; rest = []; footer = footer.now }) }
    {
        let stored = Stored {
            utoff: kind.utoff,
            is_dst: kind.is_dst,
            from: 0,
            length: kind.name.len(),
        };
        let kinds = Vec::from_slice(alloc, &[stored])?;
        zone_file(alloc, kind.name.as_bytes(), kinds, Vec::new(alloc), footer)
    }

    /// The times in seconds from 1970-01-01 00:00:00 UTC, with the numbers of their kinds.
    pub fn changes(&self) -> &[(i64, u8)]
        ensures { changes_with (kinds_kept self.now) result.now ≡ (zone_seen self.now).rest }
    {
        self.changes.as_slice()
    }

    /// How many changes there are.
    pub fn change_count(&self) -> usize
        ensures count { result ≡ length (zone_seen self.now).rest }
        ensures bound { result < 18446744073709551615 }
    {
        self.changes.as_slice().len()
    }

    /// The kind before the first change.
    pub fn first(&self) -> Record<'_>
        ensures { record_shown result ≡ (zone_seen self.now).first }
    {
        self.kind(0)
    }

    /// The kind from a change on, by the change's place, which counts from 0 and lies within.
    pub fn kind_at(&self, place: usize) -> Record<'_>
        requires { place < length (zone_seen self.now).rest }
        ensures { record_shown result ≡ (slice_index_or (zone_seen self.now).rest place (pos 0, unnumbered)).1 }
    {
        self.kind(self.changes[place].1)
    }

    /// The POSIX TZ string for instants after the last time, or nothing.
    pub fn footer(&self) -> &str
        ensures { result.now ≡ (zone_seen self.now).footer }
    {
        self.footer.as_str()
    }

    /// The kind with a number.
    pub(crate) fn kind(&self, number: u8) -> Record<'_>
        requires { number < length self.now.kinds.items }
        ensures { record_shown result ≡ kind_numbered (kinds_kept self.now) number }
    {
        named(&self.names, &self.kinds[number as usize])
    }
}

/// The kind with its name among the names.
fn named<'a>(names: &'a [u8], kind: &Stored) -> Record<'a>
    requires { IsStored names.now kind.now }
    ensures { record_shown result ≡ stored_kind names.now kind.now }
{
    let from = kind.from as usize;
    let name = &names[from..from + kind.length];
    Record {
        utoff: kind.utoff,
        is_dst: kind.is_dst,
        name: unsafe { std::str::from_utf8_unchecked(name) },
    }
}
