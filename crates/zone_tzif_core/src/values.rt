//! Compiled zones.
ghost use Rattle.std.specs.Prelude.{◌≡◌};
ghost use Rattle.zone_tzif_core.specs.declared.values.{ReadFault.TheVariants.{NoMemory}, WriteFault.TheVariants.{NoMemory as WriteNoMemory}};

use std::alloc::{AllocError, AllocFailed};

/// What holds in a zone from a time on.
#[derive(Debug, Drop)]
pub struct Kind {
    /// The offset, in seconds east of UTC. A file holds at most 93,599 to either side.
    pub utoff: i32,
    /// Whether this is daylight saving time.
    pub is_dst: bool,
    /// The abbreviation. A file holds none with a zero byte.
    pub name: String,
}

/// A compiled zone, as a file of version 2 of RFC 8536 says it.
#[derive(Debug, Drop)]
pub struct TzifZone {
    /// What holds before the first time.
    pub first: Kind,
    /// Times in seconds from 1970-01-01 00:00:00 UTC, and what holds from each on. In a file they strictly rise.
    pub rest: Vec<(i64, Kind)>,
    /// The POSIX TZ string for instants after the last time, or nothing. A file holds none with an LF or a zero byte.
    pub footer: String,
}

/// The version of a file by RFC 8536. The footer of version 2 has rules with times from 0 to 24 hours, that of version 3 from -167 to
/// 167; nothing else tells them apart.
#[derive(Clone, Copy, Debug, PartialEq, Eq)]
pub enum Version {
    Two,
    Three,
}

impl Version {
    ghost use Rattle.std.specs.Prelude.{◌≡◌};
    ghost use Rattle.zone_tzif_core.specs.Tzif.{version_byte};

    /// The byte that stands for it in a header.
    pub(crate) fn byte(self) -> u8
        ensures { result ≡ version_byte self }
    {
        match self {
            Version::Two => b'2',
            Version::Three => b'3',
        }
    }
}

/// Why bytes give no zone.
#[derive(Clone, Copy, Debug, PartialEq, Eq)]
pub enum ReadFault {
    /// They are no such file.
    Refused,
    /// There was no memory for the zone.
    NoMemory,
}

impl From<AllocError> for ReadFault {
    ghost use Rattle.std.specs.Prelude.{◌≡◌};
    ghost use Rattle.zone_tzif_core.specs.declared.values.ReadFault.TheVariants.{NoMemory};

    ghost from_gives = { λ _ fault. fault ≡ NoMemory };

    fn from(_: AllocError) -> ReadFault {
        ReadFault::NoMemory
    }
}

impl<T: Drop> From<AllocFailed<T>> for ReadFault {
    ghost use Rattle.std.specs.Prelude.{◌≡◌};
    ghost use Rattle.zone_tzif_core.specs.declared.values.ReadFault.TheVariants.{NoMemory};

    ghost from_gives = { λ _ fault. fault ≡ NoMemory };

    fn from(_: AllocFailed<T>) -> ReadFault {
        ReadFault::NoMemory
    }
}

/// Why a zone is not written, the first cause that holds.
#[derive(Clone, Copy, Debug, PartialEq, Eq)]
pub enum WriteFault {
    /// The times don't strictly rise, or are more than 4,294,967,295.
    Times,
    /// There are more than 256 distinct kinds.
    Types,
    /// A name has a zero byte, or the names take more than 256 bytes.
    Names,
    /// An offset is past 93,599 in size.
    Offset,
    /// The footer has an LF or a zero byte.
    Footer,
    /// There was no memory for the file.
    NoMemory,
}

impl From<AllocError> for WriteFault {
    ghost use Rattle.std.specs.Prelude.{◌≡◌};
    ghost use Rattle.zone_tzif_core.specs.declared.values.WriteFault.TheVariants.{NoMemory};

    ghost from_gives = { λ _ fault. fault ≡ NoMemory };

    fn from(_: AllocError) -> WriteFault {
        WriteFault::NoMemory
    }
}
