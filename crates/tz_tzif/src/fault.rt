//! Why a compiled zone can't be looked up.
ghost use Rattle.std.specs.Prelude.{◌≡◌};
ghost use Rattle.tz_tzif.specs.declared.fault.TzifFault.TheVariants.{NoMemory};

use std::alloc::AllocError;
use thiserror::Error;

/// Why a compiled zone can't be looked up: the first cause that holds.
#[derive(Clone, Copy, Debug, PartialEq, Eq, Error)]
pub enum TzifFault {
    /// The times don't strictly rise.
    #[error("the changes of the compiled zone don't rise")]
    Times,
    /// An offset is past 93,599 seconds in size.
    #[error("an offset of the zone is 26 hours or more in size")]
    Offset,
    /// There is a footer, and it is not standard time alone, or with daylight saving time and its rule, each part in its
    /// range.
    #[error("the footer of the compiled zone is no POSIX TZ string that is read")]
    Footer,
    /// There was no memory for the zone's offsets.
    #[error("out of memory")]
    NoMemory,
}

impl From<AllocError> for TzifFault {
    ghost from_gives = { λ _ fault. fault ≡ NoMemory };

    fn from(_error: AllocError) -> TzifFault {
        TzifFault::NoMemory
    }
}
