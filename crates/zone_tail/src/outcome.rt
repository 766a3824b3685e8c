//! The answers.

use std::alloc::AllocError;

/// The POSIX TZ string that carries a set on.
#[derive(Debug, Drop)]
pub struct Tail {
    /// The second, from 1970-01-01 00:00:00 UTC on, of the entry from which on the string's offset is the set's, up to the end of
    /// 2099 by the set's clocks of standard time. None where that holds from the beginning of time.
    pub from: Option<i64>,
    /// The string.
    pub text: String,
}

/// Why no string is given. The causes are tried in the order `Shape`, `OffsetRange`, `Name`.
#[derive(Clone, Copy, Debug, PartialEq, Eq)]
pub enum TailFault {
    /// The last year, 2099 by the set's clocks of standard time, has entries, and they are not two of different times, one of which
    /// starts daylight saving time with a saving above 0 and the other ends it, both with the standard offset in force at the
    /// beginning of 2100 UTC, within the year by the clocks of daylight saving time.
    Shape,
    /// An offset that would be written is past 24:59:59.
    OffsetRange,
    /// A name that would be written is empty or has a `<`, a `>`, a line feed or a zero byte.
    Name,
    /// There is no memory for the string.
    NoMemory,
}

impl From<AllocError> for TailFault {
    ghost use Rattle.std.specs.Prelude.{◌≡◌};
    ghost use Rattle.zone_tail.specs.declared.outcome.TailFault.TheVariants.{NoMemory};

    ghost from_gives = { λ _ fault. fault ≡ NoMemory };

    fn from(_: AllocError) -> TailFault {
        TailFault::NoMemory
    }
}
