//! Why there is no reply.
use std::alloc::AllocError;
use thiserror::Error as ThisError;

/// Why there is no reply.
#[derive(Clone, Copy, Debug, PartialEq, Eq, ThisError)]
pub enum ReplyFault {
    /// A date of it lies outside the years -9999 to 9999.
    #[error("a date lies outside the years -9999 to 9999")]
    OutOfYears,
    /// A local time lies past the last year that the zone is told for: its rules don't go on for ever.
    #[error("the zone's rules end before that year")]
    Untold,
    /// Clocks are set ahead over the local time, and the form has a place for instants alone.
    #[error("clocks skip this local time")]
    Skipped,
    /// Memory ran out.
    #[error("out of memory")]
    NoMemory,
}

impl From<AllocError> for ReplyFault {
    ghost use Rattle.std.specs.Prelude.{◌≡◌};
    ghost use Rattle.zone_texts.specs.declared.fault.ReplyFault.TheVariants.{NoMemory};

    ghost from_gives = { λ _ fault. fault ≡ NoMemory };

    fn from(_: AllocError) -> ReplyFault {
        ReplyFault::NoMemory
    }
}
