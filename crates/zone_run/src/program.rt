//! What a program says of a zone.
ghost use Rattle.std.specs.Prelude.{◌≡◌, ℕ, List, Option, map, option_map, string_bytes};
ghost use Rattle.tz_lookup.specs.Sets.{schedule_of, IsAccepted};
ghost use Rattle.zone_run.specs.Asked.{Answers, Asked};

use crate::found::FoundZone;
use std::alloc::{AllocError, Global};

/// Why a program has no answer for a zone.
#[derive(Clone, Copy, Debug, PartialEq, Eq)]
pub enum Refusal {
    /// The zone is refused for this, which the fault line tells after the program's label.
    Cause(&'static str),
    /// Memory ran out.
    NoMemory,
}

impl From<AllocError> for Refusal {
    ghost use Rattle.std.specs.Prelude.{◌≡◌};
    ghost use Rattle.zone_run.specs.declared.program.Refusal.TheVariants.{NoMemory};

    ghost from_gives = { λ _ refusal. refusal ≡ NoMemory };

    fn from(_: AllocError) -> Refusal {
        Refusal::NoMemory
    }
}

/// What is a program's own: a value is what its words ask of a zone.
pub trait ZoneProgram: Drop {
    /// The zones that it asks.
    type Zone: FoundZone;

    /// What stands in front of its causes: `list` of `list: range`.
    ghost label: { List ℕ };

    /// What its words after FILE and NAME ask, where they are in its form.
    ghost form: { List (List ℕ) → Option Asked };

    /// What is asked.
    ghost asked: { Self → Asked };

    /// What stands in front of its causes: `list` of `list: range`.
    fn label() -> &'static str
        ensures { result.now ≡ label };

    /// Reads the words after FILE and NAME, if they are in the program's form.
    fn read(words: &[String]) -> Option<Self>
        ensures { option_map asked result ≡ form (map string_bytes words.now) };

    /// The bytes that are due for the spans of the zone, which can be looked up.
    ///
    /// # Errors
    ///
    /// The program's own cause, exactly where it has one; or want of memory.
    fn answer(&self, alloc: Global, zone: &Self::Zone) -> Result<Vec<u8>, Refusal>
        requires { IsAccepted (schedule_of (Self.Zone.seen zone.now)) }
        ensures { Answers (asked self.now) (Self.Zone.seen zone.now) result };
}
