//! What reads sources.
ghost use Rattle.std.specs.Prelude.{◌≡◌, ℕ, Bool, List, ◌≤◌, length, map, Ok, Err, IfOk, IfErr};
ghost use Rattle.zone_command.specs.{Answers.{Answer, IsAnswer, IsGiven}, Named.{Found}, Refusals.{IsTold}};
ghost use Rattle.zone_texts.specs.SeenNames.{NameSeen, name_seen};

use std::alloc::{AllocError, Global};
use zone_texts::{NameEntry, ReplyZone};

/// Why a source or a zone is refused.
#[derive(Drop)]
pub enum Refusal {
    /// In these words.
    Why(Vec<u8>),
    /// Memory ran out.
    NoMemory,
}

impl From<AllocError> for Refusal {
    ghost use Rattle.std.specs.Prelude.{◌≡◌};
    ghost use Rattle.zone_command.specs.declared.source.Refusal.TheVariants.{NoMemory};

    ghost from_gives = { λ _ refusal. refusal ≡ NoMemory };

    fn from(_: AllocError) -> Refusal {
        Refusal::NoMemory
    }
}

/// A source that was read, and the zones that names find in it.
pub trait ZoneSource: Drop {
    /// Its zones.
    type Zone: ReplyZone + Drop;

    /// The source is what a text is read as.
    ghost reads: { List ℕ → Self → Type 0 };

    /// Why a text is no source.
    ghost unread: { List ℕ → List ℕ → Type 0 };

    /// What is seen of the zone that a name finds, or the words that tell why it finds none.
    ghost found: { Self → List ℕ → Found };

    /// The names that find a zone, in byte order, each with the name that it leads to where it is a link's.
    ghost entries: { Self → List NameSeen };

    /// What is said of the compiled file of the zone that a name finds, or the words that tell why there is none.
    ghost files: { Self → List ℕ → Answer → Type 0 };

    /// The same of a line with the string that carries it on.
    ghost strings: { Self → List ℕ → Answer → Type 0 };

    /// The same of the archive of all compiled files, to the end of 2099 or for ever.
    ghost trees: { Self → Bool → Answer → Type 0 };

    /// The plain form of a text, or the words that tell why it has none.
    ghost forms: { List ℕ → Answer };

    /// Reads a source, of at most 16,777,216 bytes.
    ///
    /// # Errors
    ///
    /// Why the text is none, or want of memory.
    fn open(alloc: Global, text: &[u8]) -> Result<Self, Refusal>
        requires { length text.now ≤ 16777216 }
        ensures ok { IfOk result (λ source. reads text.now source) }
        ensures err { IfErr result (IsTold (unread text.now)) };

    /// The zone that a name finds.
    ///
    /// # Errors
    ///
    /// Why it finds none, or want of memory.
    fn zone(&self, alloc: Global, name: &str) -> Result<Self::Zone, Refusal>
        ensures ok { IfOk result (λ zone. found self.now name.now ≡ Ok (Self.Zone.view zone)) }
        ensures err { IfErr result (IsTold (λ why. found self.now name.now ≡ Err why)) };

    /// The names that find a zone.
    ///
    /// # Errors
    ///
    /// Want of memory alone.
    fn entries(&self, alloc: Global) -> Result<Vec<NameEntry<'_>>, AllocError>
        ensures { IfOk result (λ found. map name_seen found.items ≡ entries self.now) };

    /// The compiled file of the zone that a name finds.
    ///
    /// # Errors
    ///
    /// Why there is none, or want of memory.
    fn file(&self, alloc: Global, name: &str) -> Result<Vec<u8>, Refusal>
        ensures { IsGiven (files self.now name.now) result };

    /// A line with the string that carries the zone on that a name finds.
    ///
    /// # Errors
    ///
    /// Why there is none, or want of memory.
    fn string(&self, alloc: Global, name: &str) -> Result<Vec<u8>, Refusal>
        ensures { IsGiven (strings self.now name.now) result };

    /// The archive of all compiled files: of zones to the end of 2099, or for ever.
    ///
    /// # Errors
    ///
    /// Why there is none, or want of memory.
    fn tree(&self, alloc: Global, to_2099: bool) -> Result<Vec<u8>, Refusal>
        ensures { IsGiven (trees self.now to_2099) result };

    /// The plain form of a text, of at most 16,777,216 bytes.
    ///
    /// # Errors
    ///
    /// Why it has none, or want of memory.
    fn plain_form(alloc: Global, text: &[u8]) -> Result<Vec<u8>, Refusal>
        requires { length text.now ≤ 16777216 }
        ensures { IsAnswer (forms text.now) result };
}
