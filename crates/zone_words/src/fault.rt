//! Why words ask nothing.

use crate::text_fault::TextFault;
use std::alloc::AllocError;

/// Why words ask nothing. All but `Text`, `Year`, `BeforeFirst` and `NoMemory` are of words in no form; these three are of times that can't
/// be read, or not be taken.
#[derive(Clone, Copy, Debug, PartialEq, Eq)]
pub enum WordCause {
    /// No option has the name.
    UnknownOption,
    /// The option stands last, and wants a word.
    ValueMissing,
    /// The option stands there twice, or beside another of its kind.
    Twice,
    /// No word names a command.
    CommandMissing,
    /// No command has the name.
    UnknownCommand,
    /// The command has no such option.
    OtherOption,
    /// The command wants more words.
    TooFew,
    /// The command wants no more words.
    TooMany,
    /// An alarm wants its first day.
    FirstMissing,
    /// An alarm wants a number of days, or its last.
    EndMissing,
    /// The last day of an alarm comes before its first.
    BeforeFirst,
    /// It is no number from 1 on, or too large.
    Number,
    /// They are no weekdays.
    Weekdays,
    /// It is no rule for gaps.
    GapRule,
    /// It is no rule for folds.
    FoldRule,
    /// It is no year from 0 to 9999.
    Year,
    /// It is no time.
    Text(TextFault),
    /// Memory ran out.
    NoMemory,
}

impl WordCause {
    ghost use Rattle.std.specs.Prelude.{◌≡◌};
    ghost use Rattle.zone_words.specs.Told.{is_of_memory, is_of_time};

    /// Whether a time can't be read or taken, which ends a run by 2; words in no form end it by 1.
    pub fn is_of_time(self) -> bool
        ensures { result ≡ is_of_time self }
    {
        matches!(
            self,
            WordCause::Text(_) | WordCause::Year | WordCause::BeforeFirst
        )
    }

    /// Whether memory ran out, whatever the words are.
    pub fn is_of_memory(self) -> bool
        ensures { result ≡ is_of_memory self }
    {
        matches!(self, WordCause::NoMemory)
    }
}

/// What words spell, or their first fault.
pub(crate) type Reading<'w, T> = Result<T, WordFault<'w>>;

/// The first fault of the words.
#[derive(Clone, Copy, Debug, PartialEq, Eq)]
pub struct WordFault<'w> {
    /// The word at fault: the command's where words are missing behind it, and none where no command is named.
    pub word: &'w str,
    /// The word behind it, where a date and a time of day are at fault as one text.
    pub more: Option<&'w str>,
    /// Why.
    pub cause: WordCause,
}

impl<'w> WordFault<'w> {
    ghost use Rattle.std.specs.Prelude.{◌≡◌, None};
    ghost use Rattle.zone_words.specs.Told.{fault_shown};

    /// A fault of one word.
    pub(crate) fn of(word: &'w str, cause: WordCause) -> WordFault<'w>
        ensures { fault_shown result ≡ record { word = word.now; more = None; cause = cause } }
    {
        WordFault {
            word,
            more: None,
            cause,
        }
    }
}

impl From<AllocError> for WordFault<'_> {
    ghost use Rattle.std.specs.Prelude.{◌≡◌};
    ghost use Rattle.zone_words.specs.declared.fault.WordCause.TheVariants.{NoMemory};

    ghost from_gives = { λ _ fault. fault.cause ≡ NoMemory };

    fn from(_: AllocError) -> Self {
        WordFault::of("", WordCause::NoMemory)
    }
}
