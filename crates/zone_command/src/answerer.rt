//! What answers over the text of a source.
ghost use Rattle.std.specs.Prelude.{◌≤◌, length};
ghost use Rattle.civil_base.specs.DateTimes.{instant};
ghost use Rattle.zone_command.specs.Due.{Answers, IsDue, IsServed, Makings};
ghost use Rattle.zone_words.specs.TaskShown.{words_shown};

use civil_base::OffsetDateTime;
use std::alloc::{AllocError, Global};
use zone_outside::Exchange;
use zone_source::LIMIT;
use zone_words::{Asked, StreamEnd};

/// Why there is no answer.
#[derive(Drop)]
pub enum AnswerFault {
    /// The line that tells it.
    Line(Vec<u8>),
    /// Memory ran out.
    NoMemory,
}

impl From<AllocError> for AnswerFault {
    ghost use Rattle.std.specs.Prelude.{◌≡◌};
    ghost use Rattle.zone_command.specs.declared.answerer.AnswerFault.TheVariants.{NoMemory};

    ghost from_gives = { λ _ fault. fault ≡ NoMemory };

    fn from(_: AllocError) -> AnswerFault {
        AnswerFault::NoMemory
    }
}

/// What answers over the text of a source.
pub trait Answerer {
    /// What is due.
    ghost due: { Answers };

    /// What is made of an input.
    ghost makes: { Makings };

    /// What is due for what words ask, at the instant at which they ask it, over the text of the named file, which has at most
    /// 16,777,216 bytes.
    ///
    /// # Errors
    ///
    /// The line that tells why there is no answer, or want of memory.
    fn answer(
        alloc: Global,
        asked: &Asked<'_>,
        now: &OffsetDateTime,
        file: &str,
        text: &[u8],
    ) -> Result<Vec<u8>, AnswerFault>
        requires { length text.now ≤ LIMIT }
        ensures { IsDue (due (words_shown asked.now) (instant now.now) file.now text.now) result };

    /// Answers what comes in as words ask that `stream` or `log` is in, over the text of the named file, which has at most 16,777,216
    /// bytes: before each read all that is due by then is written.
    ///
    /// # Errors
    ///
    /// The line that tells why nothing can be answered, or want of memory; nothing was read or written then.
    fn serve<X: Exchange>(
        alloc: Global,
        asked: &Asked<'_>,
        file: &str,
        text: &[u8],
        exchange: &mut X,
    ) -> Result<StreamEnd, AnswerFault>
        requires { length text.now ≤ LIMIT }
        ensures { IsServed (makes (words_shown asked.now) file.now text.now) (X.seen exchange.old) (X.seen exchange.new) result };
}
