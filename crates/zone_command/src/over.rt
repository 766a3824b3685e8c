//! What answers over sources of a kind: at once, or what comes in.
ghost use Rattle.std.specs.Prelude.{◌≡◌, ◌≤◌, ℕ, List, IfErr, IfOk, length};
ghost use Rattle.zone_words.specs.{Filters.{replied}, Replies.{Replies}, Runs.{Ends}, TaskShown.{task_shown}, Tasks.{log}};
ghost use Rattle.zone_command.specs.{Refusals.{IsTold}, Makes.{IsServedBy, chosen, is_plain, made_of}};

use crate::answerer::{AnswerFault, Answerer};
use crate::answering::answer_over;
use crate::line::{named_line, told_line};
use crate::named::find_named;
use crate::serving::{serve_log, serve_stream};
use crate::source::{Refusal, ZoneSource};
use civil_base::OffsetDateTime;
use std::alloc::Global;
use std::marker::PhantomData;
use zone_outside::Exchange;
use zone_words::{AnswerForm, Asked, StreamEnd, Task};

/// What is told of a command without an input.
const NO_INPUT: &[u8] = b"this command answers no input";

/// A source that answers requests of the program `zone_answers`.
pub trait PlainSource: Drop {
    /// The source is what a text is read as for such requests.
    ghost plainly: { List ℕ → Self → Type 0 };

    /// Why a text is no source for them.
    ghost unplainly: { List ℕ → List ℕ → Type 0 };

    /// The response to each.
    ghost plain: { Self → Replies };

    /// Reads a source for such requests, of at most 16,777,216 bytes.
    ///
    /// # Errors
    ///
    /// Why the text is none, or want of memory.
    fn open_plainly(alloc: Global, text: &[u8]) -> Result<Self, Refusal>
        requires { length text.now ≤ 16777216 }
        ensures ok { IfOk result (plainly text.now) }
        ensures err { IfErr result (IsTold (unplainly text.now)) };

    /// Answers such requests as they come in.
    fn serve_plain<X: Exchange>(&self, alloc: Global, exchange: &mut X) -> StreamEnd
        ensures { Ends (replied (plain self.now)) (X.seen exchange.old) (X.seen exchange.new) result };
}

/// Rewrites a log that comes in.
fn log_served<S: ZoneSource + PlainSource, X: Exchange>(
    alloc: Global,
    source: &S,
    form: AnswerForm,
    name: &str,
    field: Option<u16>,
    exchange: &mut X,
) -> Result<StreamEnd, Refusal>
    ensures { IsServedBy (made_of (S.found source.now) (S.plain source.now) form (log name.now field)) (X.seen exchange.old) (X.seen exchange.new) result }
{
    match find_named(alloc, source, name) {
        Ok(zone) => Ok(serve_log(alloc, &zone, form, field, exchange)),
        Err(refusal) => Err(refusal),
    }
}

/// Answers what comes in, as a task asks.
fn served<S: ZoneSource + PlainSource, X: Exchange>(
    alloc: Global,
    source: &S,
    form: AnswerForm,
    task: &Task<'_>,
    exchange: &mut X,
) -> Result<StreamEnd, Refusal>
    ensures { IsServedBy (made_of (S.found source.now) (S.plain source.now) form (task_shown task.now)) (X.seen exchange.old) (X.seen exchange.new) result }
{
    match task {
        Task::Stream(false) => Ok(serve_stream(alloc, source, form, exchange)),
        Task::Stream(true) => Ok(source.serve_plain(alloc, exchange)),
        Task::Log(name, field) => log_served(alloc, source, form, *name, *field, exchange),
        _ => Err(Refusal::Why(NO_INPUT.to_vec(alloc)?)),
    }
}

/// Whether requests of the program `zone_answers` come in.
fn is_plain(task: &Task<'_>) -> bool
    ensures { result ≡ is_plain (task_shown task.now) }
{
    matches!(task, Task::Stream(true))
}

/// The source that a text is read as for a task.
fn opened<S: ZoneSource + PlainSource>(
    alloc: Global,
    task: &Task<'_>,
    text: &[u8],
) -> Result<S, Refusal>
    requires { length text.now ≤ 16777216 }
    ensures ok { IfOk result (chosen (is_plain (task_shown task.now)) S.plainly S.reads text.now) }
    ensures err { IfErr result (IsTold (chosen (is_plain (task_shown task.now)) S.unplainly S.unread text.now)) }
{
    if is_plain(task) {
        S::open_plainly(alloc, text)
    } else {
        S::open(alloc, text)
    }
}

/// What answers over sources of a kind: each command at once, `stream` and `log` as their input comes.
pub struct OverSource<S> {
    source: PhantomData<S>,
}

impl<S: ZoneSource + PlainSource> Answerer for OverSource<S> {
    ghost use Rattle.zone_command.specs.{Replies.{IsDueOver}, Makes.{IsMadeOver}};

    ghost due = { IsDueOver S.reads S.unread S.found S.entries S.files S.strings S.trees S.forms };

    ghost makes = { IsMadeOver S.plainly S.reads S.unplainly S.unread S.found S.plain };

    fn answer(
        alloc: Global,
        asked: &Asked<'_>,
        now: &OffsetDateTime,
        file: &str,
        text: &[u8],
    ) -> Result<Vec<u8>, AnswerFault> {
        answer_over::<S>(alloc, asked, now, file, text)
    }

    fn serve<X: Exchange>(
        alloc: Global,
        asked: &Asked<'_>,
        file: &str,
        text: &[u8],
        exchange: &mut X,
    ) -> Result<StreamEnd, AnswerFault> {
        match opened::<S>(alloc, &asked.task, text) {
            Ok(source) => match served(alloc, &source, asked.form, &asked.task, exchange) {
                Ok(end) => Ok(end),
                Err(Refusal::Why(words)) => Err(AnswerFault::Line(told_line(alloc, &words)?)),
                Err(Refusal::NoMemory) => Err(AnswerFault::NoMemory),
            },
            Err(Refusal::Why(why)) => Err(AnswerFault::Line(named_line(alloc, file, &why)?)),
            Err(Refusal::NoMemory) => Err(AnswerFault::NoMemory),
        }
    }
}
