//! What is due of words.
ghost use Rattle.std.specs.Prelude.{◌≡◌, ◌⊎◌, ℕ, List, false, true, pos, map, None, option_map, string_bytes, IfOk, IfSome, IsErrOf, OnErr};
ghost use Rattle.civil_base.specs.{DateTimes.{instant}, Ranges.{is_in_years}};
ghost use Rattle.zone_outside.specs.{Outside.{Rose}, Seen.{shelf_seen}};
ghost use Rattle.zone_command.specs.{Times.{asks_now}, Bare.{text_shown}, Comes.{Comes, ComesBy, ComesTo}, Due.{IsDue}, Ends.{IsAnswer, IsCause, IsFile, IsFound, IsFoundOver, IsOver, IsServing, MayBeRead, file_of, is_served}, FailureShown.{failure_shown}};
ghost use Rattle.zone_command.specs.{Failures.{environment_fails, no_memory}, InSeen.{clock_seen, environment_seen, in_seen}};
ghost use Rattle.zone_words.specs.{TaskShown.{task_shown, words_shown}, Words.{words_in}};

use crate::answerer::{AnswerFault, Answerer};
use crate::failure::Failure;
use crate::help::bare;
use crate::times::asks_now;
use civil_base::OffsetDateTime;
use std::alloc::Global;
use zone_outside::{Environment, Exchange, WallClock};
use zone_source::{Failed, ReadEnd, Shelf, fetch_all};
use zone_words::{Asked, StreamEnd, Task, read_words};

/// The source where nothing names one.
const SYSTEM_SOURCE: &str = "/usr/share/zoneinfo/tzdata.zi";

/// The variable of the environment that names one.
const VARIABLE: &str = "SEFUNJARO_TZDATA";

/// What is found of words.
#[derive(Drop)]
pub enum Found {
    /// An answer.
    Text(Vec<u8>),
    /// How answering what came in ended.
    Input(StreamEnd),
}

/// Whether the task answers what comes in.
fn is_served(task: &Task<'_>) -> bool
    ensures { result ≡ is_served (task_shown task.now) }
{
    matches!(task, Task::Stream(_) | Task::Log(_, _))
}

/// The instant that the clock tells.
fn told_by<K: WallClock>(clock: &mut K) -> Result<OffsetDateTime, Failed>
    ensures told { IfOk result (λ at. IfSome (K.told clock.old) (λ nanos. instant at ≡ pos nanos)) }
    ensures failed { OnErr result (Rose (K.faults clock.old) (K.faults clock.new) ⊎ IfSome (K.told clock.old) (λ nanos. is_in_years (pos nanos) ≡ false)) }
{
    let nanos = clock.now()?;
    match OffsetDateTime::from_unix_timestamp_nanos(nanos as i128) {
        Ok(at) => Ok(at),
        Err(_) => Err(Failed),
    }
}

/// The instant at which words ask; any where they don't.
fn moment<K: WallClock>(task: &Task<'_>, clock: &mut K) -> Result<OffsetDateTime, Failed>
    ensures told { asks_now (task_shown task.now) ≡ true → IfOk result (λ at. IfSome (K.told clock.old) (λ nanos. instant at ≡ pos nanos)) }
    ensures unasked { asks_now (task_shown task.now) ≡ false → clock_seen K.WallClock clock.new ≡ clock_seen K.WallClock clock.old }
    ensures asked { OnErr result (asks_now (task_shown task.now) ≡ true) }
    ensures failed { OnErr result (Rose (K.faults clock.old) (K.faults clock.new) ⊎ IfSome (K.told clock.old) (λ nanos. is_in_years (pos nanos) ≡ false)) }
{
    if asks_now(task) {
        told_by(clock)
    } else {
        Ok(OffsetDateTime::UNIX_EPOCH)
    }
}

/// The value of a variable, if it has bytes, else the system's file.
fn file_of(value: &Option<String>) -> &str
    ensures { result.now ≡ file_of (option_map string_bytes value.now) }
{
    match value {
        Some(file) => if file.is_empty() {
            SYSTEM_SOURCE
        } else {
            file.as_str()
        },
        None => SYSTEM_SOURCE,
    }
}

/// What is due over the named file.
fn answer_over<'w, A: Answerer, H: Shelf>(
    alloc: Global,
    asked: &Asked<'w>,
    now: &OffsetDateTime,
    file: &str,
    shelf: &mut H,
) -> Result<Vec<u8>, Failure<'w>>
    requires { H.open_to shelf.old file.now }
    ensures due { ComesTo (IsAnswer A.due (words_shown asked.now) (instant now.now) file.now (shelf_seen H.Source shelf.old) (shelf_seen H.Source shelf.new)) result }
    ensures read { MayBeRead (shelf_seen H.Source shelf.old) (shelf_seen H.Source shelf.new) }
{
    match fetch_all(alloc, shelf, file) {
        Ok(text) => match A::answer(alloc, asked, now, file, &text) {
            Ok(bytes) => Ok(bytes),
            Err(AnswerFault::Line(line)) => Err(Failure::Refuses(line)),
            Err(AnswerFault::NoMemory) => Err(Failure::NoMemory),
        },
        Err(ReadEnd::Failed) => Err(Failure::File(String::from_str(alloc, file)?)),
        Err(ReadEnd::TooLong) => Err(Failure::Long(String::from_str(alloc, file)?)),
        Err(ReadEnd::NoMemory) => Err(Failure::NoMemory),
    }
}

/// Answers what comes in over the named file.
fn serve_over<'w, A: Answerer, H: Shelf, X: Exchange>(
    alloc: Global,
    asked: &Asked<'w>,
    file: &str,
    shelf: &mut H,
    exchange: &mut X,
) -> Result<StreamEnd, Failure<'w>>
    requires { H.open_to shelf.old file.now }
    ensures made { ComesBy (IsServing A.makes (words_shown asked.now) file.now (shelf_seen H.Source shelf.old) (shelf_seen H.Source shelf.new))
        (X.seen exchange.old) (X.seen exchange.new) result }
    ensures read { MayBeRead (shelf_seen H.Source shelf.old) (shelf_seen H.Source shelf.new) }
{
    match fetch_all(alloc, shelf, file) {
        Ok(text) => match A::serve(alloc, asked, file, &text, exchange) {
            Ok(end) => Ok(end),
            Err(AnswerFault::Line(line)) => Err(Failure::Refuses(line)),
            Err(AnswerFault::NoMemory) => Err(Failure::NoMemory),
        },
        Err(ReadEnd::Failed) => Err(Failure::File(String::from_str(alloc, file)?)),
        Err(ReadEnd::TooLong) => Err(Failure::Long(String::from_str(alloc, file)?)),
        Err(ReadEnd::NoMemory) => Err(Failure::NoMemory),
    }
}

/// What is due over the named file, or how answering what came in over it ended.
fn over_file<'w, A: Answerer, H: Shelf, X: Exchange>(
    alloc: Global,
    asked: &Asked<'w>,
    now: &OffsetDateTime,
    file: &str,
    shelf: &mut H,
    exchange: &mut X,
) -> Result<Found, Failure<'w>>
    requires { H.open_to shelf.old file.now }
    ensures over { Comes (IsOver A.due A.makes (words_shown asked.now) (instant now.now) file.now (shelf_seen H.Source shelf.old) (shelf_seen H.Source shelf.new))
        (X.seen exchange.old) (X.seen exchange.new) result }
    ensures read { MayBeRead (shelf_seen H.Source shelf.old) (shelf_seen H.Source shelf.new) }
{
    if is_served(&asked.task) {
        match serve_over::<A, H, X>(alloc, asked, file, shelf, exchange) {
            Ok(end) => Ok(Found::Input(end)),
            Err(failure) => Err(failure),
        }
    } else {
        match answer_over::<A, H>(alloc, asked, now, file, shelf) {
            Ok(bytes) => Ok(Found::Text(bytes)),
            Err(failure) => Err(failure),
        }
    }
}

/// The file of the source.
fn source_file<V: Environment>(
    alloc: Global,
    named: Option<&str>,
    environment: &mut V,
) -> Result<String, ReadEnd>
    ensures ok { IfOk result (λ file. IsFile (option_map text_shown named.entry) (environment_seen V.Environment environment.old)
        (environment_seen V.Environment environment.new) (string_bytes file)) }
    ensures named { IfSome (option_map text_shown named.entry) (λ _. environment_seen V.Environment environment.new ≡ environment_seen V.Environment environment.old) }
    ensures unnamed { IsErrOf result ReadEnd.Failed → option_map text_shown named.entry ≡ None }
    ensures failed { IsErrOf result ReadEnd.Failed → Rose (V.faults environment.old) (V.faults environment.new) }
{
    match named {
        Some(file) => Ok(String::from_str(alloc, file)?),
        None => {
            let value = environment.variable(alloc, VARIABLE)?;
            Ok(String::from_str(alloc, file_of(&value))?)
        }
    }
}

/// What is due over a source.
fn over_source<'w, A: Answerer, H: Shelf, K: WallClock, V: Environment, X: Exchange>(
    alloc: Global,
    asked: &Asked<'w>,
    shelf: &mut H,
    clock: &mut K,
    environment: &mut V,
    exchange: &mut X,
) -> Result<Found, Failure<'w>>
    requires { (name : List ℕ) → H.open_to shelf.old name }
    ensures { Comes (IsFoundOver A.due A.makes (words_shown asked.now)
        (in_seen H.Source K.WallClock V.Environment shelf.old clock.old environment.old)
        (in_seen H.Source K.WallClock V.Environment shelf.new clock.new environment.new)) (X.seen exchange.old) (X.seen exchange.new) result }
{
    let now = match moment(&asked.task, clock) {
        Ok(now) => now,
        Err(_) => return Err(Failure::Clock),
    };
    match source_file(alloc, asked.source, environment) {
        Ok(file) => over_file::<A, H, X>(alloc, asked, &now, file.as_str(), shelf, exchange),
        Err(ReadEnd::Failed) => Err(Failure::Environment),
        Err(ReadEnd::TooLong) => Err(Failure::NoMemory),
        Err(ReadEnd::NoMemory) => Err(Failure::NoMemory),
    }
}

/// What is due of what words ask.
fn find_asked<'w, A: Answerer, H: Shelf, K: WallClock, V: Environment, X: Exchange>(
    alloc: Global,
    asked: &Asked<'w>,
    shelf: &mut H,
    clock: &mut K,
    environment: &mut V,
    exchange: &mut X,
) -> Result<Found, Failure<'w>>
    requires { (name : List ℕ) → H.open_to shelf.old name }
    ensures { Comes (IsFound A.due A.makes (words_shown asked.now)
        (in_seen H.Source K.WallClock V.Environment shelf.old clock.old environment.old)
        (in_seen H.Source K.WallClock V.Environment shelf.new clock.new environment.new)) (X.seen exchange.old) (X.seen exchange.new) result }
{
    match bare(&asked.task) {
        Some(text) => Ok(Found::Text(text.as_bytes().to_vec(alloc)?)),
        None => over_source::<A, H, K, V, X>(alloc, asked, shelf, clock, environment, exchange),
    }
}

/// What is due of words.
pub(crate) fn find<'w, A: Answerer, H: Shelf, K: WallClock, V: Environment, X: Exchange>(
    alloc: Global,
    words: &'w [String],
    shelf: &mut H,
    clock: &mut K,
    environment: &mut V,
    exchange: &mut X,
) -> Result<Found, Failure<'w>>
    requires { (name : List ℕ) → H.open_to shelf.old name }
    ensures { Comes (IsCause A.due A.makes (words_in (map string_bytes words.now))
        (in_seen H.Source K.WallClock V.Environment shelf.old clock.old environment.old)
        (in_seen H.Source K.WallClock V.Environment shelf.new clock.new environment.new)) (X.seen exchange.old) (X.seen exchange.new) result }
{
    match read_words(alloc, words) {
        Ok(asked) => {
            find_asked::<A, H, K, V, X>(alloc, &asked, shelf, clock, environment, exchange)
        }
        Err(fault) => {
            if fault.cause.is_of_memory() {
                Err(Failure::NoMemory)
            } else {
                Err(Failure::BadWords(fault))
            }
        }
    }
}
