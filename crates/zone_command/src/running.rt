//! The run of the command.
ghost use Rattle.std.specs.Prelude.{ℕ, List, map, string_bytes};
ghost use Rattle.zone_command.specs.{Ends.{EndsZone}, InSeen.{zone_seen}};
ghost use Rattle.zone_words.specs.Words.{words_in};

use crate::answerer::Answerer;
use crate::deliver::{tell_end, tell_failure, write_out};
use crate::find::{Found, find};
use std::alloc::Global;
use zone_outside::{Environment, Exchange, WallClock};
use zone_source::{Shelf, Sink, Status};

/// Writes what the words ask for, or tells on standard error why there is no answer.
///
/// It works in this order: the words; where they ask for the instant, the clock; where they name no source, the value of
/// SEFUNJARO_TZDATA in the environment; the source's text to its end; the answer; the writing. Where they ask for what comes in to be
/// answered, that is read and answered after the source. How it ended is told by `EndsZone`.
pub fn run_zone<A: Answerer, H: Shelf, K: WallClock, V: Environment, X: Exchange, E: Sink>(
    alloc: Global,
    words: &[String],
    shelf: &mut H,
    clock: &mut K,
    environment: &mut V,
    exchange: &mut X,
    errors: &mut E,
) -> Status
    requires { (name : List ℕ) → H.open_to shelf.old name }
    ensures { EndsZone A.due A.makes (words_in (map string_bytes words.now))
        (zone_seen H.Source K.WallClock V.Environment X.Exchange E.Sink shelf.old clock.old environment.old exchange.old errors.old)
        (zone_seen H.Source K.WallClock V.Environment X.Exchange E.Sink shelf.new clock.new environment.new exchange.new errors.new) result }
{
    match find::<A, H, K, V, X>(alloc, words, shelf, clock, environment, exchange) {
        Ok(Found::Text(bytes)) => write_out(exchange, &bytes),
        Ok(Found::Input(end)) => tell_end(end, errors),
        Err(failure) => tell_failure(alloc, &failure, errors),
    }
}
