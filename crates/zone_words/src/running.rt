//! A filter over an exchange: what is due is written before more is read.
ghost use Rattle.std.specs.Prelude.{◌≡◌, ◌<◌, ◌≤◌, ℕ, List, [], ◌++◌, length, IfOk, IfErr};
ghost use Rattle.zone_words.specs.{Filters.{replied}, Fronts.{fronts_rewritten}, Logs.{log_front}, Runs.{Ends, Finishes, Steps, Stops}};

use crate::filter::Filter;
use crate::fronts::LineRewrites;
use crate::logs::{InstantTexts, LogTimes};
use crate::requests::{LineAnswers, Responder, either};
use std::alloc::Global;
use zone_outside::{Exchange, send_all};

/// The most bytes that are asked of a read.
const PIECE: usize = 65_536;

/// How a run ended.
#[derive(Clone, Copy, Debug, PartialEq, Eq)]
pub enum StreamEnd {
    /// All is written, and no fault is in it.
    Done,
    /// All is written, and a fault is in it.
    Fault,
    /// A read was refused.
    Read,
    /// A write was refused.
    Write,
    /// Memory ran out.
    NoMemory,
    /// The input has more than 18,446,744,073,709,551,614 bytes.
    TooLong,
}

/// Reads the input to its end and writes what the filter makes of it. Each time before it reads it writes all that is due of what it
/// has read: where the filter answers lines, the answers to all lines that are whole by then. A refused write ends it at once.
///
/// What each end says is told field by field by `Ends`. It takes memory for one piece of the input and for what is due of that.
pub fn run_filter<F: Filter, E: Exchange>(
    alloc: Global,
    filter: &mut F,
    exchange: &mut E,
) -> StreamEnd
    requires { F.was_fed filter.old [] }
    ensures { Ends (F.made filter.old) (E.seen exchange.old) (E.seen exchange.new) result }
{
    let Ok(mut room) = vec![in alloc; 0u8; PIECE] else {
        return StreamEnd::NoMemory;
    };
    let mut output = Vec::new(alloc);
    run_pieces(filter, exchange, &mut room, &mut output)
}

/// Answers requests a line, as they come: before each read the answers to all lines that are whole by then are written, and at the end
/// the answer to a last line without an LF. A request of more than 4,096 bytes is a fault and passed over, and a fault doesn't end the run.
///
/// What each end says is told field by field by `Ends`.
pub fn run_stream<R: Responder + Drop, E: Exchange>(
    alloc: Global,
    responder: R,
    exchange: &mut E,
) -> StreamEnd
    ensures { Ends (replied (R.replies responder)) (E.seen exchange.old) (E.seen exchange.new) result }
{
    let Ok(mut lines) = LineAnswers::new(alloc, responder) else {
        return StreamEnd::NoMemory;
    };
    run_filter(alloc, &mut lines, exchange)
}

/// Rewrites a log as it comes: each line that begins with a time (field 0), or has one in the field of that number, at most 4,096, with
/// what is shown for it in its place and every other byte as it was, and any other line as it is. Lines may be of any length; a time has
/// to end within the first 4,096 bytes of its line. Of a longer line all that has come is written before more is read.
///
/// What each end says is told field by field by `Ends`.
pub fn run_log<T: InstantTexts + Drop, E: Exchange>(
    alloc: Global,
    texts: T,
    field: usize,
    exchange: &mut E,
) -> StreamEnd
    requires { field ≤ 4096 }
    ensures { Ends (fronts_rewritten (log_front field (T.shown texts))) (E.seen exchange.old) (E.seen exchange.new) result }
{
    let Ok(mut lines) = LineRewrites::new(alloc, LogTimes::new(texts, field)) else {
        return StreamEnd::NoMemory;
    };
    run_filter(alloc, &mut lines, exchange)
}

/// The same with room for a piece, and a buffer for what is due of it.
fn run_pieces<F: Filter, E: Exchange>(
    filter: &mut F,
    exchange: &mut E,
    room: &mut [u8],
    output: &mut Vec<u8>,
) -> StreamEnd
    requires fed { F.was_fed filter.old [] }
    requires some { 0 < length room.old }
    ensures { Ends (F.made filter.old) (E.seen exchange.old) (E.seen exchange.new) result }
{
    let mut fault = false;
    'reads: for read in 0..u64::MAX {
        let count = match exchange.read(room) {
            Ok(count) => count,
            Err(_) => return StreamEnd::Read,
        };
        if count == 0 {
            return finish(filter, exchange, output, fault);
        }
        match step(filter, exchange, &room[..count], output) {
            Ok(faulty) => fault = either(fault, faulty),
            Err(end) => return end,
        }
    }
    StreamEnd::TooLong
}

/// Feeds a piece, and writes what is due now; whether a fault is in that.
fn step<F: Filter, E: Exchange>(
    filter: &mut F,
    exchange: &mut E,
    piece: &[u8],
    output: &mut Vec<u8>,
) -> Result<bool, StreamEnd>
    ensures made { F.made filter.new ≡ F.made filter.old }
    ensures fed { IfOk result (λ fault. (fed : List ℕ) → F.was_fed filter.old fed → F.was_fed filter.new (fed ++ piece.now)) }
    ensures steps { IfOk result (λ fault. (fed : List ℕ) → F.was_fed filter.old fed →
        Steps (F.made filter.old) fed piece.now (E.seen exchange.old) (E.seen exchange.new) fault) }
    ensures stops { IfErr result (λ end. (fed : List ℕ) → F.was_fed filter.old fed →
        Stops (F.made filter.old) fed piece.now (E.seen exchange.old) (E.seen exchange.new) end) }
{
    output.clear();
    let Ok(fault) = filter.feed(piece, output) else {
        return Err(StreamEnd::NoMemory);
    };
    match send_all(exchange, output) {
        Ok(()) => Ok(fault),
        Err(_) => Err(StreamEnd::Write),
    }
}

/// Writes what is due at the end of the input.
fn finish<F: Filter, E: Exchange>(
    filter: &mut F,
    exchange: &mut E,
    output: &mut Vec<u8>,
    fault: bool,
) -> StreamEnd
    ensures { (fed : List ℕ) → F.was_fed filter.old fed → fault ≡ (F.made filter.old).fails fed →
        Finishes (F.made filter.old) fed (E.seen exchange.old) (E.seen exchange.new) result }
{
    output.clear();
    let Ok(faulty) = filter.close(output) else {
        return StreamEnd::NoMemory;
    };
    if send_all(exchange, output).is_err() {
        return StreamEnd::Write;
    }
    if either(fault, faulty) {
        StreamEnd::Fault
    } else {
        StreamEnd::Done
    }
}
