//! Inputs in pieces over exchanges in memory, and what surrounds a program.
ghost use Rattle.std.specs.{Prelude.{◌≡◌, ◌≤◌, ◌==◌, ◌++◌, ◌∷◌, [], ℤ, List, ℕ, Option, Some, length, IfOk, OnOk, is_some}, Option.{unwrap_or}};
ghost use Rattle.civil_base.specs.DateTimes.{instant};

use crate::tests::checks::holds;
use civil_base::OffsetDateTime;
use std::alloc::{AllocError, Global};
use std::process::Abort;
use zone_outside::{
    Environment, Exchange, MemClock, MemEnvironment, MemExchange, ProgramEnvironment, StdExchange,
    SystemClock, WallClock,
};
use zone_words::{InstantTexts, Responder, StreamEnd, run_log, run_stream};

/// Says each request again; an empty one is a fault.
#[derive(Drop)]
struct Echo;

impl Responder for Echo {
    ghost replies = { λ _. record { response = λ request. request ++ 10 ∷ []; is_fault = λ request. length request == 0; to_long = 63 ∷ 10 ∷ [] } };

    fn respond(&mut self, request: &[u8], output: &mut Vec<u8>) -> Result<bool, AllocError> {
        output.extend_from_slice(request)?;
        output.push(b'\n')?;
        Ok(request.is_empty())
    }

    fn refuse_long(&mut self, output: &mut Vec<u8>) -> Result<(), AllocError> {
        output.extend_from_slice(b"?\n")?;
        Ok(())
    }
}

/// Shows a T for each instant.
#[derive(Drop)]
struct Tee;

impl InstantTexts for Tee {
    ghost shown = { λ _ _. Some (84 ∷ []) };

    fn add_text(
        &mut self,
        _time: OffsetDateTime,
        output: &mut Vec<u8>,
    ) -> Result<bool, AllocError> {
        output.push(b'T')?;
        Ok(true)
    }
}

/// Calls that fail.
fn calls(rt: &impl Abort, alloc: Global, failing: &[u64]) -> Vec<u64> {
    failing.to_vec(alloc).expect(rt, "memory")
}

/// An exchange of this input, which reads at most so many bytes and writes at most three, and whose calls of these numbers fail.
fn exchange(
    rt: &impl Abort,
    alloc: Global,
    input: &[u8],
    step: usize,
    reads: &[u64],
    writes: &[u64],
) -> MemExchange {
    let input = input.to_vec(alloc).expect(rt, "memory");
    let (reads, writes) = (calls(rt, alloc, reads), calls(rt, alloc, writes));
    MemExchange::new(alloc, input, step.max(1), 3, 100_000, reads, writes).expect(rt, "memory")
}

/// Whether requests are answered so, and that ends so.
fn is_answered(alloc: Global, mut exchange: MemExchange, wanted: &[u8], end: StreamEnd) -> bool {
    (run_stream(alloc, Echo, &mut exchange) == end) & (exchange.written() == wanted)
}

/// Asserts the same of an input that comes in pieces of each small size.
fn streamed(rt: &impl Abort, alloc: Global, input: &[u8], wanted: &[u8], end: StreamEnd) {
    for step in 1..6 {
        let exchange = exchange(rt, alloc, input, step, &[], &[]);
        holds(rt, "stream", is_answered(alloc, exchange, wanted, end));
    }
}

/// So many bytes, and others behind them.
fn long(rt: &impl Abort, alloc: Global, byte: u8, count: usize, end: &[u8]) -> Vec<u8> {
    let mut text = vec![in alloc; byte; count].expect(rt, "memory");
    text.extend_from_slice(end).expect(rt, "memory");
    text
}

fn expect_streams(rt: &impl Abort, alloc: Global) {
    streamed(rt, alloc, b"", b"", StreamEnd::Done);
    streamed(rt, alloc, b"a\nbc\r\nd", b"a\nbc\nd\n", StreamEnd::Done);
    streamed(rt, alloc, b"a\n\nd\n", b"a\n\nd\n", StreamEnd::Fault);
    let long = long(rt, alloc, b'x', 4097, b"\nb\n");
    streamed(rt, alloc, &long, b"?\nb\n", StreamEnd::Fault);
}

/// Asserts that a refused call ends it.
fn expect_refusals(rt: &impl Abort, alloc: Global) {
    let refused = exchange(rt, alloc, b"ab\ncd\n", 3, &[2], &[]);
    let is_told = is_answered(alloc, refused, b"ab\n", StreamEnd::Read);
    holds(rt, "a refused read", is_told);
    let closed = exchange(rt, alloc, b"abcd\ncd\n", 5, &[], &[2]);
    let is_told = is_answered(alloc, closed, b"abc", StreamEnd::Write);
    holds(rt, "a refused write", is_told);
}

#[test]
fn requests_are_answered(rt: HostRuntime) {
    expect_streams(&rt, rt.alloc());
    expect_refusals(&rt, rt.alloc());
}

/// Whether a log becomes so with a T for the time in a field of each line.
fn is_rewritten(alloc: Global, mut exchange: MemExchange, field: usize, wanted: &[u8]) -> bool {
    let end = run_log(alloc, Tee, field.min(4096), &mut exchange);
    (end == StreamEnd::Done) & (exchange.written() == wanted)
}

/// Asserts the same of a log that comes in pieces of each small size.
fn logged(rt: &impl Abort, alloc: Global, field: usize, input: &[u8], wanted: &[u8]) {
    for step in 1..6 {
        let exchange = exchange(rt, alloc, input, step, &[], &[]);
        holds(rt, "log", is_rewritten(alloc, exchange, field, wanted));
    }
}

fn expect_logs(rt: &impl Abort, alloc: Global) {
    let log = b"@5 a\r\n @5\n1729989000 y\n2024-10-27T02:30:00Z [2]\nnone";
    logged(rt, alloc, 0, log, b"T a\r\n @5\nT y\nT [2]\nnone");
    logged(rt, alloc, 1, log, b"T a\r\n T\nT y\nT [2]\nnone");
    logged(rt, alloc, 2, b"x\t@5,z\n@5 y", b"x\tT,z\n@5 y");
    let long = long(rt, alloc, b' ', 5000, b"@5\n");
    logged(rt, alloc, 1, &long, &long);
}

#[test]
fn logs_are_rewritten(rt: HostRuntime) {
    expect_logs(&rt, rt.alloc());
}

/// Of a clock that tells 5 once, and fails at the second call.
fn tells_once(mut clock: MemClock) -> bool {
    (clock.now().ok() == Some(5)) & clock.now().is_err()
}

/// An environment where `A` is `b`.
fn environment(rt: &impl Abort, alloc: Global) -> MemEnvironment {
    let name = String::from_str(alloc, "A").expect(rt, "memory");
    let value = String::from_str(alloc, "b").expect(rt, "memory");
    let values = vec![in alloc; (name, value)].expect(rt, "memory");
    MemEnvironment::new(values, Vec::new(alloc))
}

/// Whether an environment has a name.
fn has<E: Environment>(rt: &impl Abort, alloc: Global, environment: &mut E, name: &str) -> bool {
    let found = environment
        .variable(alloc, name)
        .expect(rt, "a call that fails");
    found.is_some()
}

/// Of an environment that has `A` alone.
fn has_a(rt: &impl Abort, alloc: Global, environment: &mut MemEnvironment) -> bool {
    has(rt, alloc, environment, "A") & !has(rt, alloc, environment, "B")
}

#[test]
fn surroundings_in_memory(rt: HostRuntime) {
    let clock = MemClock::new(5, calls(&rt, rt.alloc(), &[2]));
    holds(&rt, "clock", tells_once(clock));
    let mut environment = environment(&rt, rt.alloc());
    holds(&rt, "environment", has_a(&rt, rt.alloc(), &mut environment));
}

#[test]
fn real_surroundings(rt: HostRuntime) {
    holds(&rt, "clock", SystemClock::new(rt).now().is_ok());
    let mut real = ProgramEnvironment::new(rt);
    let is_there = has(&rt, rt.alloc(), &mut real, "NO_SUCH_NAME");
    holds(&rt, "environment", !is_there);
    let count = StdExchange::new(b"ab".as_slice(), rt).read(&mut [0; 4]);
    holds(&rt, "streams", count.ok() == Some(2));
}
