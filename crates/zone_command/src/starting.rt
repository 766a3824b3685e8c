//! The whole program.
ghost use Rattle.std.specs.Prelude.{◌≡◌, drop, MatchOption};
ghost use Rattle.zone_command.specs.Starts.{HasRun, StartsZone, exit_of};

use crate::answerer::Answerer;
use crate::running::run_zone;
use std::process::{ExitCode, Termination};
use zone_outside::{FileShelf, ProgramEnvironment, StdExchange, StdSink, SystemClock};
use zone_source::{after_name, all_words};

/// The words after the program's own name couldn't be taken.
const NO_WORDS: u8 = 7;

/// How the command ended that was started. Only its start makes one.
#[derive(Drop)]
pub struct ZoneStarted {
    code: ExitCode,
}

impl Termination for ZoneStarted {
    ghost use Rattle.std.specs.{Prelude.{◌≡◌}, Process.{exit_status}};
    ghost use Rattle.zone_command.specs.Starts.{exit_of};

    fn report<R: Eprint>(self, _rt: &R) -> ExitCode
        ensures { exit_status result ≡ exit_of self }
    {
        self.code
    }
}

/// The whole command: `run_zone` over its words, the files, the clock, the environment and the standard streams. The exit status is that
/// of the run; before it comes 7, where the words can't be taken.
pub fn start<A: Answerer>(rt: HostRuntime) -> ZoneStarted
    ensures { StartsZone A.due A.makes result }
{
    let taken = all_words(&rt);
    run_with::<A>(rt, &taken)
}

/// What becomes of all words.
fn run_with<A: Answerer>(rt: HostRuntime, taken: &Option<Vec<String>>) -> ZoneStarted
    ensures { MatchOption taken.now (exit_of result ≡ 7) (λ all. HasRun A.due A.makes (drop 1 all.items) result) }
{
    let Some(all) = taken else {
        return ended_by(NO_WORDS);
    };
    let mut shelf = FileShelf::new(rt);
    let mut clock = SystemClock::new(rt);
    let mut environment = ProgramEnvironment::new(rt);
    let mut exchange = StdExchange::new(rt.reader(), rt);
    let mut errors = StdSink::new(rt.stderr());
    let status = run_zone::<A, _, _, _, _, _>(
        rt.alloc(),
        after_name(all),
        &mut shelf,
        &mut clock,
        &mut environment,
        &mut exchange,
        &mut errors,
    );
    ended_by(status.code())
}

/// A program that ends with this exit status.
fn ended_by(status: u8) -> ZoneStarted
    ensures { exit_of result ≡ status }
{
    ZoneStarted {
        code: ExitCode::from(status),
    }
}
