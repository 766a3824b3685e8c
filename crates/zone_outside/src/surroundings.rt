//! What surrounds a program besides its texts: a clock and the environment; the real ones, which tell no content, and ones in memory,
//! which tell all.
ghost use Rattle.std.specs.Prelude.{◌≡◌, ◌<◌, ◌≤◌, ℕ, List, Option, None, Some, IfOk, IfSome, IfNone, IsErrOf, OnOk, OnErr, is_err, true, option_map, string_bytes};
ghost use Rattle.zone_outside.specs.{Memory.{counted, fails_next, faulted, fresh_calls}, Outside.{HasCause, Rose, raised}, Surroundings.{clock_end, value_of}};

use crate::memory::Calls;
use crate::outside::{Failed, ReadEnd};
use std::alloc::Global;
use std::env;
use std::env::VarError;
use std::marker::Model;
use std::rt::{Clock, Env};
use std::time::SystemTime;

/// A clock of the civil time.
pub trait WallClock {
    /// The nanoseconds from 1970-01-01 00:00:00 UTC on, where the clock tells them.
    ghost told: { Self → Option ℕ };

    /// How often it has failed, up to the last value of the count.
    ghost faults: { Self → ℕ };

    /// The nanoseconds from 1970-01-01 00:00:00 UTC to now; none before it are told.
    ///
    /// # Errors
    ///
    /// `Failed` where the call is refused.
    fn now(&mut self) -> Result<u128, Failed>
        ensures time { IfOk result (λ time. IfSome (told self.old) (λ told. time ≡ told)) }
        ensures range { IfOk result (λ time. time < clock_end) }
        ensures same { told self.new ≡ told self.old }
        ensures cause { HasCause (faults self.old) (faults self.new) result };
}

/// The clock of the system.
#[derive(Drop)]
pub struct SystemClock<R: Clock + Drop> {
    rt: R,
    faults: u64,
}

impl<R: Clock + Drop> Model for SystemClock<R> {
    ghost use Rattle.zone_outside.specs.Surroundings.{FaultState};

    ghost Value = { FaultState };

    ghost view = { λ s. record { faults = s.faults } };
}

impl<R: Clock + Drop> SystemClock<R> {
    /// The clock of the runtime. Its count of faults is 0.
    pub fn new(rt: R) -> SystemClock<R>
        ensures { result ≡ record { faults = 0 } }
    {
        SystemClock { rt, faults: 0 }
    }
}

impl<R: Clock + Drop> WallClock for SystemClock<R> {
    ghost told = { λ _. None };

    ghost faults = { λ s. s.faults };

    fn now(&mut self) -> Result<u128, Failed> {
        let Some(time) = system_time(&self.rt) else {
            self.faults = self.faults.saturating_add(1);
            return Err(Failed);
        };
        Ok(time)
    }
}

/// The nanoseconds that the runtime's clock tells.
fn system_time<R: Clock>(rt: &R) -> Option<u128>
    ensures { IfSome result (λ time. time < clock_end) }
{
    let now = SystemTime::now(rt).ok()?;
    let time = now.duration_since(SystemTime::UNIX_EPOCH).ok()?;
    Some(time.as_nanos())
}

/// A clock in memory, which always tells the same time.
#[derive(Drop)]
pub struct MemClock {
    time: u128,
    calls: Calls,
}

impl Model for MemClock {
    ghost use Rattle.std.specs.Prelude.{◌<◌};
    ghost use Rattle.zone_outside.specs.Surroundings.{ClockState, clock_end};

    ghost Value = { ClockState };

    ghost view = { λ s. record { time = s.time; calls = s.calls } };

    ghost invariant = { λ s. s.time < clock_end };
}

impl MemClock {
    /// A clock that tells this time, in nanoseconds from 1970-01-01 00:00:00 UTC, fewer than those of 2^63 seconds, and fails the calls whose
    /// numbers, from 1 on, are listed.
    pub fn new(time: u128, fails: Vec<u64>) -> MemClock
        requires { time < clock_end }
        ensures { result ≡ record { time = time; calls = fresh_calls fails.items } }
    {
        MemClock {
            time,
            calls: Calls::new(fails),
        }
    }
}

impl WallClock for MemClock {
    ghost told = { λ s. Some s.time };

    ghost faults = { λ s. s.calls.faults };

    fn now(&mut self) -> Result<u128, Failed>
        ensures time { IfOk result (λ time. IfSome (Some self.old.time) (λ told. time ≡ told)) }
        ensures range { IfOk result (λ time. time < clock_end) }
        ensures same { Some self.new.time ≡ Some self.old.time }
        ensures cause { HasCause self.old.calls.faults self.new.calls.faults result }

        ensures fails { is_err result ≡ fails_next self.old.calls }
        ensures ok { OnOk result (self.new ≡ record self.old { calls = counted self.old.calls }) }
        ensures err { OnErr result (self.new ≡ record self.old { calls = faulted (counted self.old.calls) }) }
    {
        if self.calls.begin().is_err() {
            return Err(Failed);
        }
        Ok(self.time)
    }
}

/// Variables by their names.
pub trait Environment {
    /// The value of a name, where the environment tells which there are.
    ghost told: { Self → Option (List ℕ → Option (List ℕ)) };

    /// How often it has failed, up to the last value of the count.
    ghost faults: { Self → ℕ };

    /// The value of the variable of that name, or none where there is none.
    ///
    /// # Errors
    ///
    /// `Failed` where the call is refused, as at a value that is no UTF-8, and `NoMemory`; never `TooLong`.
    fn variable(&mut self, alloc: Global, name: &str) -> Result<Option<String>, ReadEnd>
        ensures value { IfOk result (λ value. IfSome (told self.old) (λ told. option_map string_bytes value ≡ told name.now)) }
        ensures same { told self.new ≡ told self.old }
        ensures later { faults self.old ≤ faults self.new }
        ensures failed { IsErrOf result ReadEnd.Failed → Rose (faults self.old) (faults self.new) }
        ensures not_long { ¬ (IsErrOf result ReadEnd.TooLong) };
}

/// The environment of the program.
#[derive(Drop)]
pub struct ProgramEnvironment<R: Env + AllocGlobal + Drop> {
    rt: R,
    faults: u64,
}

impl<R: Env + AllocGlobal + Drop> Model for ProgramEnvironment<R> {
    ghost use Rattle.zone_outside.specs.Surroundings.{FaultState};

    ghost Value = { FaultState };

    ghost view = { λ s. record { faults = s.faults } };
}

impl<R: Env + AllocGlobal + Drop> ProgramEnvironment<R> {
    /// The environment of the runtime. Its count of faults is 0.
    pub fn new(rt: R) -> ProgramEnvironment<R>
        ensures { result ≡ record { faults = 0 } }
    {
        ProgramEnvironment { rt, faults: 0 }
    }
}

impl<R: Env + AllocGlobal + Drop> Environment for ProgramEnvironment<R> {
    ghost told = { λ _. None };

    ghost faults = { λ s. s.faults };

    fn variable(&mut self, _alloc: Global, name: &str) -> Result<Option<String>, ReadEnd> {
        match env::var(&self.rt, name) {
            Ok(value) => Ok(Some(value)),
            Err(VarError::NotPresent) => Ok(None),
            Err(VarError::NotUnicode) => {
                self.faults = self.faults.saturating_add(1);
                Err(ReadEnd::Failed)
            }
            Err(VarError::OutOfMemory) => Err(ReadEnd::NoMemory),
        }
    }
}

/// An environment in memory.
#[derive(Drop)]
pub struct MemEnvironment {
    values: Vec<(String, String)>,
    calls: Calls,
}

impl Model for MemEnvironment {
    ghost use Rattle.zone_outside.specs.Surroundings.{EnvironmentState};

    ghost Value = { EnvironmentState };

    ghost view = { λ s. record { values = s.values.items; calls = s.calls } };
}

impl MemEnvironment {
    /// An environment of these names and values, of which the first of a name counts; the calls whose numbers, from 1 on, are listed fail.
    pub fn new(values: Vec<(String, String)>, fails: Vec<u64>) -> MemEnvironment
        ensures { result ≡ record { values = values.items; calls = fresh_calls fails.items } }
    {
        MemEnvironment {
            values,
            calls: Calls::new(fails),
        }
    }
}

impl Environment for MemEnvironment {
    ghost told = { λ s. Some (value_of s.values) };

    ghost faults = { λ s. s.calls.faults };

    fn variable(&mut self, alloc: Global, name: &str) -> Result<Option<String>, ReadEnd>
        ensures value { IfOk result (λ value. option_map string_bytes value ≡ value_of self.old.values name.now) }
        ensures same { Some (value_of self.new.values) ≡ Some (value_of self.old.values) }
        ensures later { self.old.calls.faults ≤ self.new.calls.faults }
        ensures failed { IsErrOf result ReadEnd.Failed → Rose self.old.calls.faults self.new.calls.faults }
        ensures not_long { ¬ (IsErrOf result ReadEnd.TooLong) }

        ensures fails { IsErrOf result ReadEnd.Failed → fails_next self.old.calls ≡ true }
        ensures listed { fails_next self.old.calls ≡ true → IsErrOf result ReadEnd.Failed }
        ensures ok { OnOk result (self.new ≡ record self.old { calls = counted self.old.calls }) }
        ensures refused { IsErrOf result ReadEnd.Failed → self.new ≡ record self.old { calls = faulted (counted self.old.calls) } }
    {
        self.calls.begin()?;
        match value_of(&self.values, name) {
            Some(value) => Ok(Some(String::from_str(alloc, value)?)),
            None => Ok(None),
        }
    }
}

/// The value of the first variable of that name.
fn value_of<'v>(values: &'v [(String, String)], name: &str) -> Option<&'v str>
    ensures { option_map (λ value. value.now) result ≡ value_of values.now name.now }
{
    let value = values.iter().find(|value| value.0.as_str() == name)?;
    Some(value.1.as_str())
}
