//! Objects that never fail.
ghost use Rattle.std.specs.Prelude.{◌≡◌, ◌≤◌, ◌<◌, drop, None, Some, Ok, length, min, IfOk, IsOk};
ghost use Rattle.zone_outside.specs.Outside.{Fetches, Gives, HasCause, KeepsNames, Reads, Takes, raised};

use crate::memory::{bytes_from, copy_front};
use crate::outside::{Failed, Shelf, Sink, Source};
use std::marker::Model;

/// Bytes in memory, of which a read gives as many as fit.
#[derive(Drop)]
pub struct SureSource {
    bytes: Vec<u8>,
    at: usize,
    given: u64,
}

impl Model for SureSource {
    ghost use Rattle.std.specs.Prelude.{◌≤◌, drop, vec_len};
    ghost use Rattle.zone_outside.specs.Memory.{SureState};

    ghost Value = { SureState };

    ghost view = { λ s. record { bytes = s.bytes.items; left = drop s.at s.bytes.items; given = s.given } };

    ghost invariant = { λ s. s.at ≤ vec_len s.bytes };
}

impl SureSource {
    /// A source of these bytes.
    pub fn new(bytes: Vec<u8>) -> SureSource
        ensures { result ≡ record { bytes = bytes.items; left = bytes.items; given = 0 } }
    {
        SureSource {
            bytes,
            at: 0,
            given: 0,
        }
    }

    /// Begins again.
    fn rewind(&mut self)
        ensures { self.new ≡ record self.old { left = self.old.bytes } }
    {
        self.at = 0;
    }
}

impl Source for SureSource {
    ghost left = { λ s. Some s.left };

    ghost given = { λ s. s.given };

    ghost faults = { λ _. 0 };

    fn read(&mut self, into: &mut [u8]) -> Result<usize, Failed>
        requires { 0 < length into.old }
        ensures bound { IfOk result (λ n. n ≤ length into.old) }
        ensures bytes { Reads (Some self.old.left) (Some self.new.left) into.new result }
        ensures given { Gives self.old.given self.new.given result }
        ensures names { KeepsNames (λ _. None) (λ _. None) (λ _. Unit {0}) (λ _. Unit {0}) }
        ensures cause { HasCause 0 0 result }

        ensures is_ok { IsOk result }
        ensures count { IfOk result (λ n. n ≡ min (length into.old) (length self.old.left)) }
        ensures ok { IfOk result (λ n. self.new ≡ record self.old { left = drop n self.old.left; given = raised self.old.given n }) }
    {
        let room = into.len();
        let count = copy_front(bytes_from(&self.bytes, self.at), room, into);
        self.at += count;
        self.given = self.given.saturating_add(count as u64);
        Ok(count)
    }
}

/// One text in memory, under every name.
#[derive(Drop)]
pub struct SureShelf {
    text: SureSource,
}

impl Model for SureShelf {
    ghost use Rattle.zone_outside.specs.Memory.{SureState};

    ghost Value = { SureState };

    ghost view = { λ s. s.text };
}

impl SureShelf {
    /// A shelf that gives these bytes for every name.
    pub fn new(bytes: Vec<u8>) -> SureShelf
        ensures { result ≡ record { bytes = bytes.items; left = bytes.items; given = 0 } }
    {
        SureShelf {
            text: SureSource::new(bytes),
        }
    }
}

impl Source for SureShelf {
    ghost left = { λ s. Some s.left };

    ghost given = { λ s. s.given };

    ghost faults = { λ _. 0 };

    ghost told = { λ s _. Some s.bytes };

    fn read(&mut self, into: &mut [u8]) -> Result<usize, Failed>
        requires { 0 < length into.old }
        ensures bound { IfOk result (λ n. n ≤ length into.old) }
        ensures bytes { Reads (Some self.old.left) (Some self.new.left) into.new result }
        ensures given { Gives self.old.given self.new.given result }
        ensures names { KeepsNames (λ _. Some self.old.bytes) (λ _. Some self.new.bytes) (λ _. Unit {0}) (λ _. Unit {0}) }
        ensures cause { HasCause 0 0 result }

        ensures is_ok { IsOk result }
        ensures count { IfOk result (λ n. n ≡ min (length into.old) (length self.old.left)) }
        ensures ok { IfOk result (λ n. self.new ≡ record self.old { left = drop n self.old.left; given = raised self.old.given n }) }
    {
        self.text.read(into)
    }
}

impl Shelf for SureShelf {
    fn fetch(&mut self, _name: &str) -> Result<(), Failed>
        ensures bytes { Fetches (Some self.old.bytes) (Some self.old.left) (Some self.new.left) result }
        ensures given { self.new.given ≡ self.old.given }
        ensures names { KeepsNames (λ _. Some self.old.bytes) (λ _. Some self.new.bytes) (λ _. Unit {0}) (λ _. Unit {0}) }
        ensures cause { HasCause 0 0 result }

        ensures is_ok { IsOk result }
        ensures begun { self.new ≡ record self.old { left = self.old.bytes } }
    {
        self.text.rewind();
        Ok(())
    }
}

/// Takes every piece whole, and tells no content.
#[derive(Drop)]
pub struct SureSink;

impl SureSink {
    /// A sink, which has no state: it tells no content, and its count of faults stays at 0.
    pub fn new() -> SureSink
        ensures faults { ⟦<SureSink as Sink>⟧.faults result ≡ 0 }
        ensures taken { ⟦<SureSink as Sink>⟧.taken result ≡ None }
    {
        SureSink
    }
}

impl Sink for SureSink {
    ghost taken = { λ _. None };

    ghost faults = { λ _. 0 };

    fn write(&mut self, piece: &[u8]) -> Result<usize, Failed>
        requires { 0 < length piece.now }
        ensures some { IfOk result (λ n. 0 < n) }
        ensures bound { IfOk result (λ n. n ≤ length piece.now) }
        ensures bytes { Takes None None piece.now result }
        ensures cause { HasCause 0 0 result }

        ensures whole { result ≡ Ok (length piece.now) }
    {
        Ok(piece.len())
    }
}
