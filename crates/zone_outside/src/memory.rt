//! A shelf, a source and a sink in memory, which tell everything and whose listed calls fail.
ghost use Rattle.std.specs.Prelude.{◌≡◌, ◌-◌, ◌<◌, ◌≤◌, ◌==◌, ◌||◌, min, nat_eq, [], ◌++◌, Some, None, length, take, drop, position, string_bytes, IfOk, IfSome, MatchOption, OnOk, OnErr, is_err, is_none};
ghost use lib.Pointwise.{pointwise};
ghost use Rattle.zone_outside.specs.{Outside.{Consumes, Fetches, Gives, HasCause, KeepsNames, Reads, Rose, Takes, raised}, Memory.{counted, faulted, fails_next, fresh_calls, files_of, text_chosen, text_of, text_at}};

use crate::outside::{Failed, Shelf, Sink, Source};
use std::alloc::{AllocError, Global};
use std::marker::Model;

/// The calls of an object so far, the numbers of those that fail, counted from 1, and its faults so far.
///
/// A count that has reached 18,446,744,073,709,551,615 stays there.
#[derive(Drop)]
pub(crate) struct Calls {
    made: u64,
    failing: Vec<u64>,
    faults: u64,
}

impl Model for Calls {
    ghost use Rattle.zone_outside.specs.Memory.{CallCounts};

    ghost Value = { CallCounts };

    ghost view = { λ calls. record { made = calls.made; failing = calls.failing.items; faults = calls.faults } };
}

impl Calls {
    pub(crate) fn new(failing: Vec<u64>) -> Calls
        ensures { result ≡ fresh_calls failing.items }
    {
        Calls {
            made: 0,
            failing,
            faults: 0,
        }
    }

    /// Counts a call, which fails exactly where its number is listed.
    pub(crate) fn begin(&mut self) -> Result<(), Failed>
        ensures fails { is_err result ≡ fails_next self.old }
        ensures ok { OnOk result (self.new ≡ counted self.old) }
        ensures err { OnErr result (self.new ≡ faulted (counted self.old)) }
        ensures cause { HasCause self.old.faults self.new.faults result }
    {
        self.made = self.made.saturating_add(1);
        if self.failing.contains(&self.made) {
            self.faults = self.faults.saturating_add(1);
            return Err(Failed);
        }
        Ok(())
    }

    /// Counts a fault of the call that was begun.
    pub(crate) fn fault(&mut self) -> Failed
        ensures after { self.new ≡ faulted self.old }
        ensures later { self.old.faults ≤ self.new.faults }
        ensures rose { Rose self.old.faults self.new.faults }
    {
        self.faults = self.faults.saturating_add(1);
        Failed
    }
}

/// Bytes in memory, of which a read gives at most a step.
#[derive(Drop)]
pub struct MemSource {
    bytes: Vec<u8>,
    at: usize,
    step: usize,
    given: u64,
    calls: Calls,
}

impl Model for MemSource {
    ghost use Rattle.std.specs.Prelude.{◌<◌, ◌≤◌, drop, vec_len};
    ghost use Rattle.zone_outside.specs.Memory.{SourceState, Within};

    ghost Value = { SourceState };

    ghost view = { λ s. record { left = drop s.at s.bytes.items; step = s.step; given = s.given; calls = s.calls } };

    ghost invariant = { λ s. Within s.at (vec_len s.bytes) s.step };
}

impl MemSource {
    /// A source of these bytes, which gives at most `step` of them a read, 1 at least, and fails the reads whose numbers, from 1 on, are
    /// listed.
    pub fn new(bytes: Vec<u8>, step: usize, fails: Vec<u64>) -> MemSource
        requires { 0 < step }
        ensures { result ≡ record { left = bytes.items; step = step; given = 0; calls = fresh_calls fails.items } }
    {
        MemSource {
            bytes,
            at: 0,
            step,
            given: 0,
            calls: Calls::new(fails),
        }
    }
}

impl Source for MemSource {
    ghost left = { λ s. Some s.left };

    ghost given = { λ s. s.given };

    ghost faults = { λ s. s.calls.faults };

    fn read(&mut self, into: &mut [u8]) -> Result<usize, Failed>
        requires { 0 < length into.old }
        ensures bound { IfOk result (λ n. n ≤ length into.old) }
        ensures bytes { Reads (Some self.old.left) (Some self.new.left) into.new result }
        ensures given { Gives self.old.given self.new.given result }
        ensures names { KeepsNames (λ _. None) (λ _. None) (λ _. Unit {0}) (λ _. Unit {0}) }
        ensures cause { HasCause self.old.calls.faults self.new.calls.faults result }

        ensures fails { is_err result ≡ fails_next self.old.calls }
        ensures count { IfOk result (λ n. n ≡ min (min self.old.step (length into.old)) (length self.old.left)) }
        ensures ok { IfOk result (λ n. self.new ≡ record self.old { left = drop n self.old.left; given = raised self.old.given n; calls = counted self.old.calls }) }
        ensures err { OnErr result (self.new ≡ record self.old { calls = faulted (counted self.old.calls) }) }
    {
        if self.calls.begin().is_err() {
            return Err(Failed);
        }
        let count = copy_front(bytes_from(&self.bytes, self.at), self.step, into);
        self.at += count;
        self.given = self.given.saturating_add(count as u64);
        Ok(count)
    }
}

/// Texts by name in memory, of which a read gives at most a step; open to every name.
#[derive(Drop)]
pub struct MemShelf {
    files: Vec<(String, Vec<u8>)>,
    chosen: Option<usize>,
    at: usize,
    step: usize,
    given: u64,
    calls: Calls,
}

impl Model for MemShelf {
    ghost use Rattle.std.specs.Prelude.{drop};
    ghost use Rattle.zone_outside.specs.Memory.{ShelfState, files_of, text_chosen, IsOpenWithin};

    ghost Value = { ShelfState };

    ghost view = { λ s. record { files = files_of s.files.items; left = drop s.at (text_chosen s.files.items s.chosen); step = s.step; given = s.given; calls = s.calls } };

    ghost invariant = { λ s. IsOpenWithin s.files.items s.chosen s.at s.step };
}

impl MemShelf {
    /// A shelf of these texts by name, of which the first of a name counts. A read gives at most `step` bytes, 1 at least, and the
    /// calls of `fetch` and `read` whose numbers, from 1 on, are listed fail.
    pub fn new(files: Vec<(String, Vec<u8>)>, step: usize, fails: Vec<u64>) -> MemShelf
        requires { 0 < step }
        ensures { result ≡ record { files = files_of files.items; left = []; step = step; given = 0; calls = fresh_calls fails.items } }
    {
        MemShelf {
            files,
            chosen: None,
            at: 0,
            step,
            given: 0,
            calls: Calls::new(fails),
        }
    }
}

impl Source for MemShelf {
    ghost left = { λ s. Some s.left };

    ghost given = { λ s. s.given };

    ghost faults = { λ s. s.calls.faults };

    ghost told = { λ s. text_of s.files };

    fn read(&mut self, into: &mut [u8]) -> Result<usize, Failed>
        requires { 0 < length into.old }
        ensures bound { IfOk result (λ n. n ≤ length into.old) }
        ensures bytes { Reads (Some self.old.left) (Some self.new.left) into.new result }
        ensures given { Gives self.old.given self.new.given result }
        ensures names { KeepsNames (text_of self.old.files) (text_of self.new.files) (λ _. Unit {0}) (λ _. Unit {0}) }
        ensures cause { HasCause self.old.calls.faults self.new.calls.faults result }

        ensures fails { is_err result ≡ fails_next self.old.calls }
        ensures count { IfOk result (λ n. n ≡ min (min self.old.step (length into.old)) (length self.old.left)) }
        ensures ok { IfOk result (λ n. self.new ≡ record self.old { left = drop n self.old.left; given = raised self.old.given n; calls = counted self.old.calls }) }
        ensures err { OnErr result (self.new ≡ record self.old { calls = faulted (counted self.old.calls) }) }
    {
        if self.calls.begin().is_err() {
            return Err(Failed);
        }
        let text = chosen_text(&self.files, self.chosen);
        let count = copy_front(bytes_from(text, self.at), self.step, into);
        self.at += count;
        self.given = self.given.saturating_add(count as u64);
        Ok(count)
    }
}

impl Shelf for MemShelf {
    fn fetch(&mut self, name: &str) -> Result<(), Failed>
        ensures bytes { Fetches (text_of self.old.files name.now) (Some self.old.left) (Some self.new.left) result }
        ensures given { self.new.given ≡ self.old.given }
        ensures names { KeepsNames (text_of self.old.files) (text_of self.new.files) (λ _. Unit {0}) (λ _. Unit {0}) }
        ensures cause { HasCause self.old.calls.faults self.new.calls.faults result }

        ensures fails { is_err result ≡ (fails_next self.old.calls || is_none (text_of self.old.files name.now)) }
        ensures begun { OnOk result (IfSome (text_of self.old.files name.now) (λ bytes. self.new ≡ record self.old { left = bytes; calls = counted self.old.calls })) }
        ensures refused { OnErr result (self.new ≡ record self.old { calls = faulted (counted self.old.calls) }) }
    {
        if self.calls.begin().is_err() {
            return Err(Failed);
        }
        let Some(place) = place_of(&self.files, name) else {
            return Err(self.calls.fault());
        };
        self.chosen = Some(place);
        self.at = 0;
        Ok(())
    }
}

/// The place of the first file with that name.
fn place_of(files: &[(String, Vec<u8>)], name: &str) -> Option<usize>
    ensures { MatchOption result (text_of (files_of files.now) name.now ≡ None)
        (λ place. (place < length files.now) × (text_of (files_of files.now) name.now ≡ Some (text_at files.now place))) }
{
    place_named(files, name)
}

fn place_named(files: &[(String, Vec<u8>)], name: &str) -> Option<usize>
    ensures { result ≡ position (λ file. pointwise nat_eq (string_bytes file.0) name.now) files.now }
{
    files.iter().position(|file| file.0.as_str() == name)
}

/// The text of the chosen file, which is empty where none is chosen.
fn chosen_text(files: &[(String, Vec<u8>)], chosen: Option<usize>) -> &[u8]
    ensures { result.now ≡ text_chosen files.now chosen }
{
    match chosen {
        Some(place) => text_at_place(files, place),
        None => &[],
    }
}

fn text_at_place(files: &[(String, Vec<u8>)], place: usize) -> &[u8]
    ensures { result.now ≡ text_at files.now place }
{
    match files.get(place) {
        Some(file) => &file.1,
        None => &[],
    }
}

pub(crate) fn bytes_from(bytes: &[u8], at: usize) -> &[u8]
    requires { at ≤ length bytes.now }
    ensures { result.now ≡ drop at bytes.now }
{
    &bytes[at..]
}

/// Copies the front of these bytes to the front of the buffer, at most a step of them, and answers how many.
pub(crate) fn copy_front(from: &[u8], step: usize, into: &mut [u8]) -> usize
    requires moves { 0 < step }
    requires room { 0 < length into.old }
    ensures count { result ≡ min (min step (length into.old)) (length from.now) }
    ensures bytes { Consumes from.now (Some (drop result from.now)) into.new result }
{
    let count = step.min(into.len()).min(from.len());
    into[..count].copy_from_slice(&from[..count]);
    count
}

/// Takes bytes into memory, at most a step a write, until its room is full.
#[derive(Drop)]
pub struct MemSink {
    bytes: Vec<u8>,
    room: usize,
    step: usize,
    calls: Calls,
}

impl Model for MemSink {
    ghost use Rattle.std.specs.Prelude.{vec_len, vec_capacity};
    ghost use Rattle.zone_outside.specs.Memory.{SinkState, HasRoom};

    ghost Value = { SinkState };

    ghost view = { λ s. record { taken = s.bytes.items; room = s.room; step = s.step; calls = s.calls } };

    ghost invariant = { λ s. HasRoom (vec_len s.bytes) s.room (vec_capacity s.bytes) s.step };
}

impl MemSink {
    /// A sink with room for `room` bytes, which takes at most `step` of them a write, 1 at least, and fails the writes whose
    /// numbers, from 1 on, are listed.
    ///
    /// # Errors
    ///
    /// Want of memory for `room` bytes alone.
    pub fn new(
        alloc: Global,
        room: usize,
        step: usize,
        fails: Vec<u64>,
    ) -> Result<MemSink, AllocError>
        requires { 0 < step }
        ensures { IfOk result (λ s. s ≡ record { taken = []; room = room; step = step; calls = fresh_calls fails.items }) }
    {
        Ok(MemSink {
            bytes: Vec::with_capacity(alloc, room)?,
            room,
            step,
            calls: Calls::new(fails),
        })
    }

    /// The bytes taken so far.
    pub fn taken(&self) -> &[u8]
        ensures { result.now ≡ self.now.taken }
    {
        &self.bytes
    }
}

impl Sink for MemSink {
    ghost taken = { λ s. Some s.taken };

    ghost faults = { λ s. s.calls.faults };

    fn write(&mut self, piece: &[u8]) -> Result<usize, Failed>
        requires { 0 < length piece.now }
        ensures some { IfOk result (λ n. 0 < n) }
        ensures bound { IfOk result (λ n. n ≤ length piece.now) }
        ensures bytes { Takes (Some self.old.taken) (Some self.new.taken) piece.now result }
        ensures cause { HasCause self.old.calls.faults self.new.calls.faults result }

        ensures fails { is_err result ≡ (fails_next self.old.calls || (self.old.room == length self.old.taken)) }
        ensures count { IfOk result (λ n. n ≡ min (min self.old.step (length piece.now)) (self.old.room - length self.old.taken)) }
        ensures ok { IfOk result (λ n. self.new ≡ record self.old { taken = self.old.taken ++ take n piece.now; calls = counted self.old.calls }) }
        ensures err { OnErr result (self.new ≡ record self.old { calls = faulted (counted self.old.calls) }) }
    {
        if self.calls.begin().is_err() {
            return Err(Failed);
        }
        let free = self.room - self.bytes.len();
        if free == 0 {
            return Err(self.calls.fault());
        }
        let count = self.step.min(piece.len()).min(free);
        self.bytes.extend_from_slice(&piece[..count]).unwrap();
        Ok(count)
    }
}
