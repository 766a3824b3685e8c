//! The outside: sources of bytes, shelves of named texts, and sinks; a source read to its end, and bytes written whole; and the real
//! file, standard input and standard output, which tell no content: this is the trusted edge.
//!
//! Each object counts its faults, and a call is refused only where that count rises. Counts are 64-bit numbers that stay
//! at their last value, 18,446,744,073,709,551,615.
ghost use Rattle.std.specs.Prelude.{◌≡◌, ℕ, ◌<◌, ◌≤◌, List, Option, None, length, IfOk, ◌+◌, [], ◌++◌, OnOk, OnErr, IfSome, Some, IsErrOf, ◌&&◌, Ok, true, false, nat_lt};
ghost use Rattle.zone_outside.specs.{Outside.{Fetches, Gives, HasCause, KeepsNames, Reads, Takes, Counted, GrewByPrefix, LeavesRest, Rose, TooMuch, raised}, declared.outside.ReadEnd.TheVariants.{Failed, NoMemory}};

use std::alloc::{AllocError, Global};
use std::fs;
use std::io::Read;
use std::marker::Model;
use std::rt::Files;

/// A call of the outside was refused; the object's count of faults rose.
#[derive(Clone, Copy, Debug, PartialEq, Eq)]
pub struct Failed;

/// Bytes that come a piece at a time.
pub trait Source {
    /// The bytes still to come, where the source tells them.
    ghost left: { Self → Option (List ℕ) };

    /// How many bytes its reads have given, up to the last value of the count.
    ghost given: { Self → ℕ };

    /// How often it has failed, up to the last value of the count.
    ghost faults: { Self → ℕ };

    /// The bytes of a name, where this is a shelf that tells them. No call changes it.
    ghost told: { Self → List ℕ → Option (List ℕ) } = { λ _ _. None };

    /// The names that a shelf may be asked for. No call changes it.
    ghost open_to: { Self → List ℕ → Type 0 } = { λ _ _. Unit {0} };

    /// Puts the next bytes at the front of the buffer, which isn't empty, and answers how many; 0 only at the end.
    ///
    /// # Errors
    ///
    /// `Failed` where the call is refused. What is left and what was given are then as before.
    fn read(&mut self, into: &mut [u8]) -> Result<usize, Failed>
        requires { 0 < length into.old }
        ensures bound { IfOk result (λ n. n ≤ length into.old) }
        ensures bytes { Reads (left self.old) (left self.new) into.new result }
        ensures given { Gives (given self.old) (given self.new) result }
        ensures names { KeepsNames (told self.old) (told self.new) (open_to self.old) (open_to self.new) }
        ensures cause { HasCause (faults self.old) (faults self.new) result };
}

/// Texts by name: `fetch` chooses one, and the reads give its bytes.
pub trait Shelf: Source {
    /// Begins the text of that name.
    ///
    /// # Errors
    ///
    /// `Failed` where the call is refused, as it is at a missing name. What is left is then as before.
    fn fetch(&mut self, name: &str) -> Result<(), Failed>
        requires { Self.open_to self.old name.now }
        ensures bytes { Fetches (Self.told self.old name.now) (Self.left self.old) (Self.left self.new) result }
        ensures given { Self.given self.new ≡ Self.given self.old }
        ensures names { KeepsNames (Self.told self.old) (Self.told self.new) (Self.open_to self.old) (Self.open_to self.new) }
        ensures cause { HasCause (Self.faults self.old) (Self.faults self.new) result };
}

/// A taker of bytes.
pub trait Sink {
    /// The bytes taken so far, where the sink tells them.
    ghost taken: { Self → Option (List ℕ) };

    /// How often it has failed, up to the last value of the count.
    ghost faults: { Self → ℕ };

    /// Takes the first bytes of the piece, which isn't empty, at least one, and answers how many.
    ///
    /// # Errors
    ///
    /// `Failed` where the call is refused. What is taken is then as before.
    fn write(&mut self, piece: &[u8]) -> Result<usize, Failed>
        requires { 0 < length piece.now }
        ensures some { IfOk result (λ n. 0 < n) }
        ensures bound { IfOk result (λ n. n ≤ length piece.now) }
        ensures bytes { Takes (taken self.old) (taken self.new) piece.now result }
        ensures cause { HasCause (faults self.old) (faults self.new) result };
}

/// The most bytes that a text may have which is read whole.
pub const LIMIT: usize = 16_777_216;

/// Why a text was not read to its end.
#[derive(Clone, Copy, Debug, PartialEq, Eq)]
pub enum ReadEnd {
    /// A call of the source failed.
    Failed,
    /// The text has more than 16,777,216 bytes.
    TooLong,
    /// Memory ran out.
    NoMemory,
}

impl From<AllocError> for ReadEnd {
    ghost use Rattle.std.specs.Prelude.{◌≡◌};
    ghost use Rattle.zone_outside.specs.declared.outside.ReadEnd.TheVariants.{NoMemory};

    ghost from_gives = { λ _ fault. fault ≡ NoMemory };

    fn from(_: AllocError) -> ReadEnd {
        ReadEnd::NoMemory
    }
}

impl From<Failed> for ReadEnd {
    ghost from_gives = { λ _ e. e ≡ Failed };

    fn from(_: Failed) -> Self {
        ReadEnd::Failed
    }
}

/// Reads the source to its end, for at most 16,777,216 bytes.
///
/// # Errors
///
/// `Failed` where a read fails, `TooLong` as soon as more than 16,777,216 bytes were given, and `NoMemory`. What was
/// given before a refusal is gone from the source.
pub fn read_all<S: Source>(alloc: Global, source: &mut S) -> Result<Vec<u8>, ReadEnd>
    ensures bytes { IfOk result (λ bytes. IfSome (S.left source.old) (λ left. (bytes.items ≡ left) × (S.left source.new ≡ Some []))) }
    ensures within { IfOk result (λ bytes. length bytes.items ≤ LIMIT) }
    ensures later { S.faults source.old ≤ S.faults source.new }
    ensures failed { IsErrOf result ReadEnd.Failed → Rose (S.faults source.old) (S.faults source.new) }
    ensures long { IsErrOf result ReadEnd.TooLong → TooMuch LIMIT (S.given source.old) (S.given source.new) }
    ensures long_text { IsErrOf result ReadEnd.TooLong → IfSome (S.left source.old) (λ left. LIMIT < length left) }
    ensures rest { LeavesRest (S.left source.old) (S.left source.new) }
    ensures names { KeepsNames (S.told source.old) (S.told source.new) (S.open_to source.old) (S.open_to source.new) }
    ensures ok_given { IfOk result (λ bytes. Counted (S.given source.old) (S.given source.new) (length bytes.items)) }
    ensures failed_given { IsErrOf result ReadEnd.Failed → S.given source.new ≤ S.given source.old + LIMIT }
{
    let mut bytes = Vec::new(alloc);
    let mut piece = [0u8; 4096];
    'reading: while bytes.len() <= LIMIT {
        let n = source.read(&mut piece)?;
        if n == 0 {
            return Ok(bytes);
        }
        bytes.extend_from_slice(&piece[..n])?;
    }
    Err(ReadEnd::TooLong)
}

/// Reads the whole text of a name, of at most 16,777,216 bytes.
///
/// # Errors
///
/// `Failed` where the name can't be fetched or a read fails, `TooLong` as soon as more than 16,777,216 bytes were
/// given, and `NoMemory`. After a refusal the shelf may have given a first part of the text, or still have what was
/// left before.
pub fn fetch_all<H: Shelf>(alloc: Global, shelf: &mut H, name: &str) -> Result<Vec<u8>, ReadEnd>
    requires { H.open_to shelf.old name.now }
    ensures names { KeepsNames (H.told shelf.old) (H.told shelf.new) (H.open_to shelf.old) (H.open_to shelf.new) }
    ensures bytes { IfOk result (λ bytes. IfSome (H.told shelf.old name.now) (λ text. (bytes.items ≡ text) × (H.left shelf.new ≡ Some []))) }
    ensures within { IfOk result (λ bytes. length bytes.items ≤ LIMIT) }
    ensures later { H.faults shelf.old ≤ H.faults shelf.new }
    ensures failed { IsErrOf result ReadEnd.Failed → Rose (H.faults shelf.old) (H.faults shelf.new) }
    ensures long { IsErrOf result ReadEnd.TooLong → TooMuch LIMIT (H.given shelf.old) (H.given shelf.new) }
    ensures long_text { IsErrOf result ReadEnd.TooLong → IfSome (H.told shelf.old name.now) (λ text. LIMIT < length text) }
    ensures ok_given { IfOk result (λ bytes. Counted (H.given shelf.old) (H.given shelf.new) (length bytes.items)) }
    ensures failed_given { IsErrOf result ReadEnd.Failed → H.given shelf.new ≤ H.given shelf.old + LIMIT }
{
    shelf.fetch(name)?;
    read_all(alloc, shelf)
}

/// Writes these bytes to their end.
///
/// # Errors
///
/// `Failed` where a write fails; some first part of the bytes was then taken.
pub fn write_all<O: Sink>(sink: &mut O, bytes: &[u8]) -> Result<(), Failed>
    ensures ok { OnOk result (IfSome (O.taken sink.old) (λ had. O.taken sink.new ≡ Some (had ++ bytes.now))) }
    ensures later { O.faults sink.old ≤ O.faults sink.new }
    ensures failed { OnErr result (Rose (O.faults sink.old) (O.faults sink.new)) }
    ensures prefix { OnErr result (IfSome (O.taken sink.old) (λ had. GrewByPrefix had (O.taken sink.new) bytes.now)) }
{
    let mut at = 0;
    'writing: while at < bytes.len() {
        at += sink.write(&bytes[at..])?;
    }
    Ok(())
}

/// Files by their names, of which one is open at a time; it may be asked for every name.
///
/// A file is closed as soon as its end was read, so that a number of the operating system that was free before, as that of a
/// closed standard input, is free again and not the file's.
#[derive(Drop)]
pub struct FileShelf<R: Files + Drop> {
    rt: R,
    file: Option<R::File>,
    given: u64,
    faults: u64,
}

impl<R: Files + Drop> Model for FileShelf<R> {
    ghost use Rattle.std.specs.Prelude.{is_some};
    ghost use Rattle.zone_outside.specs.Streams.{FileState};

    ghost Value = { FileState };

    ghost view = { λ s. record { is_open = is_some s.file; given = s.given; faults = s.faults } };
}

impl<R: Files + Drop> FileShelf<R> {
    /// A shelf of the files that the runtime reaches. No file is open, and both counts are 0.
    pub fn new(rt: R) -> FileShelf<R>
        ensures { result ≡ record { is_open = false; given = 0; faults = 0 } }
    {
        FileShelf {
            rt,
            file: None,
            given: 0,
            faults: 0,
        }
    }
}

impl<R: Files + Drop> Source for FileShelf<R> {
    ghost left = { λ _. None };

    ghost given = { λ s. s.given };

    ghost faults = { λ s. s.faults };

    fn read(&mut self, into: &mut [u8]) -> Result<usize, Failed>
        requires { 0 < length into.old }
        ensures bound { IfOk result (λ n. n ≤ length into.old) }
        ensures bytes { Reads None None into.new result }
        ensures given { Gives self.old.given self.new.given result }
        ensures names { KeepsNames (λ _. None) (λ _. None) (λ _. Unit {0}) (λ _. Unit {0}) }
        ensures cause { HasCause self.old.faults self.new.faults result }

        ensures ok { IfOk result (λ n. self.new ≡ record self.old { is_open = self.old.is_open && nat_lt 0 n; given = raised self.old.given n }) }
        ensures err { OnErr result (self.new ≡ record self.old { faults = raised self.old.faults 1 }) }
        ensures unopened { self.old.is_open ≡ false → result ≡ Ok 0 }
    {
        let read = match &mut self.file {
            Some(file) => file.read(into),
            None => Ok(0),
        };
        let Ok(count) = read else {
            self.faults = self.faults.saturating_add(1);
            return Err(Failed);
        };
        if count == 0 {
            self.file = None;
        }
        self.given = self.given.saturating_add(count as u64);
        Ok(count)
    }
}

impl<R: Files + Drop> Shelf for FileShelf<R> {
    fn fetch(&mut self, name: &str) -> Result<(), Failed>
        ensures bytes { Fetches None None None result }
        ensures given { self.new.given ≡ self.old.given }
        ensures names { KeepsNames (λ _. None) (λ _. None) (λ _. Unit {0}) (λ _. Unit {0}) }
        ensures cause { HasCause self.old.faults self.new.faults result }

        ensures opened { OnOk result (self.new ≡ record self.old { is_open = true }) }
        ensures refused { OnErr result (self.new ≡ record self.old { faults = raised self.old.faults 1 }) }
    {
        let Ok(file) = fs::open(&self.rt, name) else {
            self.faults = self.faults.saturating_add(1);
            return Err(Failed);
        };
        self.file = Some(file);
        Ok(())
    }
}

/// Standard input.
#[derive(Drop)]
pub struct StdSource<S: Read + Drop> {
    reader: S,
    given: u64,
    faults: u64,
}

impl<S: Read + Drop> Model for StdSource<S> {
    ghost use Rattle.zone_outside.specs.Streams.{InputState};

    ghost Value = { InputState };

    ghost view = { λ s. record { given = s.given; faults = s.faults } };
}

impl<S: Read + Drop> StdSource<S> {
    /// The bytes that the runtime's reader gives, as `rt.reader()`. Both counts are 0.
    pub fn new(reader: S) -> StdSource<S>
        ensures { result ≡ record { given = 0; faults = 0 } }
    {
        StdSource {
            reader,
            given: 0,
            faults: 0,
        }
    }
}

impl<S: Read + Drop> Source for StdSource<S> {
    ghost left = { λ _. None };

    ghost given = { λ s. s.given };

    ghost faults = { λ s. s.faults };

    fn read(&mut self, into: &mut [u8]) -> Result<usize, Failed>
        requires { 0 < length into.old }
        ensures bound { IfOk result (λ n. n ≤ length into.old) }
        ensures bytes { Reads None None into.new result }
        ensures given { Gives self.old.given self.new.given result }
        ensures names { KeepsNames (λ _. None) (λ _. None) (λ _. Unit {0}) (λ _. Unit {0}) }
        ensures cause { HasCause self.old.faults self.new.faults result }

        ensures ok { IfOk result (λ n. self.new ≡ record self.old { given = raised self.old.given n }) }
        ensures err { OnErr result (self.new ≡ record self.old { faults = raised self.old.faults 1 }) }
    {
        let Ok(count) = self.reader.read(into) else {
            self.faults = self.faults.saturating_add(1);
            return Err(Failed);
        };
        self.given = self.given.saturating_add(count as u64);
        Ok(count)
    }
}

/// Standard output.
#[derive(Drop)]
pub struct StdSink<P: Print + Drop> {
    printer: P,
    faults: u64,
}

impl<P: Print + Drop> Model for StdSink<P> {
    ghost use Rattle.zone_outside.specs.Streams.{OutputState};

    ghost Value = { OutputState };

    ghost view = { λ s. record { faults = s.faults } };
}

impl<P: Print + Drop> StdSink<P> {
    /// The standard output of the runtime. Its count of faults is 0.
    pub fn new(printer: P) -> StdSink<P>
        ensures { result ≡ record { faults = 0 } }
    {
        StdSink { printer, faults: 0 }
    }
}

impl<P: Print + Drop> Sink for StdSink<P> {
    ghost taken = { λ _. None };

    ghost faults = { λ s. s.faults };

    fn write(&mut self, piece: &[u8]) -> Result<usize, Failed>
        requires { 0 < length piece.now }
        ensures some { IfOk result (λ n. 0 < n) }
        ensures bound { IfOk result (λ n. n ≤ length piece.now) }
        ensures bytes { Takes None None piece.now result }
        ensures cause { HasCause self.old.faults self.new.faults result }

        ensures ok { OnOk result (self.new ≡ self.old) }
        ensures err { OnErr result (self.new.faults ≡ raised self.old.faults 1) }
    {
        match self.printer.write_some(piece) {
            Ok(count) if count > 0 => Ok(count),
            _ => {
                self.faults = self.faults.saturating_add(1);
                Err(Failed)
            }
        }
    }
}
