//! The adapters of the real file and streams.

use crate::checks::holds;
use std::alloc::Global;
use std::fmt::Display;
use std::io;
use std::io::Read;
use zone_outside::{
    FileShelf, ReadEnd, Shelf, Sink, Source, StdSink, StdSource, fetch_all, read_all, write_all,
};

/// Whether a shelf gives what is due once the file of a name was asked for: whether it is there, and the count of bytes.
fn gives(
    shelf: &mut FileShelf<HostRuntime>,
    name: &str,
    is_there: bool,
    count: Option<usize>,
) -> bool {
    let mut piece = [7; 4];
    (shelf.fetch(name).is_ok() == is_there)
        & (shelf.read(&mut piece).ok() == count)
        & ((piece == [0; 4]) == (count == Some(4)))
}

/// A file gives its bytes, a missing one is a fault, and a directory is refused and not told as the end.
fn gives_files(shelf: &mut FileShelf<HostRuntime>) -> bool {
    gives(shelf, "/dev/null/missing", false, Some(0))
        & gives(shelf, "/dev/null", true, Some(0))
        & gives(shelf, "/dev/zero", true, Some(4))
        & gives(shelf, "/", true, None)
}

/// Whether a directory is read as a refusal.
fn refuses_directory(alloc: Global, shelf: &mut FileShelf<HostRuntime>) -> bool {
    match fetch_all(alloc, shelf, "/") {
        Ok(_) => false,
        Err(end) => end == ReadEnd::Failed,
    }
}

#[test]
fn real_files(rt: HostRuntime) {
    let mut shelf = FileShelf::new(rt);
    holds(&rt, "files", gives_files(&mut shelf));
    holds(&rt, "directory", refuses_directory(rt.alloc(), &mut shelf));
}

/// A reader that is always refused, and a printer that takes at most so many bytes at a time or is refused.
#[derive(Drop)]
struct Partial {
    most: Option<usize>,
}

impl Read for Partial {
    fn read(&mut self, _into: &mut [u8]) -> io::Result<usize> {
        Err(io::Error::from(io::ErrorKind::Other))
    }
}

impl Print for Partial {
    fn print<D: Display + Drop>(&self, _value: D) -> io::Result<()> {
        Ok(())
    }

    fn println<D: Display + Drop>(&self, _value: D) -> io::Result<()> {
        Ok(())
    }

    fn write_all(&self, _bytes: &[u8]) -> io::Result<()> {
        Ok(())
    }

    fn write_some(&self, bytes: &[u8]) -> io::Result<usize> {
        match self.most {
            Some(most) => Ok(bytes.len().min(most)),
            None => Err(io::Error::from(io::ErrorKind::Other)),
        }
    }
}

fn refuses_read(alloc: Global) -> bool {
    let mut source = StdSource::new(Partial { most: None });
    let is_refused = source.read(&mut [0; 8]).is_err();
    match read_all(alloc, &mut source) {
        Ok(_) => false,
        Err(end) => is_refused & (end == ReadEnd::Failed),
    }
}

fn reads_all(alloc: Global) -> bool {
    match read_all(alloc, &mut StdSource::new(b"ab".as_slice())) {
        Ok(read) => read.as_slice() == b"ab".as_slice(),
        Err(_) => false,
    }
}

#[test]
fn a_refused_read_is_not_the_end(rt: HostRuntime) {
    holds(&rt, "refused", refuses_read(rt.alloc()));
    holds(&rt, "read", reads_all(rt.alloc()));
}

/// Whether a printer takes so many bytes of three, and all by and by.
fn takes(most: Option<usize>, count: Option<usize>, takes_all: bool) -> bool {
    let mut sink = StdSink::new(Partial { most });
    (sink.write(b"abc").ok() == count) & (write_all(&mut sink, b"abcde").is_ok() == takes_all)
}

fn printers() -> bool {
    takes(None, None, false) & takes(Some(0), None, false) & takes(Some(2), Some(2), true)
}

#[test]
fn a_refused_write_takes_nothing(rt: HostRuntime) {
    holds(&rt, "printers", printers());
    let mut sink = StdSink::new(rt);
    holds(&rt, "output", sink.write(b"\n").ok() == Some(1));
}
