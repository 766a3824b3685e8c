//! A source in any form that `zic` reads.

use crate::source::{OpenFault, OpenSource};
use std::alloc::Global;
use thiserror::Error;
use zone_line::LineParser;
use zone_plain::{PlainFault, plain};
use zone_plain_lines::PlainCause;
use zone_source::{LIMIT, SourceError};

/// Why a source in any form isn't opened.
#[derive(Debug, Drop, PartialEq, Error)]
pub enum AnySourceFault {
    /// It is longer than 16,777,216 bytes.
    #[error("the source is longer than 16,777,216 bytes")]
    TooLong,
    /// The line of the source that has no plain form, from 1, and why.
    #[error("source {0}: {1}")]
    Line(usize, PlainCause),
    /// Its plain form would be longer than 16,777,216 bytes.
    #[error("the plain form of the source would be longer than 16,777,216 bytes")]
    PlainTooLong,
    /// The first fault of the lines of its plain form, which are counted there.
    #[error("in the plain form, {0}")]
    Plain(SourceError),
    /// There was no memory for it.
    #[error("out of memory")]
    NoMemory,
}

impl OpenSource {
    ghost use Rattle.std.specs.Prelude.{◌≡◌, IfOk, IfErr};
    ghost use Rattle.sefunjaro.specs.{AnySources.{IsAnyFault, IsAnySource}, Sources.{release_in}};
    ghost use Rattle.zone_source.specs.Releases.{release_of};

    /// Opens a source in any form that `zic` reads: its plain form, as [`plain`](zone_plain::plain) writes it, is opened as
    /// [`open_plain`](OpenSource::open_plain) opens a text.
    ///
    /// # Errors
    ///
    /// `TooLong` exactly where the text is longer than 16,777,216 bytes; then `Line` with the first line that has no plain form, or
    /// `PlainTooLong` where that form would be longer than 16,777,216 bytes, which is told at the first line with which its links, or
    /// the rules that are made for `%z`, alone are; then `Plain` with the first fault of the plain form, which is never want of
    /// memory; `NoMemory`, never where `TooLong` is due.
    pub fn open(alloc: Global, text: &[u8]) -> Result<OpenSource, AnySourceFault>
        ensures ok { IfOk result (IsAnySource text.now) }
        ensures release { IfOk result (λ source. release_in source ≡ release_of text.now) }
        ensures err { IfErr result (IsAnyFault text.now) }
    {
        if text.len() > LIMIT {
            return Err(AnySourceFault::TooLong);
        }
        let Ok(parser) = LineParser::new(alloc) else {
            return Err(AnySourceFault::NoMemory);
        };
        match plain(alloc, &parser, text) {
            Ok(form) => OpenSource::of_plain(alloc, &parser, form.as_slice()),
            Err(PlainFault::Line(line, cause)) => Err(AnySourceFault::Line(line, cause)),
            Err(PlainFault::TooLong) => Err(AnySourceFault::PlainTooLong),
            Err(PlainFault::NoMemory) => Err(AnySourceFault::NoMemory),
        }
    }
}

impl OpenSource {
    ghost use Rattle.std.specs.Prelude.{◌≤◌, IfOk, IfErr, length};
    ghost use Rattle.sefunjaro.specs.AnySources.{IsFormFault, IsSourceOfForm};

    /// The source of a plain form.
    fn of_plain(
        alloc: Global,
        parser: &LineParser,
        form: &[u8],
    ) -> Result<OpenSource, AnySourceFault>
        requires { length form.now ≤ LIMIT }
        ensures ok { IfOk result (IsSourceOfForm form.now) }
        ensures err { IfErr result (IsFormFault form.now) }
    {
        match OpenSource::read(alloc, parser, form) {
            Ok(source) => Ok(source),
            Err(OpenFault::TooLong) => Err(AnySourceFault::PlainTooLong),
            Err(OpenFault::Source(error)) => Err(AnySourceFault::Plain(error)),
            Err(OpenFault::NoMemory) => Err(AnySourceFault::NoMemory),
        }
    }
}
