//! One error for all that is asked of a source, of a zone and of a file.
ghost use Rattle.std.specs.Prelude.{◌≡◌};
ghost use Rattle.sefunjaro.specs.Errors.{of_ever_tail, of_made_file, of_source};

use crate::SourceError;
use crate::any_source::AnySourceFault;
use crate::file::{FileFault as OpenedFileFault, PosixFault};
use crate::source::OpenFault;
use std::alloc::AllocError;
use tz_lookup::{DatabaseFault, TzFault, ZoneFault};
use tz_tzif::TzifFault;
use zone_alarm::AlarmFault;
use zone_line::NotBuilt;
use zone_list::ListFault;
use zone_plain_lines::PlainCause;
use zone_tail::TailFault;
use zone_tree::TreeFault;
use zone_tzif::{EverFileFault, EverTailFault, FileFault};
use zone_tzif_core::ReadFault;

/// Why a call of this library has no answer: the fault of the call that refused. `?` reaches it from each of these faults, and of
/// each want of memory becomes `NoMemory`.
#[derive(Debug, Drop, PartialEq)]
pub enum Error {
    /// The source is longer than 16,777,216 bytes.
    TooLong,
    /// The patterns of a parser couldn't be built.
    Parser,
    /// A line of a source in plain form is refused: the first such, with its number and the cause.
    Source(SourceError),
    /// A line of a source in any form has no plain form: the first such, with its number, from 1, and the cause.
    Line(usize, PlainCause),
    /// The plain form of a source would be longer than 16,777,216 bytes.
    PlainTooLong,
    /// A line of the plain form of a source is refused: the first such, counted there.
    Plain(SourceError),
    /// A name finds no zone that can be asked.
    Zone(ZoneFault),
    /// A set that was made by hand can't be asked.
    Set(TzFault),
    /// A zone of the table has no schedule: the first in byte order, with its name and the cause.
    Database(DatabaseFault),
    /// A change can't be listed.
    List(ListFault),
    /// An alarm's days go too far.
    Alarm(AlarmFault),
    /// A zone has no POSIX TZ string.
    Tail(TailFault),
    /// A zone has no string that carries it on for ever.
    EverTail(EverTailFault),
    /// A zone has no TZif file.
    Tzif(FileFault),
    /// A name of a source has no entry in an archive: the first such, with its name and why.
    Tree(TreeFault),
    /// Bytes are no compiled zone file.
    File(ReadFault),
    /// A compiled zone file can't be asked.
    FileZone(TzifFault),
    /// A text is no POSIX TZ string that is read.
    Posix,
    /// Memory ran out.
    NoMemory,
}

impl From<AllocError> for Error {
    ghost use Rattle.std.specs.Prelude.{◌≡◌};
    ghost use Rattle.sefunjaro.specs.declared.error.Error.TheVariants.{NoMemory};

    ghost from_gives = { λ _ error. error ≡ NoMemory };

    fn from(_: AllocError) -> Error {
        Error::NoMemory
    }
}

impl From<NotBuilt> for Error {
    ghost use Rattle.std.specs.Prelude.{◌≡◌};
    ghost use Rattle.sefunjaro.specs.declared.error.Error.TheVariants.{Parser};

    ghost from_gives = { λ _ error. error ≡ Parser };

    fn from(_: NotBuilt) -> Error {
        Error::Parser
    }
}

impl From<SourceError> for Error {
    ghost use Rattle.std.specs.Prelude.{◌≡◌};
    ghost use Rattle.sefunjaro.specs.Errors.{of_source};

    ghost from_gives = { λ fault error. error ≡ of_source fault };

    fn from(fault: SourceError) -> Error {
        of_source(fault)
    }
}

/// What the fault of a source in plain form becomes.
fn of_source(fault: SourceError) -> Error
    ensures { result ≡ of_source fault }
{
    match fault {
        SourceError::NoMemory => Error::NoMemory,
        SourceError::NotText(line) => Error::Source(SourceError::NotText(line)),
        SourceError::Line(line, cause) => Error::Source(SourceError::Line(line, cause)),
        SourceError::Build(line, kind) => Error::Source(SourceError::Build(line, kind)),
    }
}

impl From<OpenFault> for Error {
    ghost use Rattle.std.specs.Prelude.{◌≡◌};
    ghost use Rattle.sefunjaro.specs.Errors.{of_open};

    ghost from_gives = { λ fault error. error ≡ of_open fault };

    fn from(fault: OpenFault) -> Error {
        match fault {
            OpenFault::TooLong => Error::TooLong,
            OpenFault::Source(fault) => Error::Source(fault),
            OpenFault::NoMemory => Error::NoMemory,
        }
    }
}

impl From<AnySourceFault> for Error {
    ghost use Rattle.std.specs.Prelude.{◌≡◌};
    ghost use Rattle.sefunjaro.specs.Errors.{of_any_source};

    ghost from_gives = { λ fault error. error ≡ of_any_source fault };

    fn from(fault: AnySourceFault) -> Error {
        match fault {
            AnySourceFault::TooLong => Error::TooLong,
            AnySourceFault::Line(line, cause) => Error::Line(line, cause),
            AnySourceFault::PlainTooLong => Error::PlainTooLong,
            AnySourceFault::Plain(fault) => Error::Plain(fault),
            AnySourceFault::NoMemory => Error::NoMemory,
        }
    }
}

impl From<ZoneFault> for Error {
    ghost use Rattle.std.specs.Prelude.{◌≡◌};
    ghost use Rattle.sefunjaro.specs.Errors.{of_zone};

    ghost from_gives = { λ fault error. error ≡ of_zone fault };

    fn from(fault: ZoneFault) -> Error {
        match fault {
            ZoneFault::UnknownZone => Error::Zone(ZoneFault::UnknownZone),
            ZoneFault::Schedule(cause) => Error::Zone(ZoneFault::Schedule(cause)),
            ZoneFault::OffsetRange => Error::Zone(ZoneFault::OffsetRange),
            ZoneFault::NoMemory => Error::NoMemory,
        }
    }
}

impl From<TzFault> for Error {
    ghost use Rattle.std.specs.Prelude.{◌≡◌};
    ghost use Rattle.sefunjaro.specs.declared.error.Error.TheVariants.{Set};

    ghost from_gives = { λ fault error. error ≡ Set fault };

    fn from(fault: TzFault) -> Error {
        Error::Set(fault)
    }
}

impl From<DatabaseFault> for Error {
    ghost use Rattle.std.specs.Prelude.{◌≡◌};
    ghost use Rattle.sefunjaro.specs.Errors.{of_database};

    ghost from_gives = { λ fault error. error ≡ of_database fault };

    fn from(fault: DatabaseFault) -> Error {
        match fault {
            DatabaseFault::Schedule(name, cause) => {
                Error::Database(DatabaseFault::Schedule(name, cause))
            }
            DatabaseFault::OffsetRange(name) => Error::Database(DatabaseFault::OffsetRange(name)),
            DatabaseFault::NoMemory => Error::NoMemory,
        }
    }
}

impl From<ListFault> for Error {
    ghost use Rattle.std.specs.Prelude.{◌≡◌};
    ghost use Rattle.sefunjaro.specs.Errors.{of_list};

    ghost from_gives = { λ fault error. error ≡ of_list fault };

    fn from(fault: ListFault) -> Error {
        match fault {
            ListFault::Range => Error::List(ListFault::Range),
            ListFault::NoMemory => Error::NoMemory,
        }
    }
}

impl From<AlarmFault> for Error {
    ghost use Rattle.std.specs.Prelude.{◌≡◌};
    ghost use Rattle.sefunjaro.specs.Errors.{of_alarm};

    ghost from_gives = { λ fault error. error ≡ of_alarm fault };

    fn from(fault: AlarmFault) -> Error {
        match fault {
            AlarmFault::Range => Error::Alarm(AlarmFault::Range),
            AlarmFault::NoMemory => Error::NoMemory,
        }
    }
}

impl From<TailFault> for Error {
    ghost use Rattle.std.specs.Prelude.{◌≡◌};
    ghost use Rattle.sefunjaro.specs.Errors.{of_tail};

    ghost from_gives = { λ fault error. error ≡ of_tail fault };

    fn from(fault: TailFault) -> Error {
        match fault {
            TailFault::Shape => Error::Tail(TailFault::Shape),
            TailFault::OffsetRange => Error::Tail(TailFault::OffsetRange),
            TailFault::Name => Error::Tail(TailFault::Name),
            TailFault::NoMemory => Error::NoMemory,
        }
    }
}

impl From<EverTailFault> for Error {
    ghost use Rattle.std.specs.Prelude.{◌≡◌};
    ghost use Rattle.sefunjaro.specs.Errors.{of_ever_tail};

    ghost from_gives = { λ fault error. error ≡ of_ever_tail fault };

    fn from(fault: EverTailFault) -> Error {
        of_ever_tail(fault)
    }
}

/// What the fault of a string for ever becomes.
fn of_ever_tail(fault: EverTailFault) -> Error
    ensures { result ≡ of_ever_tail fault }
{
    match fault {
        EverTailFault::Saving => Error::EverTail(EverTailFault::Saving),
        EverTailFault::Shape => Error::EverTail(EverTailFault::Shape),
        EverTailFault::OffsetRange => Error::EverTail(EverTailFault::OffsetRange),
        EverTailFault::Name => Error::EverTail(EverTailFault::Name),
        EverTailFault::NoRule => Error::EverTail(EverTailFault::NoRule),
        EverTailFault::NoMemory => Error::NoMemory,
    }
}

impl From<FileFault> for Error {
    ghost use Rattle.std.specs.Prelude.{◌≡◌};
    ghost use Rattle.sefunjaro.specs.Errors.{of_made_file};

    ghost from_gives = { λ fault error. error ≡ of_made_file fault };

    fn from(fault: FileFault) -> Error {
        of_made_file(fault)
    }
}

/// What the fault of a file becomes.
fn of_made_file(fault: FileFault) -> Error
    ensures { result ≡ of_made_file fault }
{
    match fault {
        FileFault::Times => Error::Tzif(FileFault::Times),
        FileFault::Types => Error::Tzif(FileFault::Types),
        FileFault::Names => Error::Tzif(FileFault::Names),
        FileFault::NoMemory => Error::NoMemory,
    }
}

impl From<EverFileFault> for Error {
    ghost use Rattle.std.specs.Prelude.{◌≡◌};
    ghost use Rattle.sefunjaro.specs.Errors.{of_ever_file};

    ghost from_gives = { λ fault error. error ≡ of_ever_file fault };

    fn from(fault: EverFileFault) -> Error {
        match fault {
            EverFileFault::Footer(cause) => of_ever_tail(cause),
            EverFileFault::File(cause) => of_made_file(cause),
        }
    }
}

impl From<TreeFault> for Error {
    ghost use Rattle.std.specs.Prelude.{◌≡◌};
    ghost use Rattle.sefunjaro.specs.Errors.{of_tree};

    ghost from_gives = { λ fault error. error ≡ of_tree fault };

    fn from(fault: TreeFault) -> Error {
        match fault {
            TreeFault::Source(fault) => of_source(fault),
            TreeFault::Refused(name, why) => Error::Tree(TreeFault::Refused(name, why)),
            TreeFault::NoMemory => Error::NoMemory,
        }
    }
}

impl From<ReadFault> for Error {
    ghost use Rattle.std.specs.Prelude.{◌≡◌};
    ghost use Rattle.sefunjaro.specs.Errors.{of_read};

    ghost from_gives = { λ fault error. error ≡ of_read fault };

    fn from(fault: ReadFault) -> Error {
        match fault {
            ReadFault::Refused => Error::File(ReadFault::Refused),
            ReadFault::NoMemory => Error::NoMemory,
        }
    }
}

impl From<TzifFault> for Error {
    ghost use Rattle.std.specs.Prelude.{◌≡◌};
    ghost use Rattle.sefunjaro.specs.Errors.{of_file_zone};

    ghost from_gives = { λ fault error. error ≡ of_file_zone fault };

    fn from(fault: TzifFault) -> Error {
        match fault {
            TzifFault::Times => Error::FileZone(TzifFault::Times),
            TzifFault::Offset => Error::FileZone(TzifFault::Offset),
            TzifFault::Footer => Error::FileZone(TzifFault::Footer),
            TzifFault::NoMemory => Error::NoMemory,
        }
    }
}

impl From<OpenedFileFault> for Error {
    ghost use Rattle.std.specs.Prelude.{◌≡◌};
    ghost use Rattle.sefunjaro.specs.Errors.{of_opened_file};

    ghost from_gives = { λ fault error. error ≡ of_opened_file fault };

    fn from(fault: OpenedFileFault) -> Error {
        match fault {
            OpenedFileFault::Refused => Error::File(ReadFault::Refused),
            OpenedFileFault::Footer => Error::FileZone(TzifFault::Footer),
            OpenedFileFault::NoMemory => Error::NoMemory,
        }
    }
}

impl From<PosixFault> for Error {
    ghost use Rattle.std.specs.Prelude.{◌≡◌};
    ghost use Rattle.sefunjaro.specs.Errors.{of_posix};

    ghost from_gives = { λ fault error. error ≡ of_posix fault };

    fn from(fault: PosixFault) -> Error {
        match fault {
            PosixFault::Refused => Error::Posix,
            PosixFault::NoMemory => Error::NoMemory,
        }
    }
}
