//! Why a source has no archive.
ghost use Rattle.std.specs.Prelude.{◌≡◌};

use basics::Text;
use std::alloc::AllocError;
use std::{error, fmt};
use zone_source::SourceError;
use zone_spans::SpanFault;
use zone_tzif::EverTailFault;
use zone_tzif_core::WriteFault;

/// Why a name has no entry in an archive.
#[derive(Clone, Copy, Debug, PartialEq, Eq)]
pub enum Why {
    /// Its zone has no schedule.
    Schedule(SpanFault),
    /// Some span of its zone has an offset of 26 hours or more in size.
    OffsetRange,
    /// Its zone doesn't go on after 2099.
    RulesEnd,
    /// No footer carries its zone on for ever: `Shape`, `OffsetRange`, `Name` or `NoRule`; `Saving` never comes.
    String(EverTailFault),
    /// A `%` is left in an abbreviation of its zone, which no reader of its file would know.
    Format,
    /// Its zone has no file: `Times`, `Types` or `Names`.
    File(WriteFault),
    /// It is a link to a name that is no zone's own.
    Link,
    /// An archive can't say the name, or that of the zone that it is a link to, or another name stands in it as in a folder; or it is
    /// `+VERSION`, the name of the file that says the release, or stands in that.
    Name,
    /// The file has 8,589,934,592 bytes or more.
    Size,
}

/// Why a name has no entry, or that memory ran out.
#[derive(Clone, Copy, Debug)]
pub(crate) enum NameFault {
    Refused(Why),
    NoMemory,
}

impl From<AllocError> for NameFault {
    ghost use Rattle.std.specs.Prelude.{◌≡◌};
    ghost use Rattle.zone_tree.specs.declared.refusal.NameFault.TheVariants.{NoMemory};

    ghost from_gives = { λ _ fault. fault ≡ NoMemory };

    fn from(_: AllocError) -> NameFault {
        NameFault::NoMemory
    }
}

/// Why a source has no archive, the first cause.
#[derive(Debug, Drop, PartialEq)]
pub enum TreeFault {
    /// The source is refused for this.
    Source(SourceError),
    /// The name has no entry, for this.
    Refused(Text, Why),
    /// Memory ran out.
    NoMemory,
}

impl From<AllocError> for TreeFault {
    ghost use Rattle.std.specs.Prelude.{◌≡◌};
    ghost use Rattle.zone_tree.specs.declared.refusal.TreeFault.TheVariants.{NoMemory};

    ghost from_gives = { λ _ fault. fault ≡ NoMemory };

    fn from(_: AllocError) -> TreeFault {
        TreeFault::NoMemory
    }
}

/// The line of the source and its cause, or the name and why it has no entry, as `tree A: link`.
impl fmt::Display for TreeFault {
    fn fmt<W: fmt::Write>(&self, f: &mut fmt::Formatter<W>) -> fmt::Result {
        match self {
            TreeFault::Source(fault) => write!(f, "{fault}"),
            TreeFault::Refused(name, why) => write_refused(f, name.as_str(), *why),
            TreeFault::NoMemory => f.write_str("out of memory"),
        }
    }
}

impl error::Error for TreeFault {}

fn write_refused<W: fmt::Write>(f: &mut fmt::Formatter<W>, name: &str, why: Why) -> fmt::Result {
    write!(f, "tree {name}: {}{}", why.group(), why.word())
}

impl Why {
    ghost use Rattle.std.specs.Prelude.{◌≡◌};
    ghost use Rattle.zone_tree.specs.Refusals.{group_of, word_of};
    ghost use Rattle.zone_tzif.specs.Asks.{fault_word};

    /// What stands before the word in a line that tells why.
    pub(crate) fn group(self) -> &'static str
        ensures { result.now ≡ group_of self }
    {
        match self {
            Why::Schedule(_) => "schedule ",
            Why::String(_) => "string ",
            Why::OffsetRange
            | Why::RulesEnd
            | Why::Format
            | Why::File(_)
            | Why::Link
            | Why::Name
            | Why::Size => "",
        }
    }

    /// The word in a line that tells why; of what comes at no zone, none.
    pub(crate) fn word(self) -> &'static str
        ensures { result.now ≡ word_of self }
    {
        match self {
            Why::Schedule(fault) => fault.name(),
            Why::OffsetRange => "offset range",
            Why::RulesEnd => "rules end",
            Why::String(EverTailFault::Saving) => "saving",
            Why::String(EverTailFault::Shape) => "shape",
            Why::String(EverTailFault::OffsetRange) => "range",
            Why::String(EverTailFault::Name) => "name",
            Why::String(EverTailFault::NoRule) => "rule",
            Why::Format => "format",
            Why::File(WriteFault::Times) => "times",
            Why::File(WriteFault::Types) => "types",
            Why::File(WriteFault::Names) => "names",
            Why::Link => "link",
            Why::Name => "name",
            Why::Size => "size",
            Why::String(EverTailFault::NoMemory)
            | Why::File(WriteFault::Offset | WriteFault::Footer | WriteFault::NoMemory) => "",
        }
    }
}
