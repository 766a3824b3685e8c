//! The line that tells a fault of words.
ghost use Rattle.std.specs.Prelude.{◌≡◌, ◌++◌, ◌∷◌, [], IfOk, OnOk};
ghost use Rattle.zone_words.specs.{FaultLines.{cause_text, fault_line, quoted}, Told.{fault_shown}};

use crate::told_word::add_told_word;
use crate::{WordCause, WordFault};
use std::alloc::{AllocError, Global};

/// What is told of a cause.
fn cause_text(cause: WordCause) -> &'static str
    ensures { result.now ≡ cause_text cause }
{
    match cause {
        WordCause::UnknownOption =>
            "no option has this name; zone --help tells them, and a value is a word of its own, as in --from 2024-10-27",
        WordCause::ValueMissing => "a word is missing behind this option",
        WordCause::Twice => "this option is there twice, or beside another of its kind",
        WordCause::CommandMissing => "a command is missing, as in zone at Europe/Paris now",
        WordCause::UnknownCommand => "no command has this name; zone --help tells them",
        WordCause::OtherOption => "this option goes with another command",
        WordCause::TooFew => "words are missing behind this command",
        WordCause::TooMany => "this word is one too many",
        WordCause::FirstMissing => "the first day is missing, as in --from 2024-10-27",
        WordCause::EndMissing => "the end is missing, as in --count 7 or --until 2024-12-31",
        WordCause::BeforeFirst => "the last day comes before the first",
        WordCause::Number => "a number goes from 1 to 65535",
        WordCause::Weekdays => "weekdays are missing, as in mon,thu",
        WordCause::GapRule => "a rule for gaps is skip, before or after",
        WordCause::FoldRule => "a rule for folds is first, second or both",
        WordCause::Year => "a year goes from 0 to 9999",
        WordCause::Text(fault) => fault.text(),
        WordCause::NoMemory => "out of memory",
    }
}

/// Adds the words at fault in quotes, with a colon and a space; nothing where no word is.
#[tactic(auto, using(std::proofs::Common::append_assoc))]
fn add_quoted(into: &mut Vec<u8>, fault: &WordFault<'_>) -> Result<(), AllocError>
    ensures { OnOk result (into.new.items ≡ into.old.items ++ quoted (fault_shown fault.now)) }
{
    if fault.word.is_empty() {
        return Ok(());
    }
    into.extend_from_slice(b"\"")?;
    add_told_word(into, fault.word)?;
    if let Some(more) = fault.more {
        into.extend_from_slice(b" ")?;
        add_told_word(into, more)?;
    }
    into.extend_from_slice(b"\": ")?;
    Ok(())
}

/// The line that tells a fault, with its line feed, as in `zone: "2024-10-27": a time of day is missing, as in 2024-10-27 02:30`.
///
/// # Errors
///
/// Want of memory alone.
#[tactic(auto, unfolding(crate::specs::FaultLines::fault_line))]
pub fn fault_line(alloc: Global, fault: &WordFault<'_>) -> Result<Vec<u8>, AllocError>
    ensures { IfOk result (λ line. line.items ≡ fault_line (fault_shown fault.now)) }
{
    let mut line = Vec::new(alloc);
    line.extend_from_slice(b"zone: ")?;
    add_quoted(&mut line, fault)?;
    line.extend_from_slice(cause_text(fault.cause).as_bytes())?;
    line.extend_from_slice(b"\n")?;
    Ok(line)
}
