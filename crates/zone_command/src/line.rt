//! The words that tell what a word lacks, and their line.
ghost use Rattle.std.specs.Prelude.{◌≡◌, IfOk};
ghost use Rattle.zone_command.specs.Refusals.{fault_words, name_words, told_line};

use std::alloc::{AllocError, Global};
use zone_texts::ReplyFault;
use zone_words::add_told_word;

/// A word in quotes, as words are told, and what is told of it.
///
/// # Errors
///
/// Want of memory alone.
pub fn name_words(alloc: Global, word: &str, why: &[u8]) -> Result<Vec<u8>, AllocError>
    ensures { IfOk result (λ words. words.items ≡ name_words word.now why.now) }
{
    let mut words = Vec::new(alloc);
    words.push(b'"')?;
    add_told_word(&mut words, word)?;
    words.extend_from_slice(b"\": ")?;
    words.extend_from_slice(why)?;
    Ok(words)
}

/// The line that tells these words.
///
/// # Errors
///
/// Want of memory alone.
pub fn told_line(alloc: Global, words: &[u8]) -> Result<Vec<u8>, AllocError>
    ensures { IfOk result (λ line. line.items ≡ told_line words.now) }
{
    let mut line = Vec::new(alloc);
    line.extend_from_slice(b"zone: ")?;
    line.extend_from_slice(words)?;
    line.push(b'\n')?;
    Ok(line)
}

/// The line that tells what a word lacks.
pub(crate) fn named_line(alloc: Global, word: &str, why: &[u8]) -> Result<Vec<u8>, AllocError>
    ensures { IfOk result (λ line. line.items ≡ told_line (name_words word.now why.now)) }
{
    let words = name_words(alloc, word, why)?;
    told_line(alloc, &words)
}

/// What is told of a fault of a reply.
pub(crate) fn fault_words(fault: ReplyFault) -> &'static str
    ensures { result.now ≡ fault_words fault }
{
    match fault {
        ReplyFault::OutOfYears => "a date lies outside the years -9999 to 9999",
        ReplyFault::Untold => "the zone's rules end before that year",
        ReplyFault::Skipped => "clocks skip this local time",
        ReplyFault::NoMemory => "out of memory",
    }
}
