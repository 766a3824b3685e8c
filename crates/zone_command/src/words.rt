//! The words of a line, and what they ask.
ghost use Rattle.std.specs.{Prelude.{◌≡◌, ◌==◌, [], ◌++◌, map, string_bytes, IfOk, OnOk}, List.{slice_split}};
ghost use Rattle.zone_command.specs.{Refusals.{IsTold}, Requests.{bare, has_option, request_of, word_in, words_among, words_of}, Told.{IsRequest}};
ghost use Rattle.zone_words.specs.{FaultLines.{fault_line}, Shown.{word_shown}, Told.{fault_shown}};

use crate::source::Refusal;
use std::alloc::{AllocError, Global};
use zone_words::{Asked, WordFault, fault_line, is_option, read_words};

/// The pieces of a text between spaces.
fn pieces_of(alloc: Global, text: &str) -> Result<Vec<&str>, AllocError>
    ensures { IfOk result (λ pieces. map (λ piece. piece.now) pieces.items ≡ slice_split (λ c. c == 32) text.now) }
{
    text.split(' ').collect(alloc)
}

/// Adds a piece that has a byte.
fn add_word(words: &mut Vec<String>, alloc: Global, piece: &str) -> Result<(), AllocError>
    ensures { OnOk result (map string_bytes words.new.items ≡ map string_bytes words.old.items ++ word_in piece.now) }
{
    if piece.is_empty() {
        return Ok(());
    }
    words.push(String::from_str(alloc, piece)?)?;
    Ok(())
}

/// The words among pieces.
fn words_among(alloc: Global, pieces: &[&str]) -> Result<Vec<String>, AllocError>
    ensures { IfOk result (λ words. map string_bytes words.items ≡ words_among [] (map word_shown pieces.now)) }
{
    let mut words = Vec::new(alloc);
    for piece in pieces {
        add_word(&mut words, alloc, *piece)?;
    }
    Ok(words)
}

/// The words of a text.
pub(crate) fn words_of(alloc: Global, text: &str) -> Result<Vec<String>, AllocError>
    ensures { IfOk result (λ words. map string_bytes words.items ≡ words_of text.now) }
{
    let pieces = pieces_of(alloc, text)?;
    words_among(alloc, &pieces)
}

/// Whether one of the words is an option.
fn has_option(words: &[String]) -> bool
    ensures { result ≡ has_option (map string_bytes words.now) }
{
    for word in words {
        if is_option(word.as_str()) {
            return true;
        }
    }
    false
}

/// These words, or want of memory.
pub(crate) fn refused(alloc: Global, why: &[u8]) -> Refusal
    ensures { IsTold (λ words. words ≡ why.now) result }
{
    let mut words = Vec::new(alloc);
    match words.extend_from_slice(why) {
        Ok(()) => Refusal::Why(words),
        Err(_) => Refusal::NoMemory,
    }
}

/// A line of the command without `zone: ` and its end.
fn bare(line: &[u8]) -> &[u8]
    ensures { result.now ≡ bare line.now }
{
    if line.len() < 7 {
        return &[];
    }
    &line[6..line.len() - 1]
}

/// The words of a fault, or want of memory.
fn fault_told(alloc: Global, fault: &WordFault<'_>) -> Refusal
    ensures { IsTold (λ words. words ≡ bare (fault_line (fault_shown fault.now))) result }
{
    match fault_line(alloc, fault) {
        Ok(line) => refused(alloc, bare(&line)),
        Err(_) => Refusal::NoMemory,
    }
}

/// What words ask of the command, without options.
///
/// # Errors
///
/// The words of the fault, or want of memory.
pub(crate) fn read_request(alloc: Global, words: &[String]) -> Result<Asked<'_>, Refusal>
    ensures { IsRequest (request_of (map string_bytes words.now)) result }
{
    if words.is_empty() {
        return Err(refused(alloc, b"a request is missing"));
    }
    if has_option(words) {
        return Err(refused(alloc, b"a request has no options"));
    }
    match read_words(alloc, words) {
        Ok(asked) => Ok(asked),
        Err(fault) => {
            if fault.cause.is_of_memory() {
                return Err(Refusal::NoMemory);
            }
            Err(fault_told(alloc, &fault))
        }
    }
}
