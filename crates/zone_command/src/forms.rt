//! Texts that are refused at first sight, and the plain form of any other.
ghost use Rattle.std.specs.{Prelude.{◌≡◌, ◌≤◌, None, Some, IfErr, OnOk, length}, List.{count_by}};
ghost use Rattle.zone_command.specs.{Answers.{IsAnswer}, Refusals.{IsTold}, Sources.{cut_words, first_refusal, form_of, is_compiled, is_cut}};
ghost use Rattle.zone_source.specs.Lines.{is_line_feed};

use crate::source::Refusal;
use crate::source_words::{cut_words, fault_words};
use sefunjaro::{AnySourceFault, LineParser};
use std::alloc::Global;
use zone_plain::{PlainFault, plain};

/// What is told of a compiled file.
const COMPILED: &[u8] = b"this is a compiled file, and a source is wanted";

/// Whether a text begins as compiled files do.
fn is_compiled(text: &[u8]) -> bool
    ensures { result ≡ is_compiled text.now }
{
    text.starts_with(b"TZif")
}

/// Whether a text has bytes of which the last is no line feed.
fn is_cut(text: &[u8]) -> bool
    ensures { result ≡ is_cut text.now }
{
    !text.is_empty() && text[text.len() - 1] != b'\n'
}

/// How many line feeds a text has.
fn line_feeds(text: &[u8]) -> usize
    ensures { result ≡ count_by is_line_feed text.now }
{
    text.iter().filter(|byte| **byte == b'\n').count()
}

/// Refuses a text at first sight: a compiled file, or a source that was cut short.
#[tactic(auto, unfolding(crate::specs::Sources::first_refusal))]
pub(crate) fn look_at(alloc: Global, text: &[u8]) -> Result<(), Refusal>
    requires { length text.now ≤ 16777216 }
    ensures ok { OnOk result (first_refusal text.now ≡ None) }
    ensures err { IfErr result (IsTold (λ why. first_refusal text.now ≡ Some why)) }
{
    if is_compiled(text) {
        return Err(Refusal::Why(COMPILED.to_vec(alloc)?));
    }
    if is_cut(text) {
        return Err(Refusal::Why(cut_words(alloc, line_feeds(text) + 1)?));
    }
    Ok(())
}

/// The plain form of a text, or why it has none.
#[tactic(auto, unfolding(crate::specs::Sources::form_of))]
pub(crate) fn form_of(alloc: Global, text: &[u8]) -> Result<Vec<u8>, Refusal>
    requires { length text.now ≤ 16777216 }
    ensures { IsAnswer (form_of text.now) result }
{
    match look_at(alloc, text) {
        Ok(()) => {}
        Err(Refusal::Why(why)) => return Err(Refusal::Why(why)),
        Err(Refusal::NoMemory) => return Err(Refusal::NoMemory),
    }
    let Ok(parser) = LineParser::new(alloc) else {
        return Err(Refusal::NoMemory);
    };
    let fault = match plain(alloc, &parser, text) {
        Ok(form) => return Ok(form),
        Err(PlainFault::Line(line, cause)) => AnySourceFault::Line(line, cause),
        Err(PlainFault::TooLong) => AnySourceFault::PlainTooLong,
        Err(PlainFault::NoMemory) => return Err(Refusal::NoMemory),
    };
    Err(Refusal::Why(fault_words(alloc, &fault)?))
}
