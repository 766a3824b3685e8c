//! Lines of logs, with the local time in place of a time.
ghost use Rattle.std.specs.{Prelude.{◌≡◌, ◌≤◌, ◌+◌, ℕ, ℤ, List, [], ◌++◌, length, Option, IfOk, OnOk, is_some, not}, List.{prefix_len}, Option.{unwrap_or}};
ghost use Rattle.civil_base.specs.DateTimes.{instant};
ghost use Rattle.zone_words.specs.Logs.{after_blanks, after_word, field_place, from_field, is_blank, log_front, replaced, shown_at};

use crate::fronts::Rewriter;
use crate::stamp::read_stamp;
use civil_base::OffsetDateTime;
use std::alloc::AllocError;

/// The last byte of a line at which its time may end, counted from 1.
const LAST_END: usize = 4096;

/// What shows an instant.
pub trait InstantTexts {
    /// The text of an instant, where there is one.
    ghost shown: { Self → ℤ → Option (List ℕ) };

    /// Adds the text of the instant to the output; whether there is one.
    ///
    /// # Errors
    ///
    /// Want of memory alone. Nothing is said then of the output.
    fn add_text(&mut self, time: OffsetDateTime, output: &mut Vec<u8>) -> Result<bool, AllocError>
        ensures same { shown self.new ≡ shown self.old }
        ensures there { IfOk result (λ there. there ≡ is_some (shown self.old (instant time))) }
        ensures text { OnOk result (output.new.items ≡ output.old.items ++ unwrap_or (shown self.old (instant time)) []) };
}

fn is_blank(byte: u8) -> bool
    ensures { result ≡ is_blank byte }
{
    byte == b' ' || byte == b'\t'
}

fn blanks_ahead(text: &[u8]) -> usize
    ensures { result ≡ prefix_len is_blank text.now }
{
    text.iter().take_while(|byte| is_blank(**byte)).count()
}

fn word_ahead(text: &[u8]) -> usize
    ensures { result ≡ prefix_len (λ c. not (is_blank c)) text.now }
{
    text.iter().take_while(|byte| !is_blank(**byte)).count()
}

fn after_blanks(text: &[u8]) -> &[u8]
    ensures rest { result.now ≡ after_blanks text.now }
    ensures within { length result.now ≤ length text.now }
{
    text.split_at(blanks_ahead(text)).1
}

fn after_word(text: &[u8]) -> &[u8]
    ensures rest { result.now ≡ after_word text.now }
    ensures within { length result.now ≤ length text.now }
{
    text.split_at(word_ahead(text)).1
}

/// The line from a field on; from its beginning, where that is 0.
#[tactic(auto, using(crate::proofs::LogLemmas::field_steps))]
fn from_field(line: &[u8], field: usize) -> &[u8]
    ensures rest { result.now ≡ from_field field line.now }
    ensures within { length result.now ≤ length line.now }
{
    if field == 0 {
        return line;
    }
    let mut text = after_blanks(line);
    'fields: for passed in 0..field - 1 {
        text = after_blanks(after_word(text));
    }
    text
}

fn field_place(line: &[u8], field: usize) -> usize
    ensures place { result ≡ field_place field line.now }
    ensures within { result ≤ length line.now }
{
    line.len() - from_field(line, field).len()
}

/// Adds the front of a line with what is shown for the time at a place, of so many bytes.
fn add_replaced<T: InstantTexts>(
    texts: &mut T,
    line: &[u8],
    at: usize,
    size: usize,
    time: OffsetDateTime,
    output: &mut Vec<u8>,
) -> Result<(), AllocError>
    requires { at + size ≤ length line.now }
    ensures same { T.shown texts.new ≡ T.shown texts.old }
    ensures text { OnOk result (output.new.items ≡ output.old.items ++ replaced line.now at size (T.shown texts.old (instant time))) }
{
    output.extend_from_slice(&line[..at])?;
    if texts.add_text(time, output)? {
        output.extend_from_slice(&line[at + size..])?;
    } else {
        output.extend_from_slice(&line[at..])?;
    }
    Ok(())
}

/// Adds the front of a line with what is shown for the time at a place, if one stands there.
fn add_shown<T: InstantTexts>(
    texts: &mut T,
    line: &[u8],
    at: usize,
    output: &mut Vec<u8>,
) -> Result<(), AllocError>
    requires { at ≤ length line.now }
    ensures same { T.shown texts.new ≡ T.shown texts.old }
    ensures text { OnOk result (output.new.items ≡ output.old.items ++ shown_at LAST_END (T.shown texts.old) at line.now) }
{
    let Some((time, size)) = read_stamp(&line[at..]) else {
        output.extend_from_slice(line)?;
        return Ok(());
    };
    if at + size > LAST_END {
        output.extend_from_slice(line)?;
        return Ok(());
    }
    add_replaced(texts, line, at, size, time, output)
}

/// What shows the time that a line begins with, or has in a field; a line without one stays as it is. Fields are the longest pieces
/// without spaces and tabs, counted from 1. A time has to end within the first 4,096 bytes of its line.
#[derive(Drop)]
pub struct LogTimes<T: InstantTexts + Drop> {
    texts: T,
    field: usize,
}

impl<T: InstantTexts + Drop> LogTimes<T> {
    /// Of times in the field of that number, at most 4,096; 0 stands for the beginning of the line, before any blank.
    pub fn new(texts: T, field: usize) -> LogTimes<T>
        requires { field ≤ 4096 }
        ensures { ⟦<LogTimes<T> as Rewriter>⟧.rewritten result ≡ log_front field (T.shown texts) }
    {
        LogTimes { texts, field }
    }
}

impl<T: InstantTexts + Drop> Rewriter for LogTimes<T> {
    ghost use Rattle.zone_words.specs.Logs.{log_front};

    ghost rewritten = { λ s. log_front s.field (T.shown s.texts) };

    fn rewrite(&mut self, front: &[u8], output: &mut Vec<u8>) -> Result<(), AllocError> {
        let at = field_place(front, self.field);
        add_shown(&mut self.texts, front, at, output)
    }
}
