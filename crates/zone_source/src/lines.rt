//! The lines of a text of bytes, lent one by one; lines that are written one after another, in one buffer; and bytes as text.
ghost use Rattle.std.specs.{Prelude.{◌≡◌, true, false, IfSome, IfNone, ◌-◌, ◌<◌, ◌≤◌, [], ◌∷◌, ◌++◌, length, slice_get, slice_range, vec_len, vec_capacity, OnOk, OnErr}, List.{before_first, after_first, position_or_len}, Str.Lines.{strip_carriage_return}};
ghost use Rattle.std.specs.{Str.{is_utf8}, Option.{option_copied}};
ghost use Rattle.zone_source.specs.{Lines.{is_line_feed, lines_of}, LineLists.{ended, start_of}};

use memchr::memchr;
use std::alloc::{AllocError, Global};
use std::marker::Model;
use std::str;

/// The lines of a text: cut at each LF, a last empty piece left out, one CR at the end of a piece dropped.
#[derive(Drop)]
pub struct Lines<'a> {
    rest: &'a [u8],
}

impl<'a> Lines<'a> {
    ghost use Rattle.std.specs.Prelude.{◌≤◌, length};
    ghost use Rattle.zone_source.specs.LinesLeft.{lines_left};

    /// All lines of the text. Each takes a byte of it or more.
    #[tactic(auto, using(crate::proofs::LineLemmas::few_lines))]
    pub fn new(text: &'a [u8]) -> Lines<'a>
        ensures lines { lines_left result ≡ lines_of text.now }
        ensures few { length (lines_of text.now) ≤ length text.now }
    {
        Lines { rest: text }
    }
}

impl<'a> Iterator for Lines<'a> {
    type Item = &'a [u8];

    ghost use Rattle.std.specs.Iterator.{YieldsFirstRef, item_count};
    ghost use Rattle.zone_source.specs.LinesLeft.{lines_left};

    ghost next_gives = { YieldsFirstRef lines_left };

    ghost remaining = { item_count lines_left };

    #[tactic(auto, using(crate::proofs::LineLemmas::first_line))]
    fn next(&mut self) -> Option<&'a [u8]> {
        if self.rest.is_empty() {
            return None;
        }
        let (line, rest) = first_piece(self.rest);
        self.rest = rest;
        Some(without_carriage_return(line))
    }
}

/// The bytes before the first LF, and those after it.
fn first_piece(text: &[u8]) -> (&[u8], &[u8])
    ensures front { result.0.now ≡ before_first is_line_feed text.now }
    ensures back { result.1.now ≡ after_first is_line_feed text.now }
{
    let end = line_end(text);
    if end < text.len() {
        (&text[..end], &text[end + 1..])
    } else {
        (text, &text[text.len()..])
    }
}

/// The place of the first LF, or the length where there is none.
fn line_end(text: &[u8]) -> usize
    ensures { result ≡ position_or_len is_line_feed text.now }
{
    memchr(b'\n', text).unwrap_or(text.len())
}

fn without_carriage_return(line: &[u8]) -> &[u8]
    ensures { result.now ≡ strip_carriage_return line.now }
{
    line.strip_suffix(b"\r").unwrap_or(line)
}

/// The text that the bytes are, if they are UTF-8.
pub fn text_of(bytes: &[u8]) -> Option<&str>
    ensures text { IfSome result (λ text. (text.now ≡ bytes.now) × (is_utf8 bytes.now ≡ true)) }
    ensures none { IfNone result (is_utf8 bytes.now ≡ false) }
{
    match str::from_utf8(bytes) {
        Ok(text) => Some(text),
        Err(_) => None,
    }
}

/// A list of lines. Contracts see the list of the lines' bytes.
#[derive(Drop)]
pub struct LineList {
    // each line with its LF
    bytes: Vec<u8>,
    // where each line's LF is past
    ends: Vec<usize>,
}

impl Model for LineList {
    ghost use Rattle.std.specs.Prelude.{ℕ, List};
    ghost use Rattle.zone_source.specs.LineLists.{lines_between, AreEnds};

    ghost Value = { List (List ℕ) };

    ghost view = { λ list. lines_between 0 list.ends.items list.bytes.items };

    ghost invariant = { λ list. AreEnds 0 list.ends.items list.bytes.items };
}

impl LineList {
    /// No lines.
    pub fn new(alloc: Global) -> LineList
        ensures { result ≡ [] }
    {
        LineList {
            bytes: Vec::new(alloc),
            ends: Vec::new(alloc),
        }
    }

    /// Adds a line.
    ///
    /// # Errors
    ///
    /// Want of memory alone; nothing is added then.
    pub fn push(&mut self, line: &[u8]) -> Result<(), AllocError>
        ensures ok { OnOk result (self.new ≡ self.old ++ line.now ∷ []) }
        ensures err { OnErr result (self.new ≡ self.old) }
    {
        self.ends.reserve(1)?;
        add_line(&mut self.bytes, line)?;
        push_end(&mut self.ends, self.bytes.as_slice().len());
        Ok(())
    }

    /// How many lines there are.
    pub fn len(&self) -> usize
        ensures { result ≡ length self.now }
    {
        self.ends.as_slice().len()
    }

    /// The line at a place, from 0 on, without its LF; none exactly where the place is not below the length.
    pub fn get(&self, i: usize) -> Option<&[u8]>
        ensures { option_copied result ≡ slice_get self.now i }
    {
        let ends = self.ends.as_slice();
        if i >= ends.len() {
            return None;
        }
        let start = start_of(ends, i);
        Some(line_between(self.bytes.as_slice(), start, ends[i]))
    }

    /// The lines, each followed by an LF.
    pub fn as_bytes(&self) -> &[u8]
        ensures { result.now ≡ ended self.now }
    {
        &self.bytes
    }

    /// The lines, each followed by an LF, in a buffer of their own.
    pub fn into_bytes(self) -> Vec<u8>
        ensures { result.items ≡ ended self }
    {
        self.bytes
    }
}

/// Adds a line and its LF. On an error nothing is added.
fn add_line(bytes: &mut Vec<u8>, line: &[u8]) -> Result<(), AllocError>
    ensures ok { OnOk result (bytes.new.items ≡ (bytes.old.items ++ line.now) ++ 10 ∷ []) }
    ensures err { OnErr result (bytes.new.items ≡ bytes.old.items) }
{
    bytes.reserve(line.len() + 1)?;
    bytes.extend_from_slice(line).unwrap();
    bytes.push(b'\n').unwrap();
    Ok(())
}

fn push_end(ends: &mut Vec<usize>, end: usize)
    requires { vec_len ends.old < vec_capacity ends.old }
    ensures { ends.new.items ≡ ends.old.items ++ end ∷ [] }
{
    ends.push(end).unwrap();
}

/// Where the line at a place begins.
fn start_of(ends: &[usize], i: usize) -> usize
    requires { i < length ends.now }
    ensures { result ≡ start_of 0 ends.now i }
{
    if i == 0 { 0 } else { ends[i - 1] }
}

/// The bytes from a place on, up to the LF that ends before another.
fn line_between(bytes: &[u8], start: usize, end: usize) -> &[u8]
    requires rises { start < end }
    requires within { end ≤ length bytes.now }
    ensures { result.now ≡ slice_range bytes.now start (end - 1) }
{
    &bytes[start..end - 1]
}
