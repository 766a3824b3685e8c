//! Requests a line, answered as their lines are whole.
ghost use Rattle.std.specs.{Prelude.{◌≡◌, ◌<◌, ◌≤◌, ℕ, true, Bool, List, [], ◌++◌, length, take, IfOk, OnOk, MatchOption, ◌||◌}, Str.Lines.{strip_carriage_return}};
ghost use Rattle.zone_words.specs.{Cuts.{IsCut, IsUncut}, Lines.{lines_behind, open_behind, last_line}, Replies.{Replies, answer, answers, any_fails, fails, longest}};

use crate::filter::Filter;
use crate::held::{Held, ROOM};
use memchr::memchr;
use std::alloc::{AllocError, Global};

/// The most bytes that a request may have.
pub const LONGEST: usize = 4096;

/// What answers requests.
pub trait Responder {
    /// The response to each request.
    ghost replies: { Self → Replies };

    /// Adds the response to the request, of at most [`LONGEST`] bytes, to the output; whether it is a fault.
    ///
    /// # Errors
    ///
    /// Want of memory alone. Nothing is said then of the output.
    fn respond(&mut self, request: &[u8], output: &mut Vec<u8>) -> Result<bool, AllocError>
        requires { length request.now ≤ LONGEST }
        ensures same { replies self.new ≡ replies self.old }
        ensures response { OnOk result (output.new.items ≡ output.old.items ++ (replies self.old).response request.now) }
        ensures fault { IfOk result (λ fault. fault ≡ (replies self.old).is_fault request.now) };

    /// Adds the response to a request that is too long to the output.
    ///
    /// # Errors
    ///
    /// Want of memory alone. Nothing is said then of the output.
    fn refuse_long(&mut self, output: &mut Vec<u8>) -> Result<(), AllocError>
        ensures same { replies self.new ≡ replies self.old }
        ensures response { OnOk result (output.new.items ≡ output.old.items ++ (replies self.old).to_long) };
}

/// Answers the request of a line.
fn answer_line<R: Responder>(
    responder: &mut R,
    line: &[u8],
    output: &mut Vec<u8>,
) -> Result<bool, AllocError>
    ensures same { R.replies responder.new ≡ R.replies responder.old }
    ensures answer { OnOk result (output.new.items ≡ output.old.items ++ answer longest (R.replies responder.old) line.now) }
    ensures fault { IfOk result (λ fault. fault ≡ fails longest (R.replies responder.old) line.now) }
{
    let request = without_carriage_return(line);
    if request.len() > LONGEST {
        responder.refuse_long(output)?;
        return Ok(true);
    }
    responder.respond(request, output)
}

fn without_carriage_return(line: &[u8]) -> &[u8]
    ensures { result.now ≡ strip_carriage_return line.now }
{
    line.strip_suffix(b"\r").unwrap_or(line)
}

/// Answers the line that is held and goes on with these bytes, and holds nothing then.
fn answer_held<R: Responder>(
    responder: &mut R,
    held: &mut Held,
    more: &[u8],
    output: &mut Vec<u8>,
) -> Result<bool, AllocError>
    ensures same { R.replies responder.new ≡ R.replies responder.old }
    ensures held { held.new ≡ [] }
    ensures answer { OnOk result (output.new.items ≡ output.old.items ++ answer longest (R.replies responder.old) (held.old ++ more.now)) }
    ensures fault { IfOk result (λ fault. fault ≡ fails longest (R.replies responder.old) (held.old ++ more.now)) }
{
    if held.as_bytes().is_empty() {
        return answer_line(responder, more, output);
    }
    held.add(more);
    let fault = answer_line(responder, held.as_bytes(), output);
    held.clear();
    fault
}

/// The bytes before the first LF, and those after it; none where there is no LF.
pub(crate) fn cut_line(bytes: &[u8]) -> Option<(&[u8], &[u8])>
    ensures { MatchOption result (IsUncut bytes.now) (λ x. IsCut bytes.now x.0.now x.1.now) }
{
    match memchr(b'\n', bytes) {
        Some(end) => Some((&bytes[..end], &bytes[end + 1..])),
        None => None,
    }
}

/// Whether one or the other holds.
pub(crate) fn either(one: bool, other: bool) -> bool
    ensures { result ≡ (one || other) }
{
    one || other
}

/// Answers the lines that are whole with this piece, and holds the front of the open one.
fn answer_piece<R: Responder>(
    responder: &mut R,
    held: &mut Held,
    piece: &[u8],
    output: &mut Vec<u8>,
) -> Result<bool, AllocError>
    ensures same { R.replies responder.new ≡ R.replies responder.old }
    ensures held { OnOk result (held.new ≡ take ROOM (open_behind held.old piece.now)) }
    ensures answers { OnOk result (output.new.items ≡ output.old.items ++ answers (R.replies responder.old) (lines_behind held.old piece.now)) }
    ensures fault { IfOk result (λ fault. fault ≡ any_fails (R.replies responder.old) (lines_behind held.old piece.now)) }
{
    let mut rest = piece;
    let mut fault = false;
    'lines: while let Some((line, after)) = cut_line(rest) {
        let fails = answer_held(responder, held, line, output)?;
        fault = either(fault, fails);
        rest = after;
    }
    held.add(rest);
    Ok(fault)
}

/// Answers the line that is held, where one is.
fn answer_last<R: Responder>(
    responder: &mut R,
    held: &Held,
    output: &mut Vec<u8>,
) -> Result<bool, AllocError>
    ensures same { R.replies responder.new ≡ R.replies responder.old }
    ensures answers { OnOk result (output.new.items ≡ output.old.items ++ answers (R.replies responder.old) (last_line held.now)) }
    ensures fault { IfOk result (λ fault. fault ≡ any_fails (R.replies responder.old) (last_line held.now)) }
{
    if held.as_bytes().is_empty() {
        return Ok(false);
    }
    answer_line(responder, held.as_bytes(), output)
}

/// Requests a line, answered as soon as their lines are whole. Of an open line at most 4,098 bytes are held.
#[derive(Drop)]
pub struct LineAnswers<R: Responder + Drop> {
    responder: R,
    held: Held,
}

impl<R: Responder + Drop> LineAnswers<R> {
    ghost use Rattle.zone_words.specs.Filters.{replied};

    /// What answers the requests of an input that has not come yet.
    ///
    /// # Errors
    ///
    /// Want of memory for the open line alone.
    pub fn new(alloc: Global, responder: R) -> Result<LineAnswers<R>, AllocError>
        ensures made { IfOk result (λ s. ⟦<LineAnswers<R> as Filter>⟧.made s ≡ replied (R.replies responder)) }
        ensures fed { IfOk result (λ s. ⟦<LineAnswers<R> as Filter>⟧.was_fed s []) }
    {
        let held = Held::new(alloc)?;
        Ok(LineAnswers { responder, held })
    }
}

impl<R: Responder + Drop> Filter for LineAnswers<R> {
    ghost use Rattle.std.specs.Prelude.{take, ◌≡◌};
    ghost use Rattle.zone_words.specs.{Filters.{begins_empty, replied}, Lines.{open_line}};

    ghost made = { λ s. replied (R.replies s.responder) };

    ghost was_fed = { λ s fed. s.held ≡ take 4098 (open_line fed) };

    fn feed(&mut self, piece: &[u8], output: &mut Vec<u8>) -> Result<bool, AllocError> {
        answer_piece(&mut self.responder, &mut self.held, piece, output)
    }

    fn close(&mut self, output: &mut Vec<u8>) -> Result<bool, AllocError> {
        answer_last(&mut self.responder, &self.held, output)
    }

    ghost begins = { λ s. begins_empty (R.replies s.responder) };
}
