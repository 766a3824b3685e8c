//! Lines of any length of which only the front is rewritten, in bounded memory.
ghost use Rattle.std.specs.Prelude.{◌≡◌, ◌≤◌, ℕ, List, [], ◌∷◌, ◌++◌, length, take, drop, IfOk, OnOk};
ghost use Rattle.zone_words.specs.{Fronts.{Passes, PassesAll, closed_line, ended_line, passed, passed_end, rewritten_line}, Room.{room}};

use crate::filter::Filter;
use crate::held::{Held, ROOM};
use crate::requests::cut_line;
use std::alloc::{AllocError, Global};

/// What rewrites the fronts of lines.
pub trait Rewriter {
    /// What a front becomes.
    ghost rewritten: { Self → List ℕ → List ℕ };

    /// Adds what the front of a line becomes to the output: the line, where it has at most 4,098 bytes, else so many of it.
    ///
    /// # Errors
    ///
    /// Want of memory alone. Nothing is said then of the output.
    fn rewrite(&mut self, front: &[u8], output: &mut Vec<u8>) -> Result<(), AllocError>
        requires { length front.now ≤ 4098 }
        ensures same { rewritten self.new ≡ rewritten self.old }
        ensures text { OnOk result (output.new.items ≡ output.old.items ++ rewritten self.old front.now) };
}

/// The first bytes of a line, and those after them.
fn cut_front(line: &[u8]) -> (&[u8], &[u8])
    ensures front { result.0.now ≡ take 4098 line.now }
    ensures within { length result.0.now ≤ 4098 }
    ensures rest { result.1.now ≡ drop 4098 line.now }
{
    if line.len() <= ROOM {
        (line, &[])
    } else {
        (&line[..ROOM], &line[ROOM..])
    }
}

/// Adds a line with its front rewritten.
fn add_line<R: Rewriter>(
    rewriter: &mut R,
    line: &[u8],
    output: &mut Vec<u8>,
) -> Result<(), AllocError>
    ensures same { R.rewritten rewriter.new ≡ R.rewritten rewriter.old }
    ensures text { OnOk result (output.new.items ≡ output.old.items ++ rewritten_line room (R.rewritten rewriter.old) line.now) }
{
    let (front, rest) = cut_front(line);
    rewriter.rewrite(front, output)?;
    output.extend_from_slice(rest)?;
    Ok(())
}

/// Adds more to an open line of which the front is held; all that has come goes out once the front has.
fn grow<R: Rewriter>(
    rewriter: &mut R,
    held: &mut Held,
    more: &[u8],
    output: &mut Vec<u8>,
) -> Result<(), AllocError>
    ensures same { R.rewritten rewriter.new ≡ R.rewritten rewriter.old }
    ensures held { OnOk result (held.new ≡ take ROOM (held.old ++ more.now)) }
    ensures text { OnOk result (output.new.items ≡ output.old.items ++ passed room (R.rewritten rewriter.old) held.old more.now) }
{
    let free = ROOM - held.as_bytes().len();
    held.add(more);
    if free == 0 {
        output.extend_from_slice(more)?;
        return Ok(());
    }
    if more.len() < free {
        return Ok(());
    }
    rewriter.rewrite(held.as_bytes(), output)?;
    output.extend_from_slice(&more[free..])?;
    Ok(())
}

/// Adds what is due besides of a last line without an LF.
fn pass_last<R: Rewriter>(
    rewriter: &mut R,
    held: &Held,
    output: &mut Vec<u8>,
) -> Result<(), AllocError>
    ensures same { R.rewritten rewriter.new ≡ R.rewritten rewriter.old }
    ensures text { OnOk result (output.new.items ≡ output.old.items ++ closed_line room (R.rewritten rewriter.old) held.now) }
{
    let front = held.as_bytes();
    if front.is_empty() || front.len() >= ROOM {
        return Ok(());
    }
    rewriter.rewrite(front, output)?;
    Ok(())
}

/// Ends the open line of which the front is held by these bytes and an LF; nothing is held then.
fn end_line<R: Rewriter>(
    rewriter: &mut R,
    held: &mut Held,
    line: &[u8],
    output: &mut Vec<u8>,
) -> Result<(), AllocError>
    ensures same { R.rewritten rewriter.new ≡ R.rewritten rewriter.old }
    ensures held { OnOk result (held.new ≡ []) }
    ensures text { OnOk result (output.new.items ≡ output.old.items ++ passed_end room (R.rewritten rewriter.old) held.old line.now) }
{
    if held.as_bytes().is_empty() {
        add_line(rewriter, line, output)?;
        output.push(b'\n')?;
        return Ok(());
    }
    grow(rewriter, held, line, output)?;
    pass_last(rewriter, held, output)?;
    held.clear();
    output.push(b'\n')?;
    Ok(())
}

/// Passes the lines that are whole with this piece on, and of the open one all that can go out.
fn pass_piece<R: Rewriter>(
    rewriter: &mut R,
    held: &mut Held,
    piece: &[u8],
    output: &mut Vec<u8>,
) -> Result<(), AllocError>
    ensures same { R.rewritten rewriter.new ≡ R.rewritten rewriter.old }
    ensures passes { OnOk result (PassesAll (R.rewritten rewriter.old) held.old piece.now held.new output.old.items output.new.items) }
{
    let mut rest = piece;
    'lines: while let Some((line, after)) = cut_line(rest) {
        end_line(rewriter, held, line, output)?;
        rest = after;
    }
    grow(rewriter, held, rest, output)?;
    Ok(())
}

/// Lines of any length whose fronts are rewritten, each as soon as its front or its LF has come. At most 4,098 bytes are held.
#[derive(Drop)]
pub struct LineRewrites<R: Rewriter + Drop> {
    rewriter: R,
    held: Held,
}

impl<R: Rewriter + Drop> LineRewrites<R> {
    ghost use Rattle.zone_words.specs.Fronts.{fronts_rewritten};

    /// What rewrites the lines of an input that has not come yet.
    ///
    /// # Errors
    ///
    /// Want of memory for the front of the open line alone.
    pub fn new(alloc: Global, rewriter: R) -> Result<LineRewrites<R>, AllocError>
        ensures made { IfOk result (λ s. ⟦<LineRewrites<R> as Filter>⟧.made s ≡ fronts_rewritten (R.rewritten rewriter)) }
        ensures fed { IfOk result (λ s. ⟦<LineRewrites<R> as Filter>⟧.was_fed s []) }
    {
        let held = Held::new(alloc)?;
        Ok(LineRewrites { rewriter, held })
    }
}

impl<R: Rewriter + Drop> Filter for LineRewrites<R> {
    ghost use Rattle.std.specs.Prelude.{take, ◌≡◌};
    ghost use Rattle.zone_words.specs.{Fronts.{fronts_begin_empty, fronts_rewritten}, Lines.{open_line}};

    ghost made = { λ s. fronts_rewritten (R.rewritten s.rewriter) };

    ghost was_fed = { λ s fed. s.held ≡ take 4098 (open_line fed) };

    fn feed(&mut self, piece: &[u8], output: &mut Vec<u8>) -> Result<bool, AllocError> {
        pass_piece(&mut self.rewriter, &mut self.held, piece, output)?;
        Ok(false)
    }

    fn close(&mut self, output: &mut Vec<u8>) -> Result<bool, AllocError> {
        pass_last(&mut self.rewriter, &self.held, output)?;
        Ok(false)
    }

    ghost begins = { λ s. fronts_begin_empty (R.rewritten s.rewriter) };
}
