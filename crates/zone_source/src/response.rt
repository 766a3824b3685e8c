//! What a run over a text is to write, and the lines of faults as bytes.
ghost use Rattle.std.specs.Prelude.{◌≡◌, ◌++◌, ◌∷◌, [], IfOk};
ghost use Rattle.zone_source.specs.{FaultLines.{line_shown, source_line as source_text, IsShort}, Responses.{IsLineOf}, Told.{told_by_source}};

use crate::error::SourceError;
use crate::fault_line::{FaultText, write_fault_line};
use std::alloc::{AllocError, Global};

/// What a run is to write.
#[derive(Drop)]
pub enum Response {
    /// The answer of the program.
    Answer(Vec<u8>),
    /// The line of the first cause, with its LF.
    Fault(Vec<u8>),
}

/// A line that tells a fault of a source, with its LF. Side, group and cause have at most 40 bytes together.
fn fault_bytes(alloc: Global, text: &FaultText) -> Result<Vec<u8>, AllocError>
    requires { IsShort text.now }
    ensures { IfOk result (λ line. line.items ≡ line_shown text.now ++ 10 ∷ []) }
{
    let mut shown = [0; 64];
    let end = write_fault_line(text, &mut shown);
    let mut line = Vec::new(alloc);
    line.extend_from_slice(&shown[..end])?;
    Ok(line)
}

/// The line of a source's fault, with its LF; want of memory has none.
///
/// # Errors
///
/// `AllocError` where the fault is want of memory, or memory runs out.
pub fn source_fault_bytes(alloc: Global, error: &SourceError) -> Result<Vec<u8>, AllocError>
    ensures { IfOk result (λ line. IsLineOf source_text (told_by_source error.now) line.items) }
{
    match FaultText::of_source(error) {
        Some(text) => fault_bytes(alloc, &text),
        None => Err(AllocError),
    }
}
