//! Why a file or a request is refused.
ghost use Rattle.std.specs.Prelude.{◌≡◌, ◌++◌, ◌∷◌, [], ◌≤◌, length, true, IfSome, is_some, IfOk};
ghost use Rattle.zone_file_answers.specs.{Faults.{fault_line, file_refused, request_line}, Told.{fault_told}};

use std::alloc::{AllocError, Global};
use thiserror::Error;
use zone_source::{FaultText, write_fault_line};

/// The first fault of a file and its requests. Lines are numbered from 1.
#[derive(Clone, Copy, Debug, PartialEq, Eq, Error)]
pub enum FileFault {
    /// The file is no compiled zone that can be looked up.
    #[error("file: refused")]
    File,
    /// The request line is not UTF-8.
    #[error("request {0}: not text")]
    NotText(usize),
    /// The request is in no form.
    #[error("request {0}: request")]
    Request(usize),
    /// The UTC date or the local date of the asked instant lies outside the years -9999 to 9999.
    #[error("request {0}: range")]
    Range(usize),
    /// Memory ran out.
    #[error("out of memory")]
    NoMemory,
}

impl From<AllocError> for FileFault {
    ghost use Rattle.std.specs.Prelude.{◌≡◌};
    ghost use Rattle.zone_file_answers.specs.declared.fault.FileFault.TheVariants.{NoMemory};

    ghost from_gives = { λ _ fault. fault ≡ NoMemory };

    fn from(_: AllocError) -> FileFault {
        FileFault::NoMemory
    }
}

/// The line that tells a fault, with its LF; want of memory has none.
pub(crate) fn line_of(alloc: Global, fault: FileFault) -> Result<Vec<u8>, AllocError>
    ensures line { IfOk result (λ line. IfSome (fault_told fault) (λ f. line.items ≡ fault_line f ++ 10 ∷ [])) }
    ensures told { IfOk result (λ _. is_some (fault_told fault) ≡ true) }
{
    match fault {
        FileFault::File => file_line(alloc),
        FileFault::NotText(number) => request_line(alloc, number, "not text"),
        FileFault::Request(number) => request_line(alloc, number, "request"),
        FileFault::Range(number) => request_line(alloc, number, "range"),
        FileFault::NoMemory => Err(AllocError),
    }
}

fn file_line(alloc: Global) -> Result<Vec<u8>, AllocError>
    ensures { IfOk result (λ line. line.items ≡ file_refused ++ 10 ∷ []) }
{
    let mut line = Vec::new(alloc);
    line.extend_from_slice(b"file: refused")?;
    line.push(b'\n')?;
    Ok(line)
}

/// The line of a request's fault.
fn request_line(alloc: Global, number: usize, cause: &'static str) -> Result<Vec<u8>, AllocError>
    requires { length cause.now ≤ 32 }
    ensures { IfOk result (λ line. line.items ≡ request_line number cause.now ++ 10 ∷ []) }
{
    let text = FaultText {
        side: "request ",
        number,
        group: "",
        cause,
    };
    let mut shown = [0; 64];
    let end = write_fault_line(&text, &mut shown);
    let mut line = Vec::new(alloc);
    line.extend_from_slice(&shown[..end])?;
    Ok(line)
}
