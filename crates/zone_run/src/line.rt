//! The lines of causes.
ghost use Rattle.std.specs.Prelude.{◌≡◌, ◌++◌, ◌∷◌, [], IfOk};
ghost use Rattle.zone_run.specs.Due.{labelled};

use std::alloc::{AllocError, Global};

/// The line that tells a cause after the program's label, with its LF; `group` is empty, or has a space at its end.
pub(crate) fn cause_line(
    alloc: Global,
    label: &str,
    group: &str,
    why: &str,
) -> Result<Vec<u8>, AllocError>
    ensures { IfOk result (λ line. line.items ≡ labelled label.now group.now why.now ++ 10 ∷ []) }
{
    let mut line = Vec::new(alloc);
    line.extend_from_slice(label.as_bytes())?;
    line.extend_from_slice(b": ")?;
    line.extend_from_slice(group.as_bytes())?;
    line.extend_from_slice(why.as_bytes())?;
    line.push(b'\n')?;
    Ok(line)
}
