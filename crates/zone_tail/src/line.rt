//! The line of a string.
ghost use Rattle.std.specs.Prelude.{◌≡◌, ◌++◌, IfOk, OnOk, string_bytes};
ghost use Rattle.zone_tail.specs.Lines.{from_word, tail_line};

use crate::outcome::Tail;
use itoa::Buffer;
use std::alloc::{AllocError, Global};

/// The second from which on a string agrees, or `all`, a space, the string and a line feed.
pub(crate) fn line_of(alloc: Global, tail: &Tail) -> Result<Vec<u8>, AllocError>
    ensures { IfOk result (λ line. line.items ≡ tail_line tail.now.from (string_bytes tail.now.text)) }
{
    let mut line = Vec::new(alloc);
    add_from(&mut line, &tail.from)?;
    add(&mut line, b" ")?;
    add(&mut line, tail.text.as_bytes())?;
    add(&mut line, b"\n")?;
    Ok(line)
}

fn add_from(line: &mut Vec<u8>, from: &Option<i64>) -> Result<(), AllocError>
    ensures { OnOk result (line.new.items ≡ line.old.items ++ from_word from.now) }
{
    match from {
        Some(second) => {
            let mut buffer = Buffer::new();
            add(line, buffer.format(*second).as_bytes())
        }
        None => add(line, b"all"),
    }
}

fn add(line: &mut Vec<u8>, bytes: &[u8]) -> Result<(), AllocError>
    ensures { OnOk result (line.new.items ≡ line.old.items ++ bytes.now) }
{
    line.extend_from_slice(bytes)
}
