//! Texts within XML.
ghost use Rattle.std.specs.Prelude.{◌≡◌, ◌++◌, OnOk};
ghost use Rattle.zone_texts.specs.Escapes.{escaped, escaped_text};

use std::alloc::AllocError;

fn add_escaped_byte(into: &mut Vec<u8>, byte: u8) -> Result<(), AllocError>
    ensures { OnOk result (into.new.items ≡ into.old.items ++ escaped byte) }
{
    match byte {
        b'&' => into.extend_from_slice(b"&amp;"),
        b'<' => into.extend_from_slice(b"&lt;"),
        b'>' => into.extend_from_slice(b"&gt;"),
        b'"' => into.extend_from_slice(b"&quot;"),
        _ => into.extend_from_slice(&[byte]),
    }
}

/// Adds a text as XML writes it.
#[tactic(auto, unfolding(crate::specs::Escapes::escaped_text))]
pub(crate) fn add_escaped(into: &mut Vec<u8>, text: &[u8]) -> Result<(), AllocError>
    ensures { OnOk result (into.new.items ≡ into.old.items ++ escaped_text text.now) }
{
    for byte in text {
        add_escaped_byte(into, *byte)?;
    }
    Ok(())
}
