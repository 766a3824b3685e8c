//! What is written, by its parts.
ghost use Rattle.std.specs.Prelude.{◌≡◌, [], ◌∷◌, ◌++◌, IfOk, OnOk};
ghost use Rattle.zone_table.specs.Values.{line_value};
ghost use Rattle.zone_plain.specs.Written.{Rules, Zones, Links, line_text, part_text};

use std::alloc::{AllocError, Global};
use zone_line::Line;
use zone_plain_lines::put_plain;

/// What is written, by its parts.
#[derive(Drop)]
pub(crate) struct Parts {
    /// The rules.
    pub(crate) rules: Vec<u8>,
    /// The zones, with their continuations.
    pub(crate) zones: Vec<u8>,
    /// The links.
    pub(crate) links: Vec<u8>,
}

/// Writes a text and a line feed.
#[tactic(auto, using(std::proofs::Common::append_assoc))]
pub(crate) fn put_text(into: &mut Vec<u8>, text: &[u8]) -> Result<(), AllocError>
    ensures { OnOk result (into.new.items ≡ into.old.items ++ (text.now ++ 10 ∷ [])) }
{
    into.extend_from_slice(text)?;
    into.extend_from_slice(b"\n")?;
    Ok(())
}

/// Writes a line.
#[tactic(auto, using(std::proofs::Common::append_assoc))]
fn put_line(into: &mut Vec<u8>, line: &Line<'_>) -> Result<(), AllocError>
    ensures { OnOk result (into.new.items ≡ into.old.items ++ line_text (line_value line.now)) }
{
    put_plain(into, line)?;
    into.extend_from_slice(b"\n")?;
    Ok(())
}

/// Writes a line in its part, if it belongs to one.
pub(crate) fn put_in_part(parts: &mut Parts, line: &Line<'_>) -> Result<(), AllocError>
    ensures rules { OnOk result (parts.new.rules.items ≡ parts.old.rules.items ++ part_text Rules (line_value line.now)) }
    ensures zones { OnOk result (parts.new.zones.items ≡ parts.old.zones.items ++ part_text Zones (line_value line.now)) }
    ensures links { OnOk result (parts.new.links.items ≡ parts.old.links.items ++ part_text Links (line_value line.now)) }
{
    match line {
        Line::Space => Ok(()),
        Line::Zone(_) => { put_line(&mut parts.zones, line) }
        Line::Continuation(_) => { put_line(&mut parts.zones, line) }
        Line::Rule(_) => { put_line(&mut parts.rules, line) }
        Line::Link(_) => { put_line(&mut parts.links, line) }
    }
}

/// The parts one after another, other rules behind the rules.
pub(crate) fn joined(parts: Parts, made: &[u8]) -> Result<Vec<u8>, AllocError>
    ensures { IfOk result (λ bytes. bytes.items ≡ ((parts.rules.items ++ made.now) ++ parts.zones.items) ++ parts.links.items) }
{
    let Parts {
        rules: mut bytes,
        zones,
        links,
    } = parts;
    bytes.extend_from_slice(made)?;
    bytes.extend_from_slice(zones.as_slice())?;
    bytes.extend_from_slice(links.as_slice())?;
    Ok(bytes)
}
