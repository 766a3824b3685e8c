//! The release of a source.
ghost use Rattle.std.specs.{Prelude.{◌≡◌, ◌++◌, option_map, slice_get, OnOk}, List.{list_all}};
ghost use Rattle.zone_source.specs.{Lines.{lines_of}, Releases.{is_shown, is_release, behind_heading, named_by, line_naming, release_of}};

use crate::lines::{Lines, text_of};
use std::alloc::AllocError;

/// Whether the byte is of a character that is shown, and of no control character.
fn is_shown(byte: u8) -> bool
    ensures { result ≡ is_shown byte }
{
    32 <= byte && byte != 127
}

/// Whether the text can be a release: there is something, and no control character in it.
fn is_release(text: &[u8]) -> bool
    ensures { result ≡ is_release text.now }
{
    !text.is_empty() && are_shown(text)
}

/// Whether no byte is of a control character.
fn are_shown(text: &[u8]) -> bool
    ensures { result ≡ list_all is_shown text.now }
{
    text.iter().all(|byte| is_shown(*byte))
}

/// What stands behind `# version `, where the line begins with it.
fn behind_heading(line: &[u8]) -> Option<&[u8]>
    ensures { option_map (λ rest. rest.now) result ≡ behind_heading line.now }
{
    if line.starts_with(b"# version ") {
        Some(&line[10..])
    } else {
        None
    }
}

/// The release that a line names.
#[tactic(auto, unfolding(crate::specs::Releases::named_by))]
fn named_by(line: &[u8]) -> Option<&str>
    ensures { option_map (λ release. release.now) result ≡ named_by line.now }
{
    let release = behind_heading(line)?;
    if !is_release(release) {
        return None;
    }
    match text_of(release) {
        Some(text) => Some(text),
        None => None,
    }
}

/// The first line of a source, if it has one.
fn first_line(source: &[u8]) -> Option<&[u8]>
    ensures { option_map (λ line. line.now) result ≡ slice_get (lines_of source.now) 0 }
{
    let mut lines = Lines::new(source);
    match lines.next() {
        Some(line) => Some(line),
        None => None,
    }
}

/// The release that a source names: what its first line has behind `# version `, to the line's end, as it stands. It is none where that
/// is nothing, no UTF-8, or has a control character in it, and where the first line is another.
#[tactic(auto, unfolding(crate::specs::Releases::release_of))]
pub fn release_of(source: &[u8]) -> Option<&str>
    ensures { option_map (λ release. release.now) result ≡ release_of source.now }
{
    named_by(first_line(source)?)
}

/// Puts the line that names a release at the end, without a line feed.
///
/// # Errors
///
/// Want of memory alone.
#[tactic(auto, using(std::proofs::Common::append_assoc))]
pub fn put_release_line(into: &mut Vec<u8>, release: &str) -> Result<(), AllocError>
    ensures { OnOk result (into.new.items ≡ into.old.items ++ line_naming release.now) }
{
    into.extend_from_slice(b"# version ")?;
    into.extend_from_slice(release.as_bytes())?;
    Ok(())
}
