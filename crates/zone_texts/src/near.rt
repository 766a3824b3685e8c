//! Names that someone meant by a word that is no name.
ghost use Rattle.std.specs.Prelude.{◌≡◌, ◌++◌, ◌∷◌, [], map, IfOk, OnOk};
ghost use Rattle.zone_texts.specs.{Near.{has_slash, is_alike, is_last_part, near_names}, SeenNames.{name_seen}};

use crate::edit::{is_one_edit, same};
use crate::entry::NameEntry;
use std::alloc::{AllocError, Global};

fn has_slash(text: &[u8]) -> bool
    ensures { result ≡ has_slash text.now }
{
    text.contains(&b'/')
}

/// Whether a word stands behind the last slash of a name.
fn is_last_part(word: &[u8], name: &[u8]) -> bool
    ensures { result ≡ is_last_part word.now name.now }
{
    if has_slash(word) || name.len() <= word.len() {
        return false;
    }
    let start = name.len() - word.len();
    name[start - 1] == b'/' && same(&name[start..], word)
}

/// Whether a name is one edit apart from a word, or has it as its last part.
fn is_alike(word: &[u8], name: &[u8]) -> bool
    ensures { result ≡ is_alike word.now name.now }
{
    is_one_edit(word, name) || is_last_part(word, name)
}

/// The names of a source that someone may have meant by a word that is no name of it, in the order of the list and three at most. First
/// come those that are the same but for the case of ASCII letters; then, blind to it too, those that are one edit apart from the word (a byte more, a byte less,
/// another byte, two neighbours swapped) or have it behind their last slash.
///
/// # Errors
///
/// Want of memory alone.
#[tactic(auto, unfolding(crate::specs::Near::near_names))]
pub fn near_names<'s>(
    alloc: Global,
    entries: &[NameEntry<'s>],
    word: &str,
) -> Result<Vec<&'s str>, AllocError>
    ensures { IfOk result (λ near. map (λ name. name.now) near.items ≡ near_names (map name_seen entries.now) word.now) }
{
    let mut near = Vec::new(alloc);
    let mut alike = Vec::new(alloc);
    for entry in entries {
        if same(word.as_bytes(), entry.name.as_bytes()) {
            near.extend_from_slice(&[entry.name])?;
        }
        if is_alike(word.as_bytes(), entry.name.as_bytes()) {
            alike.extend_from_slice(&[entry.name])?;
        }
    }
    near.extend_from_slice(&alike)?;
    near.truncate(3);
    Ok(near)
}
