//! Names as they are listed.
ghost use Rattle.std.specs.{Prelude.{◌≡◌, ◌++◌, map, option_map, OnErr, OnOk}, List.{flat_map}};
ghost use Rattle.zone_texts.specs.{Same.{begins_so, has_word}, SeenNames.{name_seen}, Texts.{entry_text, is_asked, line_text, name_object, names_text, plain_text, zone_member}};

use crate::bytes::add_bytes;
use crate::edit::same;
use crate::entry::NameEntry;
use crate::object::add_quoted;
use std::alloc::{AllocError, Global};
use zone_words::AnswerForm;

/// Whether a text has a word in it, blind to the case of ASCII letters.
fn has_word(text: &[u8], word: &[u8]) -> bool
    ensures { result ≡ has_word text.now word.now }
{
    for start in 0..text.len() {
        if begins_so(&text[start..], word) {
            return true;
        }
    }
    word.is_empty()
}

fn begins_so(text: &[u8], word: &[u8]) -> bool
    ensures { result ≡ begins_so text.now word.now }
{
    word.len() <= text.len() && same(&text[..word.len()], word)
}

/// Whether a name has a word in it, where there is one.
fn is_asked(name: &str, word: Option<&str>) -> bool
    ensures { result ≡ is_asked (option_map (λ word. word.now) word.entry) name.now }
{
    match word {
        Some(word) => has_word(name.as_bytes(), word.as_bytes()),
        None => true,
    }
}

/// Adds a name, and where it leads.
#[tactic(auto, using(std::proofs::Common::append_assoc))]
fn add_plain(into: &mut Vec<u8>, entry: &NameEntry<'_>) -> Result<(), AllocError>
    ensures { OnOk result (into.new.items ≡ into.old.items ++ plain_text (name_seen entry.now).name (name_seen entry.now).zone) }
{
    add_bytes(into, entry.name.as_bytes())?;
    if let Some(zone) = entry.zone {
        add_bytes(into, b" -> ")?;
        add_bytes(into, zone.as_bytes())?;
    }
    Ok(())
}

/// Adds the zone that a name leads to, as a member of an object.
#[tactic(auto, using(std::proofs::Common::append_assoc))]
fn add_zone(into: &mut Vec<u8>, zone: Option<&str>) -> Result<(), AllocError>
    ensures { OnOk result (into.new.items ≡ into.old.items ++ zone_member (option_map (λ zone. zone.now) zone.entry)) }
{
    match zone {
        Some(zone) => {
            add_bytes(into, b",\"zone\":")?;
            add_quoted(into, zone)
        }
        None => Ok(()),
    }
}

/// Adds the object of a name.
#[tactic(auto, using(std::proofs::Common::append_assoc), unfolding(crate::specs::Texts::name_object))]
fn add_object(into: &mut Vec<u8>, entry: &NameEntry<'_>) -> Result<(), AllocError>
    ensures { OnOk result (into.new.items ≡ into.old.items ++ name_object (name_seen entry.now).name (name_seen entry.now).zone) }
{
    add_bytes(into, b"{\"name\":")?;
    add_quoted(into, entry.name)?;
    add_zone(into, entry.zone)?;
    add_bytes(into, b"}")
}

fn add_entry(into: &mut Vec<u8>, form: AnswerForm, entry: &NameEntry<'_>) -> Result<(), AllocError>
    ensures { OnOk result (into.new.items ≡ into.old.items ++ entry_text form (name_seen entry.now)) }
{
    match form {
        AnswerForm::People => add_plain(into, entry),
        AnswerForm::Rfc3339 => add_plain(into, entry),
        AnswerForm::Epoch => add_plain(into, entry),
        AnswerForm::Json => add_object(into, entry),
    }
}

/// Adds the line of a name, if it is asked for.
#[tactic(auto, using(std::proofs::Common::append_assoc))]
fn add_line(
    into: &mut Vec<u8>,
    form: AnswerForm,
    entry: &NameEntry<'_>,
    word: Option<&str>,
) -> Result<(), AllocError>
    ensures { OnOk result (into.new.items ≡ into.old.items ++ line_text form (option_map (λ word. word.now) word.entry) (name_seen entry.now)) }
{
    if !is_asked(entry.name, word) {
        return Ok(());
    }
    add_entry(into, form, entry)?;
    add_bytes(into, b"\n")
}

fn add_lines(
    into: &mut Vec<u8>,
    form: AnswerForm,
    entries: &[NameEntry<'_>],
    word: Option<&str>,
) -> Result<(), AllocError>
    ensures { OnOk result (into.new.items ≡ into.old.items ++ flat_map (line_text form (option_map (λ word. word.now) word.entry)) (map name_seen entries.now)) }
{
    for entry in entries {
        add_line(into, form, entry, word)?;
    }
    Ok(())
}

/// Adds a line for each name that has a word in it, blind to the case of ASCII letters, or for each where there is no word, in the order of
/// the list: the name, and behind ` -> ` the zone that it leads to where it is a link; in the form [`AnswerForm::Json`] an object with
/// `name` and, of a link, `zone`.
///
/// # Errors
///
/// Want of memory alone. The text is as before then.
#[tactic(auto, unfolding(crate::specs::Texts::names_text))]
pub fn add_names(
    into: &mut Vec<u8>,
    alloc: Global,
    form: AnswerForm,
    entries: &[NameEntry<'_>],
    word: Option<&str>,
) -> Result<(), AllocError>
    ensures ok { OnOk result (into.new.items ≡ into.old.items ++ names_text form (map name_seen entries.now) (option_map (λ word. word.now) word.entry)) }
    ensures err { OnErr result (into.new.items ≡ into.old.items) }
{
    let mut text = Vec::new(alloc);
    add_lines(&mut text, form, entries, word)?;
    into.extend_from_slice(&text)?;
    Ok(())
}
