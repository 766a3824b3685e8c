//! What is said of a word that is no name.
ghost use Rattle.std.specs.Prelude.{◌≡◌, ◌++◌, map, OnErr, OnOk};
ghost use Rattle.zone_texts.specs.Unknown.{choices_text, question_text, separator, unknown_text};

use std::alloc::{AllocError, Global};

/// What stands between a name and so many others.
fn separator(others: usize) -> &'static [u8]
    ensures { result.now ≡ separator others }
{
    match others {
        0 => b"",
        1 => b" or ",
        _ => b", ",
    }
}

/// Adds names, with ` or ` between the last two and commas before.
#[tactic(auto, using(std::proofs::Common::append_assoc))]
fn add_choices(into: &mut Vec<u8>, names: &[&str]) -> Result<(), AllocError>
    ensures { OnOk result (into.new.items ≡ into.old.items ++ choices_text (map (λ name. name.now) names.now)) }
{
    let mut others = names.len();
    for name in names {
        others -= 1;
        into.extend_from_slice(name.as_bytes())?;
        into.extend_from_slice(separator(others))?;
    }
    Ok(())
}

/// Adds the question whether one of some names was meant.
#[tactic(auto, using(std::proofs::Common::append_assoc))]
fn add_question(into: &mut Vec<u8>, near: &[&str]) -> Result<(), AllocError>
    ensures { OnOk result (into.new.items ≡ into.old.items ++ question_text (map (λ name. name.now) near.now)) }
{
    if near.is_empty() {
        return Ok(());
    }
    into.extend_from_slice(b"; did you mean ")?;
    add_choices(into, near)?;
    into.extend_from_slice(b"?")?;
    Ok(())
}

/// Adds that no zone has a name, and the question whether one of the near names was meant, if there are any, as in `no zone has this name; did
/// you mean Europe/Berlin?`.
///
/// # Errors
///
/// Want of memory alone. The text is as before then.
#[tactic(auto, using(std::proofs::Common::append_assoc), unfolding(crate::specs::Unknown::unknown_text))]
pub fn add_unknown(into: &mut Vec<u8>, alloc: Global, near: &[&str]) -> Result<(), AllocError>
    ensures ok { OnOk result (into.new.items ≡ into.old.items ++ unknown_text (map (λ name. name.now) near.now)) }
    ensures err { OnErr result (into.new.items ≡ into.old.items) }
{
    let mut text = Vec::new(alloc);
    text.extend_from_slice(b"no zone has this name")?;
    add_question(&mut text, near)?;
    into.extend_from_slice(&text)?;
    Ok(())
}
