//! The lines of zones, and their formats.
ghost use Rattle.std.specs.Prelude.{◌≡◌, IfOk, IsTrue, option_map, string_bytes};
ghost use Rattle.zone_table.specs.{Values.{info_value, saving_value}, Owned.{owned_info, owned_saving}, Formats.{format_of, has_placeholder, filled, abbreviation, is_constant, constant_text}};

use crate::change::ChangeTime;
use basics::Text;
use std::alloc::{AllocError, Global};

/// What is added to a zone line's offset.
#[derive(Debug, Drop, PartialEq)]
pub enum Saving {
    /// Nothing.
    NoSaving,
    /// The same number of seconds as long as the line holds.
    OneOff(i64),
    /// What the rules of that name say.
    Multiple(Text),
}

/// What a line of a zone says of a stretch of time.
#[derive(Debug, Drop, PartialEq)]
pub struct ZoneInfo {
    /// The standard offset, in seconds east of UTC.
    pub offset: i64,
    /// What is added to it.
    pub saving: Saving,
    /// The format of the abbreviation.
    pub format: Format,
    /// The end of the stretch, or none where it holds for good.
    pub end_time: Option<ChangeTime>,
}

impl Saving {
    /// The owned form of what is added to a zone line's offset.
    fn from_line(alloc: Global, saving: crate::line::Saving<'_>) -> Result<Saving, AllocError>
        ensures { IfOk result (λ owned. owned ≡ owned_saving (saving_value saving.entry)) }
    {
        Ok(match saving {
            crate::line::Saving::NoSaving => Saving::NoSaving,
            crate::line::Saving::OneOff(amount) => Saving::OneOff(amount.as_seconds()),
            crate::line::Saving::Multiple(name) => Saving::Multiple(Text::new(alloc, name)?),
        })
    }
}

impl ZoneInfo {
    /// The owned form of a zone line or a continuation: its offset and its saving are seconds, and
    /// its format is read.
    ///
    /// # Errors
    ///
    /// Want of memory alone.
    pub fn from_line(alloc: Global, info: crate::line::ZoneInfo<'_>) -> Result<ZoneInfo, AllocError>
        ensures { IfOk result (λ owned. owned ≡ owned_info (info_value info.entry)) }
    {
        Ok(ZoneInfo {
            offset: info.utc_offset.as_seconds(),
            saving: Saving::from_line(alloc, info.saving)?,
            format: Format::new(alloc, info.format)?,
            end_time: info.time,
        })
    }
}

/// How a zone line forms its abbreviations.
#[derive(Debug, Drop, PartialEq)]
pub enum Format {
    /// Always this text.
    Constant(Text),
    /// One text in standard time, another where a saving is in force.
    Alternate {
        /// The text where the saving is 0.
        standard: Text,
        /// The text of any other saving.
        dst: Text,
    },
    /// A text in which the letters of the rule stand for each `%s`.
    Placeholder(Text),
}

impl Format {
    /// The format that a FORMAT column names. With a slash it is an `Alternate`, cut at the first
    /// one; else with a `%s` a `Placeholder`; else a `Constant`.
    ///
    /// # Errors
    ///
    /// Want of memory alone.
    #[tactic(auto, unfolding(crate::specs::Formats::format_of))]
    pub fn new(alloc: Global, template: &str) -> Result<Format, AllocError>
        ensures { IfOk result (λ format. format ≡ format_of template.now) }
    {
        if let Some((standard, dst)) = template.split_once('/') {
            return Ok(Format::Alternate {
                standard: Text::new(alloc, standard)?,
                dst: Text::new(alloc, dst)?,
            });
        }
        let text = Text::new(alloc, template)?;
        if has_placeholder(template) {
            Ok(Format::Placeholder(text))
        } else {
            Ok(Format::Constant(text))
        }
    }

    /// The abbreviation under a saving in seconds and the letters of a rule. A `Constant` is its
    /// text, an `Alternate` its standard text where the saving is 0 and else its other text, and in
    /// a `Placeholder` the letters, or nothing, stand for each `%s`.
    ///
    /// # Errors
    ///
    /// Want of memory alone.
    #[tactic(auto, unfolding(crate::specs::Formats::abbreviation))]
    pub fn format(
        &self,
        alloc: Global,
        dst_offset: i64,
        letters: Option<&str>,
    ) -> Result<String, AllocError>
        ensures { IfOk result (λ text. string_bytes text ≡ abbreviation self.now dst_offset (option_map (λ t. t.now) letters.entry)) }
    {
        match self {
            Format::Constant(text) => String::from_str(alloc, text.as_str()),
            Format::Alternate { standard, .. } if dst_offset == 0 => {
                String::from_str(alloc, standard.as_str())
            }
            Format::Alternate { dst, .. } => String::from_str(alloc, dst.as_str()),
            Format::Placeholder(text) => filled(alloc, letters.unwrap_or(""), text.as_str()),
        }
    }

    /// The text of a `Constant`, which this has to be.
    ///
    /// # Errors
    ///
    /// Want of memory alone.
    pub fn format_constant(&self, alloc: Global) -> Result<String, AllocError>
        requires { IsTrue (is_constant self.now) }
        ensures { IfOk result (λ text. string_bytes text ≡ constant_text self.now) }
    {
        match self {
            Format::Constant(text) => String::from_str(alloc, text.as_str()),
            Format::Alternate { .. } | Format::Placeholder(_) => unreachable!(),
        }
    }
}

/// Whether `%s` stands somewhere in the text.
fn has_placeholder(text: &str) -> bool
    ensures { result ≡ has_placeholder text.now }
{
    text.contains("%s")
}

/// The text with the letters in place of each `%s`.
fn filled(alloc: Global, letters: &str, text: &str) -> Result<String, AllocError>
    ensures { IfOk result (λ whole. string_bytes whole ≡ filled letters.now text.now) }
{
    text.replace(alloc, "%s", letters)
}
