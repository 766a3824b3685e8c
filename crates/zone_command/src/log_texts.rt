//! What is shown for times in logs.
ghost use Rattle.std.specs.Prelude.{◌≡◌};
ghost use Rattle.zone_command.specs.LogTexts.{log_form};

use civil_base::OffsetDateTime;
use std::alloc::{AllocError, Global};
use zone_texts::{ReplyFault, ReplyZone, Style, add_at};
use zone_words::{AnswerForm, InstantTexts};

/// What clocks of a zone show at instants, where that can be told.
#[derive(Drop)]
pub struct ZoneTexts<'z, Z: ReplyZone> {
    zone: &'z Z,
    form: AnswerForm,
    alloc: Global,
}

/// The form of a text in a log: objects are none, and shown by RFC 3339.
fn log_form(form: AnswerForm) -> AnswerForm
    ensures { result ≡ log_form form }
{
    match form {
        AnswerForm::Json => AnswerForm::Rfc3339,
        AnswerForm::People => AnswerForm::People,
        AnswerForm::Rfc3339 => AnswerForm::Rfc3339,
        AnswerForm::Epoch => AnswerForm::Epoch,
    }
}

impl<'z, Z: ReplyZone> ZoneTexts<'z, Z> {
    ghost use Rattle.std.specs.Prelude.{◌≡◌};
    ghost use Rattle.zone_command.specs.LogTexts.{log_text};

    /// What clocks of that zone show, in that form.
    pub fn new(alloc: Global, zone: &'z Z, form: AnswerForm) -> ZoneTexts<'z, Z>
        ensures { ⟦<ZoneTexts<'z, Z> as InstantTexts>⟧.shown result ≡ log_text form (Z.view zone.now) }
    {
        ZoneTexts { zone, form, alloc }
    }
}

impl<Z: ReplyZone> InstantTexts for ZoneTexts<'_, Z> {
    ghost use Rattle.zone_command.specs.LogTexts.{log_text};

    ghost shown = { λ s. log_text s.form (Z.view s.zone.now) };

    fn add_text(&mut self, time: OffsetDateTime, output: &mut Vec<u8>) -> Result<bool, AllocError> {
        let style = Style {
            name: "",
            form: log_form(self.form),
        };
        match add_at(output, self.alloc, self.zone, &style, &time) {
            Ok(()) => Ok(true),
            Err(ReplyFault::OutOfYears) => Ok(false),
            Err(ReplyFault::Untold) => Ok(false),
            Err(ReplyFault::Skipped) => Ok(false),
            Err(ReplyFault::NoMemory) => Err(AllocError),
        }
    }
}
