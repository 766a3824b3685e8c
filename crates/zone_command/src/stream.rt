//! What answers requests over a source.
ghost use Rattle.std.specs.Prelude.{◌≡◌};
ghost use Rattle.zone_command.specs.{Answers.{IsAnswer}, Requests.{request_of, words_of}, Streams.{answer_for, answer_of, answer_to}};
ghost use Rattle.zone_words.specs.TaskShown.{task_shown};

use crate::kept::KeptZones;
use crate::kept_answers::{at_answer, convert_answer, local_answer};
use crate::source::{Refusal, ZoneSource};
use crate::words::{read_request, refused, words_of};
use std::alloc::{AllocError, Global};
use zone_texts::Style;
use zone_words::{AnswerForm, Responder, Task};

/// What answers requests over a source. The zone of a name is opened once.
#[derive(Drop)]
pub struct SourceStream<'s, S: ZoneSource> {
    kept: KeptZones<'s, S>,
    form: AnswerForm,
    alloc: Global,
}

impl<'s, S: ZoneSource> SourceStream<'s, S> {
    ghost use Rattle.std.specs.Prelude.{◌≡◌};
    ghost use Rattle.zone_command.specs.Streams.{stream_replies};

    /// What answers over that source in that form. It takes no memory.
    pub fn new(alloc: Global, source: &'s S, form: AnswerForm) -> SourceStream<'s, S>
        ensures { ⟦<SourceStream<'s, S> as Responder>⟧.replies result ≡ stream_replies (S.found source.now) form }
    {
        SourceStream {
            kept: KeptZones::new(alloc, source),
            form,
            alloc,
        }
    }

    /// The answer to what is asked.
    fn answer(&mut self, task: &Task<'_>) -> Result<Vec<u8>, Refusal>
        ensures source { self.new.kept.source.now ≡ self.old.kept.source.now }
        ensures form { self.new.form ≡ self.old.form }
        ensures answer { IsAnswer (answer_of (S.found self.old.kept.source.now) self.old.form (task_shown task.now)) result }
    {
        let alloc = self.alloc;
        let form = self.form;
        match task {
            Task::At(name, times) => {
                at_answer(
                    alloc,
                    &mut self.kept,
                    &Style { name: *name, form },
                    times.as_slice(),
                )
            }
            Task::Local(name, local) => {
                local_answer(alloc, &mut self.kept, &Style { name: *name, form }, local)
            }
            Task::Convert(from, to, local) => {
                let style = Style { name: *to, form };
                convert_answer(alloc, &mut self.kept, *from, &style, local)
            }
            _ => Err(refused(alloc, b"a request is at, local or convert")),
        }
    }

    /// The answer to a text.
    fn answer_text(&mut self, text: &str) -> Result<Vec<u8>, Refusal>
        ensures source { self.new.kept.source.now ≡ self.old.kept.source.now }
        ensures form { self.new.form ≡ self.old.form }
        ensures answer { IsAnswer (answer_for (S.found self.old.kept.source.now) self.old.form (request_of (words_of text.now))) result }
    {
        let words = words_of(self.alloc, text)?;
        let asked = read_request(self.alloc, &words)?;
        self.answer(&asked.task)
    }

    /// The answer to a line.
    #[tactic(auto, unfolding(crate::specs::Requests::request_in))]
    fn answer_line(&mut self, line: &[u8]) -> Result<Vec<u8>, Refusal>
        ensures source { self.new.kept.source.now ≡ self.old.kept.source.now }
        ensures form { self.new.form ≡ self.old.form }
        ensures answer { IsAnswer (answer_to (S.found self.old.kept.source.now) self.old.form line.now) result }
    {
        match std::str::from_utf8(line) {
            Ok(text) => self.answer_text(text),
            Err(_) => Err(refused(self.alloc, b"a request is text in UTF-8")),
        }
    }
}

impl<S: ZoneSource> Responder for SourceStream<'_, S> {
    ghost use Rattle.zone_command.specs.Streams.{stream_replies};

    ghost replies = { λ s. stream_replies (S.found s.kept.source.now) s.form };

    fn respond(&mut self, request: &[u8], output: &mut Vec<u8>) -> Result<bool, AllocError> {
        match self.answer_line(request) {
            Ok(text) => {
                output.extend_from_slice(&text)?;
                output.push(b'\n')?;
                Ok(false)
            }
            Err(Refusal::Why(words)) => {
                output.extend_from_slice(b"? ")?;
                output.extend_from_slice(&words)?;
                output.push(b'\n')?;
                Ok(true)
            }
            Err(Refusal::NoMemory) => Err(AllocError),
        }
    }

    fn refuse_long(&mut self, output: &mut Vec<u8>) -> Result<(), AllocError> {
        output.extend_from_slice(b"? a request of more than 4,096 bytes\n")?;
        Ok(())
    }
}
