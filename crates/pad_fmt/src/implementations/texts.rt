//! Texts, characters and truth values, on the left where no alignment is set.
ghost use Rattle.std.specs.{Prelude.{◌≡◌, encode_utf8}, Cow.{cow_str_bytes}, String.{string_bytes}};
ghost use Rattle.pad_fmt.specs.{Sink.{WroteInPieces}, Exact.{is_exact_truth, is_exact_char, is_exact_text, is_exact_buffer}, Text.{shown_text, text_width, truth_text, truth_width, char_width, buffer_width}};
ghost use Rattle.pad_fmt.specs.TextLaws.{text_law, truth_law, char_law, buffer_law};

use crate::buffer::WriteBuffer;
use crate::options::FormatterOptions;
use crate::sink::{Full, TextSink};
use crate::smart_display::{Metadata, SmartDisplay};
use crate::text::{Text, text_width, write_text};
use std::alloc::Global;
use std::borrow::CowStr;

impl SmartDisplay for bool {
    type Metadata = ();

    ghost due = { λ b. shown_text (truth_text b) };

    ghost wide = { truth_width };

    ghost exact = { is_exact_truth };

    ghost width_law = { truth_law };

    fn metadata(&self, f: FormatterOptions) -> Metadata<'_, Self> {
        Metadata::new(truth_text(*self).len(), self, ())
    }

    fn fmt<S: TextSink>(&self, out: &mut S, f: FormatterOptions) -> Result<(), Full> {
        write_text(out, f, truth_text(*self))
    }

    fn fmt_with_metadata<S: TextSink>(
        &self,
        out: &mut S,
        f: FormatterOptions,
        metadata: Metadata<'_, Self>,
    ) -> Result<(), Full>
        ensures wrote { WroteInPieces S.text S.room out.old out.new (shown_text (truth_text self.now) f) result }
    {
        let _ = metadata;
        self.fmt(out, f)
    }
}

impl SmartDisplay for char {
    type Metadata = ();

    ghost due = { λ c. shown_text (encode_utf8 c) };

    ghost wide = { char_width };

    ghost exact = { is_exact_char };

    ghost width_law = { char_law };

    fn metadata(&self, f: FormatterOptions) -> Metadata<'_, Self> {
        Metadata::new(self.len_utf8(), self, ())
    }

    fn fmt<S: TextSink>(&self, out: &mut S, f: FormatterOptions) -> Result<(), Full> {
        let mut bytes = [0; 4];
        write_text(out, f, self.encode_utf8(&mut bytes))
    }

    fn fmt_with_metadata<S: TextSink>(
        &self,
        out: &mut S,
        f: FormatterOptions,
        metadata: Metadata<'_, Self>,
    ) -> Result<(), Full>
        ensures wrote { WroteInPieces S.text S.room out.old out.new (shown_text (encode_utf8 self.now) f) result }
    {
        let _ = metadata;
        self.fmt(out, f)
    }
}

impl SmartDisplay for Text<'_> {
    type Metadata = ();

    ghost due = { λ t. shown_text t.0.now };

    ghost wide = { λ t. text_width t.0.now };

    ghost exact = { λ t. is_exact_text t.0.now };

    ghost width_law = { λ t. text_law t.0.now };

    fn metadata(&self, f: FormatterOptions) -> Metadata<'_, Self> {
        Metadata::new(text_width(self.0, f), self, ())
    }

    fn fmt<S: TextSink>(&self, out: &mut S, f: FormatterOptions) -> Result<(), Full> {
        write_text(out, f, self.0)
    }

    fn fmt_with_metadata<S: TextSink>(
        &self,
        out: &mut S,
        f: FormatterOptions,
        metadata: Metadata<'_, Self>,
    ) -> Result<(), Full>
        ensures wrote { WroteInPieces S.text S.room out.old out.new (shown_text self.now.0.now f) result }
    {
        let _ = metadata;
        self.fmt(out, f)
    }
}

impl SmartDisplay for String {
    type Metadata = ();

    ghost due = { λ t. shown_text (string_bytes t) };

    ghost wide = { λ t. text_width (string_bytes t) };

    ghost exact = { λ t. is_exact_text (string_bytes t) };

    ghost width_law = { λ t. text_law (string_bytes t) };

    fn metadata(&self, f: FormatterOptions) -> Metadata<'_, Self> {
        Metadata::new(text_width(self.as_str(), f), self, ())
    }

    fn fmt<S: TextSink>(&self, out: &mut S, f: FormatterOptions) -> Result<(), Full> {
        write_text(out, f, self.as_str())
    }

    fn fmt_with_metadata<S: TextSink>(
        &self,
        out: &mut S,
        f: FormatterOptions,
        metadata: Metadata<'_, Self>,
    ) -> Result<(), Full>
        ensures wrote { WroteInPieces S.text S.room out.old out.new (shown_text (string_bytes self.now) f) result }
    {
        let _ = metadata;
        self.fmt(out, f)
    }
}

impl SmartDisplay for CowStr<'_, Global> {
    type Metadata = ();

    ghost due = { λ t. shown_text (cow_str_bytes t) };

    ghost wide = { λ t. text_width (cow_str_bytes t) };

    ghost exact = { λ t. is_exact_text (cow_str_bytes t) };

    ghost width_law = { λ t. text_law (cow_str_bytes t) };

    fn metadata(&self, f: FormatterOptions) -> Metadata<'_, Self> {
        Metadata::new(text_width(self.as_str(), f), self, ())
    }

    fn fmt<S: TextSink>(&self, out: &mut S, f: FormatterOptions) -> Result<(), Full> {
        write_text(out, f, self.as_str())
    }

    fn fmt_with_metadata<S: TextSink>(
        &self,
        out: &mut S,
        f: FormatterOptions,
        metadata: Metadata<'_, Self>,
    ) -> Result<(), Full>
        ensures wrote { WroteInPieces S.text S.room out.old out.new (shown_text (cow_str_bytes self.now) f) result }
    {
        let _ = metadata;
        self.fmt(out, f)
    }
}

impl<const SIZE: usize> SmartDisplay for WriteBuffer<SIZE> {
    type Metadata = ();

    ghost due = { shown_text };

    ghost wide = { buffer_width };

    ghost exact = { is_exact_buffer };

    ghost width_law = { buffer_law };

    fn metadata(&self, f: FormatterOptions) -> Metadata<'_, Self> {
        Metadata::new(self.as_str().len(), self, ())
    }

    fn fmt<S: TextSink>(&self, out: &mut S, f: FormatterOptions) -> Result<(), Full> {
        write_text(out, f, self.as_str())
    }

    fn fmt_with_metadata<S: TextSink>(
        &self,
        out: &mut S,
        f: FormatterOptions,
        metadata: Metadata<'_, Self>,
    ) -> Result<(), Full>
        ensures wrote { WroteInPieces S.text S.room out.old out.new (shown_text self.now f) result }
    {
        let _ = metadata;
        self.fmt(out, f)
    }
}

// The word for the truth value.
fn truth_text(truth: bool) -> &'static str
    ensures { result.now ≡ truth_text truth }
{
    if truth { "true" } else { "false" }
}
