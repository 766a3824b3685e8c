//! Values that are shown as the one that they lead to or hold.
ghost use Rattle.std.specs.Arc.{arc_value};
ghost use Rattle.pad_fmt.specs.Sink.{WroteInPieces};

use crate::options::FormatterOptions;
use crate::sink::{Full, TextSink};
use crate::smart_display::{Metadata, SmartDisplay};
use std::num::Wrapping;
use std::rc::Rc;
use std::sync::Arc;

impl<T: SmartDisplay> SmartDisplay for &T {
    type Metadata = T::Metadata;

    ghost due = { λ x. T.due x.now };

    ghost wide = { λ x. T.wide x.now };

    ghost exact = { λ x. T.exact x.now };

    ghost width_law = { λ x. T.width_law x.now };

    fn metadata(&self, f: FormatterOptions) -> Metadata<'_, Self> {
        (**self).metadata(f).reuse()
    }

    fn fmt<S: TextSink>(&self, out: &mut S, f: FormatterOptions) -> Result<(), Full> {
        (**self).fmt(out, f)
    }

    fn fmt_with_metadata<S: TextSink>(
        &self,
        out: &mut S,
        f: FormatterOptions,
        metadata: Metadata<'_, Self>,
    ) -> Result<(), Full>
        ensures wrote { WroteInPieces S.text S.room out.old out.new (T.due self.now.now f) result }
    {
        (**self).fmt_with_metadata(out, f, metadata.reuse())
    }
}

impl<T: SmartDisplay> SmartDisplay for &mut T {
    type Metadata = T::Metadata;

    ghost due = { λ x. T.due x.now };

    ghost wide = { λ x. T.wide x.now };

    ghost exact = { λ x. T.exact x.now };

    ghost width_law = { λ x. T.width_law x.now };

    fn metadata(&self, f: FormatterOptions) -> Metadata<'_, Self> {
        (**self).metadata(f).reuse()
    }

    fn fmt<S: TextSink>(&self, out: &mut S, f: FormatterOptions) -> Result<(), Full> {
        (**self).fmt(out, f)
    }

    fn fmt_with_metadata<S: TextSink>(
        &self,
        out: &mut S,
        f: FormatterOptions,
        metadata: Metadata<'_, Self>,
    ) -> Result<(), Full>
        ensures wrote { WroteInPieces S.text S.room out.old out.new (T.due self.now.now f) result }
    {
        (**self).fmt_with_metadata(out, f, metadata.reuse())
    }
}

impl<T: SmartDisplay> SmartDisplay for Wrapping<T> {
    type Metadata = T::Metadata;

    ghost due = { λ x. T.due x.0 };

    ghost wide = { λ x. T.wide x.0 };

    ghost exact = { λ x. T.exact x.0 };

    ghost width_law = { λ x. T.width_law x.0 };

    fn metadata(&self, f: FormatterOptions) -> Metadata<'_, Self> {
        self.0.metadata(f).reuse()
    }

    fn fmt<S: TextSink>(&self, out: &mut S, f: FormatterOptions) -> Result<(), Full> {
        self.0.fmt(out, f)
    }

    fn fmt_with_metadata<S: TextSink>(
        &self,
        out: &mut S,
        f: FormatterOptions,
        metadata: Metadata<'_, Self>,
    ) -> Result<(), Full>
        ensures wrote { WroteInPieces S.text S.room out.old out.new (T.due self.now.0 f) result }
    {
        self.0.fmt_with_metadata(out, f, metadata.reuse())
    }
}

impl<T: SmartDisplay> SmartDisplay for Rc<T> {
    type Metadata = T::Metadata;

    ghost due = { λ x. T.due x.value };

    ghost wide = { λ x. T.wide x.value };

    ghost exact = { λ x. T.exact x.value };

    ghost width_law = { λ x. T.width_law x.value };

    fn metadata(&self, f: FormatterOptions) -> Metadata<'_, Self> {
        (**self).metadata(f).reuse()
    }

    fn fmt<S: TextSink>(&self, out: &mut S, f: FormatterOptions) -> Result<(), Full> {
        (**self).fmt(out, f)
    }

    fn fmt_with_metadata<S: TextSink>(
        &self,
        out: &mut S,
        f: FormatterOptions,
        metadata: Metadata<'_, Self>,
    ) -> Result<(), Full>
        ensures wrote { WroteInPieces S.text S.room out.old out.new (T.due self.now.value f) result }
    {
        (**self).fmt_with_metadata(out, f, metadata.reuse())
    }
}

impl<T: SmartDisplay> SmartDisplay for Arc<T> {
    type Metadata = T::Metadata;

    ghost due = { λ x. T.due (arc_value x) };

    ghost wide = { λ x. T.wide (arc_value x) };

    ghost exact = { λ x. T.exact (arc_value x) };

    ghost width_law = { λ x. T.width_law (arc_value x) };

    fn metadata(&self, f: FormatterOptions) -> Metadata<'_, Self> {
        (**self).metadata(f).reuse()
    }

    fn fmt<S: TextSink>(&self, out: &mut S, f: FormatterOptions) -> Result<(), Full> {
        (**self).fmt(out, f)
    }

    fn fmt_with_metadata<S: TextSink>(
        &self,
        out: &mut S,
        f: FormatterOptions,
        metadata: Metadata<'_, Self>,
    ) -> Result<(), Full>
        ensures wrote { WroteInPieces S.text S.room out.old out.new (T.due (arc_value self.now) f) result }
    {
        (**self).fmt_with_metadata(out, f, metadata.reuse())
    }
}

impl<T: SmartDisplay> SmartDisplay for Box<T> {
    type Metadata = T::Metadata;

    ghost due = { λ x. T.due x.value };

    ghost wide = { λ x. T.wide x.value };

    ghost exact = { λ x. T.exact x.value };

    ghost width_law = { λ x. T.width_law x.value };

    fn metadata(&self, f: FormatterOptions) -> Metadata<'_, Self> {
        (**self).metadata(f).reuse()
    }

    fn fmt<S: TextSink>(&self, out: &mut S, f: FormatterOptions) -> Result<(), Full> {
        (**self).fmt(out, f)
    }

    fn fmt_with_metadata<S: TextSink>(
        &self,
        out: &mut S,
        f: FormatterOptions,
        metadata: Metadata<'_, Self>,
    ) -> Result<(), Full>
        ensures wrote { WroteInPieces S.text S.room out.old out.new (T.due self.now.value f) result }
    {
        (**self).fmt_with_metadata(out, f, metadata.reuse())
    }
}
