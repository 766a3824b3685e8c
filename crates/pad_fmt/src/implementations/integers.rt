//! Whole numbers: decimal digits, on the right where no alignment is set.
ghost use Rattle.pad_fmt.specs.{Sink.{WroteInPieces}, Exact.{is_exact_unsigned, is_exact_signed}, Number.{shown_unsigned, unsigned_width, shown_signed, signed_width}, NumberLaws.{unsigned_law, signed_law}};

use crate::number::{signed_width, unsigned_width, write_number};
use crate::options::FormatterOptions;
use crate::sink::{Full, TextSink};
use crate::smart_display::{Metadata, SmartDisplay};

impl SmartDisplay for u8 {
    type Metadata = ();

    ghost due = { shown_unsigned };

    ghost wide = { unsigned_width };

    ghost exact = { is_exact_unsigned };

    ghost width_law = { unsigned_law };

    fn metadata(&self, f: FormatterOptions) -> Metadata<'_, Self> {
        Metadata::new(unsigned_width(f, u128::from(*self)), self, ())
    }

    fn fmt<S: TextSink>(&self, out: &mut S, f: FormatterOptions) -> Result<(), Full> {
        write_number(out, f, false, u128::from(*self))
    }

    fn fmt_with_metadata<S: TextSink>(
        &self,
        out: &mut S,
        f: FormatterOptions,
        metadata: Metadata<'_, Self>,
    ) -> Result<(), Full>
        ensures wrote { WroteInPieces S.text S.room out.old out.new (shown_unsigned self.now f) result }
    {
        let _ = metadata;
        self.fmt(out, f)
    }
}

impl SmartDisplay for u16 {
    type Metadata = ();

    ghost due = { shown_unsigned };

    ghost wide = { unsigned_width };

    ghost exact = { is_exact_unsigned };

    ghost width_law = { unsigned_law };

    fn metadata(&self, f: FormatterOptions) -> Metadata<'_, Self> {
        Metadata::new(unsigned_width(f, u128::from(*self)), self, ())
    }

    fn fmt<S: TextSink>(&self, out: &mut S, f: FormatterOptions) -> Result<(), Full> {
        write_number(out, f, false, u128::from(*self))
    }

    fn fmt_with_metadata<S: TextSink>(
        &self,
        out: &mut S,
        f: FormatterOptions,
        metadata: Metadata<'_, Self>,
    ) -> Result<(), Full>
        ensures wrote { WroteInPieces S.text S.room out.old out.new (shown_unsigned self.now f) result }
    {
        let _ = metadata;
        self.fmt(out, f)
    }
}

impl SmartDisplay for u32 {
    type Metadata = ();

    ghost due = { shown_unsigned };

    ghost wide = { unsigned_width };

    ghost exact = { is_exact_unsigned };

    ghost width_law = { unsigned_law };

    fn metadata(&self, f: FormatterOptions) -> Metadata<'_, Self> {
        Metadata::new(unsigned_width(f, u128::from(*self)), self, ())
    }

    fn fmt<S: TextSink>(&self, out: &mut S, f: FormatterOptions) -> Result<(), Full> {
        write_number(out, f, false, u128::from(*self))
    }

    fn fmt_with_metadata<S: TextSink>(
        &self,
        out: &mut S,
        f: FormatterOptions,
        metadata: Metadata<'_, Self>,
    ) -> Result<(), Full>
        ensures wrote { WroteInPieces S.text S.room out.old out.new (shown_unsigned self.now f) result }
    {
        let _ = metadata;
        self.fmt(out, f)
    }
}

impl SmartDisplay for u64 {
    type Metadata = ();

    ghost due = { shown_unsigned };

    ghost wide = { unsigned_width };

    ghost exact = { is_exact_unsigned };

    ghost width_law = { unsigned_law };

    fn metadata(&self, f: FormatterOptions) -> Metadata<'_, Self> {
        Metadata::new(unsigned_width(f, u128::from(*self)), self, ())
    }

    fn fmt<S: TextSink>(&self, out: &mut S, f: FormatterOptions) -> Result<(), Full> {
        write_number(out, f, false, u128::from(*self))
    }

    fn fmt_with_metadata<S: TextSink>(
        &self,
        out: &mut S,
        f: FormatterOptions,
        metadata: Metadata<'_, Self>,
    ) -> Result<(), Full>
        ensures wrote { WroteInPieces S.text S.room out.old out.new (shown_unsigned self.now f) result }
    {
        let _ = metadata;
        self.fmt(out, f)
    }
}

impl SmartDisplay for u128 {
    type Metadata = ();

    ghost due = { shown_unsigned };

    ghost wide = { unsigned_width };

    ghost exact = { is_exact_unsigned };

    ghost width_law = { unsigned_law };

    fn metadata(&self, f: FormatterOptions) -> Metadata<'_, Self> {
        Metadata::new(unsigned_width(f, *self), self, ())
    }

    fn fmt<S: TextSink>(&self, out: &mut S, f: FormatterOptions) -> Result<(), Full> {
        write_number(out, f, false, *self)
    }

    fn fmt_with_metadata<S: TextSink>(
        &self,
        out: &mut S,
        f: FormatterOptions,
        metadata: Metadata<'_, Self>,
    ) -> Result<(), Full>
        ensures wrote { WroteInPieces S.text S.room out.old out.new (shown_unsigned self.now f) result }
    {
        let _ = metadata;
        self.fmt(out, f)
    }
}

impl SmartDisplay for usize {
    type Metadata = ();

    ghost due = { shown_unsigned };

    ghost wide = { unsigned_width };

    ghost exact = { is_exact_unsigned };

    ghost width_law = { unsigned_law };

    fn metadata(&self, f: FormatterOptions) -> Metadata<'_, Self> {
        Metadata::new(unsigned_width(f, *self as u128), self, ())
    }

    fn fmt<S: TextSink>(&self, out: &mut S, f: FormatterOptions) -> Result<(), Full> {
        write_number(out, f, false, *self as u128)
    }

    fn fmt_with_metadata<S: TextSink>(
        &self,
        out: &mut S,
        f: FormatterOptions,
        metadata: Metadata<'_, Self>,
    ) -> Result<(), Full>
        ensures wrote { WroteInPieces S.text S.room out.old out.new (shown_unsigned self.now f) result }
    {
        let _ = metadata;
        self.fmt(out, f)
    }
}

impl SmartDisplay for i8 {
    type Metadata = ();

    ghost due = { shown_signed };

    ghost wide = { signed_width };

    ghost exact = { is_exact_signed };

    ghost width_law = { signed_law };

    fn metadata(&self, f: FormatterOptions) -> Metadata<'_, Self> {
        Metadata::new(
            signed_width(f, *self < 0, u128::from(self.unsigned_abs())),
            self,
            (),
        )
    }

    fn fmt<S: TextSink>(&self, out: &mut S, f: FormatterOptions) -> Result<(), Full> {
        write_number(out, f, *self < 0, u128::from(self.unsigned_abs()))
    }

    fn fmt_with_metadata<S: TextSink>(
        &self,
        out: &mut S,
        f: FormatterOptions,
        metadata: Metadata<'_, Self>,
    ) -> Result<(), Full>
        ensures wrote { WroteInPieces S.text S.room out.old out.new (shown_signed self.now f) result }
    {
        let _ = metadata;
        self.fmt(out, f)
    }
}

impl SmartDisplay for i16 {
    type Metadata = ();

    ghost due = { shown_signed };

    ghost wide = { signed_width };

    ghost exact = { is_exact_signed };

    ghost width_law = { signed_law };

    fn metadata(&self, f: FormatterOptions) -> Metadata<'_, Self> {
        Metadata::new(
            signed_width(f, *self < 0, u128::from(self.unsigned_abs())),
            self,
            (),
        )
    }

    fn fmt<S: TextSink>(&self, out: &mut S, f: FormatterOptions) -> Result<(), Full> {
        write_number(out, f, *self < 0, u128::from(self.unsigned_abs()))
    }

    fn fmt_with_metadata<S: TextSink>(
        &self,
        out: &mut S,
        f: FormatterOptions,
        metadata: Metadata<'_, Self>,
    ) -> Result<(), Full>
        ensures wrote { WroteInPieces S.text S.room out.old out.new (shown_signed self.now f) result }
    {
        let _ = metadata;
        self.fmt(out, f)
    }
}

impl SmartDisplay for i32 {
    type Metadata = ();

    ghost due = { shown_signed };

    ghost wide = { signed_width };

    ghost exact = { is_exact_signed };

    ghost width_law = { signed_law };

    fn metadata(&self, f: FormatterOptions) -> Metadata<'_, Self> {
        Metadata::new(
            signed_width(f, *self < 0, u128::from(self.unsigned_abs())),
            self,
            (),
        )
    }

    fn fmt<S: TextSink>(&self, out: &mut S, f: FormatterOptions) -> Result<(), Full> {
        write_number(out, f, *self < 0, u128::from(self.unsigned_abs()))
    }

    fn fmt_with_metadata<S: TextSink>(
        &self,
        out: &mut S,
        f: FormatterOptions,
        metadata: Metadata<'_, Self>,
    ) -> Result<(), Full>
        ensures wrote { WroteInPieces S.text S.room out.old out.new (shown_signed self.now f) result }
    {
        let _ = metadata;
        self.fmt(out, f)
    }
}

impl SmartDisplay for i64 {
    type Metadata = ();

    ghost due = { shown_signed };

    ghost wide = { signed_width };

    ghost exact = { is_exact_signed };

    ghost width_law = { signed_law };

    fn metadata(&self, f: FormatterOptions) -> Metadata<'_, Self> {
        Metadata::new(
            signed_width(f, *self < 0, u128::from(self.unsigned_abs())),
            self,
            (),
        )
    }

    fn fmt<S: TextSink>(&self, out: &mut S, f: FormatterOptions) -> Result<(), Full> {
        write_number(out, f, *self < 0, u128::from(self.unsigned_abs()))
    }

    fn fmt_with_metadata<S: TextSink>(
        &self,
        out: &mut S,
        f: FormatterOptions,
        metadata: Metadata<'_, Self>,
    ) -> Result<(), Full>
        ensures wrote { WroteInPieces S.text S.room out.old out.new (shown_signed self.now f) result }
    {
        let _ = metadata;
        self.fmt(out, f)
    }
}

impl SmartDisplay for i128 {
    type Metadata = ();

    ghost due = { shown_signed };

    ghost wide = { signed_width };

    ghost exact = { is_exact_signed };

    ghost width_law = { signed_law };

    fn metadata(&self, f: FormatterOptions) -> Metadata<'_, Self> {
        Metadata::new(signed_width(f, *self < 0, self.unsigned_abs()), self, ())
    }

    fn fmt<S: TextSink>(&self, out: &mut S, f: FormatterOptions) -> Result<(), Full> {
        write_number(out, f, *self < 0, self.unsigned_abs())
    }

    fn fmt_with_metadata<S: TextSink>(
        &self,
        out: &mut S,
        f: FormatterOptions,
        metadata: Metadata<'_, Self>,
    ) -> Result<(), Full>
        ensures wrote { WroteInPieces S.text S.room out.old out.new (shown_signed self.now f) result }
    {
        let _ = metadata;
        self.fmt(out, f)
    }
}

impl SmartDisplay for isize {
    type Metadata = ();

    ghost due = { shown_signed };

    ghost wide = { signed_width };

    ghost exact = { is_exact_signed };

    ghost width_law = { signed_law };

    fn metadata(&self, f: FormatterOptions) -> Metadata<'_, Self> {
        Metadata::new(
            signed_width(f, *self < 0, self.unsigned_abs() as u128),
            self,
            (),
        )
    }

    fn fmt<S: TextSink>(&self, out: &mut S, f: FormatterOptions) -> Result<(), Full> {
        write_number(out, f, *self < 0, self.unsigned_abs() as u128)
    }

    fn fmt_with_metadata<S: TextSink>(
        &self,
        out: &mut S,
        f: FormatterOptions,
        metadata: Metadata<'_, Self>,
    ) -> Result<(), Full>
        ensures wrote { WroteInPieces S.text S.room out.old out.new (shown_signed self.now f) result }
    {
        let _ = metadata;
        self.fmt(out, f)
    }
}
