//! Values that know the width of their text.
ghost use Rattle.std.specs.Prelude.{◌≡◌, ℕ, ◌<◌, Bool, IsTrue, List, length};
ghost use Rattle.pad_fmt.specs.{Sink.{WroteInPieces}, Options.{Options}, Padding.{padded_width}};

use crate::metadata::WidthAnd;
use crate::options::FormatterOptions;
use crate::sink::{Full, TextSink};

/// What is known of the text of a `T` before it is written: its width, and what else `T` keeps.
pub type Metadata<'a, T> = WidthAnd<'a, T, <T as SmartDisplay>::Metadata>;

/// A value that knows the width of its text before it writes it.
///
/// Its law: where `exact` holds of the options and the fill is ASCII, the bytes that it gives are as many as the
/// greater of its unpadded width and the requested one. `WidthLaws` says for each type of std and of this crate where
/// that is.
pub trait SmartDisplay: Sized {
    /// What else is kept beside the width; `()` where nothing is.
    type Metadata: Drop;

    // The bytes that the value gives under the options.
    ghost due: { Self → Options → List ℕ };

    // The width that it answers, without padding.
    ghost wide: { Self → Options → ℕ };

    // Whether that width is exact under the options.
    ghost exact: { Self → Options → Bool };

    /// The width of the value's text under the options, without padding, in bytes.
    fn metadata(&self, f: FormatterOptions) -> Metadata<'_, Self>
        ensures width { result.unpadded_width ≡ wide self.now f };

    /// Writes the value as `fmt` does; the metadata, which `metadata` gave, only spares work.
    ///
    /// # Errors
    ///
    /// `Full` exactly where the bytes of the value do not fit; a part of them, from the first byte on, may then be
    /// written.
    fn fmt_with_metadata<S: TextSink>(
        &self,
        out: &mut S,
        f: FormatterOptions,
        metadata: Metadata<'_, Self>,
    ) -> Result<(), Full>
        ensures wrote { WroteInPieces S.text S.room out.old out.new (due self.now f) result }
    {
        let _ = metadata;
        self.fmt(out, f)
    }

    /// Writes the value, padded as the options ask.
    ///
    /// # Errors
    ///
    /// `Full` exactly where its bytes do not fit; a part of them, from the first byte on, may then be written.
    fn fmt<S: TextSink>(&self, out: &mut S, f: FormatterOptions) -> Result<(), Full>
        ensures wrote { WroteInPieces S.text S.room out.old out.new (due self.now f) result };

    ghost width_law: { (value : Self) (f : Options) → IsTrue (exact value f) → f.fill < 128 →
        length (due value f) ≡ padded_width (wide value f) f };
}

/// The width of the value's text without padding, in bytes.
pub fn unpadded_width_of<T: SmartDisplay>(value: &T, f: FormatterOptions) -> usize
    ensures { result ≡ T.wide value.now f }
{
    value.metadata(f).unpadded_width()
}

/// The width of the value's text with padding: so many bytes as `fmt` writes, where the width is exact and the fill
/// is ASCII.
pub fn padded_width_of<T: SmartDisplay>(value: &T, f: FormatterOptions) -> usize
    ensures value { result ≡ padded_width (T.wide value.now f) f }
    ensures exact { IsTrue (T.exact value.now f) → f.fill < 128 → length (T.due value.now f) ≡ result }
{
    value.metadata(f).padded_width(f)
}
