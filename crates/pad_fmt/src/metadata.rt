//! What is known of a value's text before it is written.
ghost use Rattle.std.specs.Prelude.{◌≡◌};
ghost use Rattle.pad_fmt.specs.Padding.{padded_width};

use crate::options::FormatterOptions;
use std::marker::{Model, PhantomData};

/// The width of the text of a `T`, and what else its type keeps; `Metadata` names it by the type alone.
///
/// It lives no longer than the value that it tells of.
pub struct WidthAnd<'a, T, M> {
    unpadded_width: usize,
    metadata: M,
    of: PhantomData<&'a T>,
}

impl<'a, T, M> Model for WidthAnd<'a, T, M> {
    ghost use Rattle.pad_fmt.specs.Metadata.{Known};

    ghost Value = { Known M };

    ghost view = { λ w. record { unpadded_width = w.unpadded_width; metadata = w.metadata } };
}

impl<T, M: Drop> Drop for WidthAnd<'_, T, M> {
    fn drop(self) {
        let WidthAnd {
            unpadded_width: _,
            metadata: _,
            of: _,
        } = self;
    }
}

impl<'a, T, M> WidthAnd<'a, T, M> {
    /// Of a value whose text has this width without padding, in bytes.
    pub fn new(unpadded_width: usize, value: &'a T, metadata: M) -> Self
        ensures width { result.unpadded_width ≡ unpadded_width }
        ensures metadata { result.metadata ≡ metadata }
    {
        let _ = value;
        WidthAnd {
            unpadded_width,
            metadata,
            of: PhantomData,
        }
    }

    /// The same width and metadata, as those of a value of another type that shows the same text.
    pub fn reuse<U>(self) -> WidthAnd<'a, U, M>
        ensures { result ≡ self.entry }
    {
        let WidthAnd {
            unpadded_width,
            metadata,
            of: _,
        } = self;
        WidthAnd {
            unpadded_width,
            metadata,
            of: PhantomData,
        }
    }

    /// The same again.
    pub fn copy(&self) -> Self
    where
        M: Copy,
        ensures { result ≡ self.now }
    {
        WidthAnd {
            unpadded_width: self.unpadded_width,
            metadata: self.metadata,
            of: PhantomData,
        }
    }

    /// The width of the text without padding, in bytes.
    pub fn unpadded_width(&self) -> usize
        ensures { result ≡ self.now.unpadded_width }
    {
        self.unpadded_width
    }

    /// The greater of that width and the requested one; that width alone where none is requested.
    pub fn padded_width(&self, f: FormatterOptions) -> usize
        ensures { result ≡ padded_width self.now.unpadded_width f }
    {
        self.unpadded_width.max(f.width().unwrap_or(0))
    }

    /// What else the value's type keeps.
    pub fn get(&self) -> &M
        ensures { result.now ≡ self.now.metadata }
    {
        &self.metadata
    }
}
