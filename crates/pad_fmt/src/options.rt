//! What is asked of the text of a value.
ghost use Rattle.std.specs.Prelude.{◌≡◌, ◌&&◌, not, Some, unwrap_or};
ghost use Rattle.pad_fmt.specs.Options.{HandsBack, default_options};

use std::marker::Model;

/// The side of the requested width on which the text stands.
#[derive(Clone, Copy, PartialEq, Eq, Debug)]
pub enum Alignment {
    /// The fill follows the text.
    Left,
    /// Half of the fill, rounded down, precedes the text, and the rest follows it.
    Center,
    /// The fill precedes the text.
    Right,
}

/// The options under which a value is shown, as those of Rust's `Formatter`.
///
/// The setters hand their receiver back, so that calls can be chained.
#[derive(Clone, Copy)]
pub struct FormatterOptions {
    fill: char,
    align: Option<Alignment>,
    width: Option<usize>,
    precision: Option<usize>,
    sign_plus: bool,
    sign_minus: bool,
    alternate: bool,
    sign_aware_zero_pad: bool,
}

impl Model for FormatterOptions {
    ghost use Rattle.pad_fmt.specs.Options.{Options};

    ghost Value = { Options };

    ghost view = { λ o. record {
      fill = o.fill;
      align = o.align;
      width = o.width;
      precision = o.precision;
      sign_plus = o.sign_plus;
      sign_minus = o.sign_minus;
      alternate = o.alternate;
      sign_aware_zero_pad = o.sign_aware_zero_pad;
    } };

    ghost inverse = { λ o. record {
      fill = o.fill;
      align = o.align;
      width = o.width;
      precision = o.precision;
      sign_plus = o.sign_plus;
      sign_minus = o.sign_minus;
      alternate = o.alternate;
      sign_aware_zero_pad = o.sign_aware_zero_pad;
    } };
}

impl Default for FormatterOptions {
    ghost is_default = { λ o. o ≡ default_options };

    fn default() -> Self {
        FormatterOptions {
            fill: ' ',
            align: None,
            width: None,
            precision: None,
            sign_plus: false,
            sign_minus: false,
            alternate: false,
            sign_aware_zero_pad: false,
        }
    }
}

impl FormatterOptions {
    /// Sets the character that pads to the requested width.
    pub fn with_fill(&mut self, c: char) -> &mut Self
        ensures { HandsBack self.entry result (record self.old { fill = c }) }
    {
        self.fill = c;
        self
    }

    /// Sets the alignment; `None` leaves it to the type of the value.
    pub fn with_align(&mut self, align: Option<Alignment>) -> &mut Self
        ensures { HandsBack self.entry result (record self.old { align = align }) }
    {
        self.align = align;
        self
    }

    /// Sets the least width in characters; `None` asks for no padding.
    pub fn with_width(&mut self, width: Option<usize>) -> &mut Self
        ensures { HandsBack self.entry result (record self.old { width = width }) }
    {
        self.width = width;
        self
    }

    /// Sets the precision: the greatest number of characters of a text. `None` sets no bound.
    pub fn with_precision(&mut self, precision: Option<usize>) -> &mut Self
        ensures { HandsBack self.entry result (record self.old { precision = precision }) }
    {
        self.precision = precision;
        self
    }

    /// Sets whether numbers that are not negative show a `+`; `true` clears `sign_minus`.
    pub fn with_sign_plus(&mut self, b: bool) -> &mut Self
        ensures { HandsBack self.entry result
            (record self.old { sign_plus = b; sign_minus = self.old.sign_minus && not b }) }
    {
        self.sign_plus = b;
        if b {
            self.sign_minus = false;
        }
        self
    }

    /// Sets the flag `-`, which no text shows; `true` clears `sign_plus`.
    pub fn with_sign_minus(&mut self, b: bool) -> &mut Self
        ensures { HandsBack self.entry result
            (record self.old { sign_plus = self.old.sign_plus && not b; sign_minus = b }) }
    {
        self.sign_minus = b;
        if b {
            self.sign_plus = false;
        }
        self
    }

    /// Sets whether the other form of a value is asked for, which none of this crate's types has.
    pub fn with_alternate(&mut self, b: bool) -> &mut Self
        ensures { HandsBack self.entry result (record self.old { alternate = b }) }
    {
        self.alternate = b;
        self
    }

    /// Sets whether numbers are padded by zeros between sign and digits, in place of fill and alignment.
    pub fn with_sign_aware_zero_pad(&mut self, b: bool) -> &mut Self
        ensures { HandsBack self.entry result (record self.old { sign_aware_zero_pad = b }) }
    {
        self.sign_aware_zero_pad = b;
        self
    }

    /// The character that pads to the requested width.
    pub fn fill(&self) -> char
        ensures { result ≡ self.now.fill }
    {
        self.fill
    }

    /// The alignment, if one is set.
    pub fn align(&self) -> Option<Alignment>
        ensures { result ≡ self.now.align }
    {
        self.align
    }

    /// These options, with the text on that side where no alignment is set.
    pub(crate) fn aligned(self, own_side: Alignment) -> FormatterOptions
        ensures { result ≡ record self { align = Some (unwrap_or self.align own_side) } }
    {
        FormatterOptions {
            align: Some(self.align.unwrap_or(own_side)),
            ..self
        }
    }

    /// The requested width in characters, if there is one.
    pub fn width(&self) -> Option<usize>
        ensures { result ≡ self.now.width }
    {
        self.width
    }

    /// The greatest number of characters of a text, if there is one.
    pub fn precision(&self) -> Option<usize>
        ensures { result ≡ self.now.precision }
    {
        self.precision
    }

    /// Whether numbers that are not negative show a `+`.
    pub fn sign_plus(&self) -> bool
        ensures { result ≡ self.now.sign_plus }
    {
        self.sign_plus
    }

    /// Whether the flag `-` is set.
    pub fn sign_minus(&self) -> bool
        ensures { result ≡ self.now.sign_minus }
    {
        self.sign_minus
    }

    /// Whether the other form of a value is asked for.
    pub fn alternate(&self) -> bool
        ensures { result ≡ self.now.alternate }
    {
        self.alternate
    }

    /// Whether numbers are padded by zeros between sign and digits.
    pub fn sign_aware_zero_pad(&self) -> bool
        ensures { result ≡ self.now.sign_aware_zero_pad }
    {
        self.sign_aware_zero_pad
    }
}
