//! Numbers of decimal digits.
ghost use Rattle.std.specs.Prelude.{◌≡◌, is_some, IfSome, nat_lt};
ghost use Rattle.civil_items.specs.DigitRange.{IsDigits};

/// A number of decimal digits, from 1 to 255.
#[derive(Clone, Copy, Debug, PartialEq, Eq)]
pub struct Digits {
    number: u8,
    ghost in_range: { IsDigits number },
}

impl Digits {
    ghost use Rattle.civil_items.specs.Digits.{digit_count};

    /// Nine digits, those of a nanosecond.
    pub(crate) const NINE: Digits = Digits { number: 9 };

    /// That many digits. There are none exactly where the number is 0.
    pub fn new(n: u8) -> Option<Digits>
        ensures has { is_some result ≡ nat_lt 0 n }
        ensures value { IfSome result (λ digits. digit_count digits ≡ n) }
    {
        if n > 0 {
            Some(Digits { number: n })
        } else {
            None
        }
    }

    /// The number.
    pub fn get(self) -> u8
        ensures value { result ≡ digit_count self }
        ensures bound { IsDigits result }
    {
        self.number
    }
}
