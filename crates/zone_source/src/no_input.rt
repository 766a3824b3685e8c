//! The input of a run that has none.
ghost use Rattle.std.specs.Prelude.{Some, []};

use zone_outside::{Failed, Source};

/// An input that holds nothing, and never fails.
#[derive(Drop)]
pub struct NoInput;

impl Source for NoInput {
    ghost left = { λ _. Some [] };

    ghost given = { λ _. 0 };

    ghost faults = { λ _. 0 };

    fn read(&mut self, _into: &mut [u8]) -> Result<usize, Failed> {
        Ok(0)
    }
}
