//! Values that serve several lines each, of which one is in use.
ghost use Rattle.std.specs.Prelude.{◌≡◌, ◌<◌, ◌≤◌, ℕ, true, IfOk, IfSome, IsTrue, length, slice_index_or};
ghost use Rattle.zone_spans.specs.{Lines.{Line}, Several.{AreAll}, Years.{years_limit}};

use crate::transitions::Line;
use std::alloc::{AllocError, Global};
use std::mem;

/// How many values are kept besides the one in use: over 300 years some 20 MB of summaries at most. A line looks at the offset and the name
/// of each of them, and at the rules only where these are its own.
const MOST_OTHERS: usize = 1_023;

/// What is found for one line, and serves others.
pub(crate) trait Serve<'a>: Drop {
    /// What is true of each.
    ghost Holds: { Self → Type 0 };

    /// It is for a line that expands so many years.
    ghost Suits: { Line → ℕ → Self → Type 0 };

    /// One for the line, which expands so many years.
    fn begin(alloc: Global, line: &Line<'a>, years: u16) -> Self
        requires { years ≤ years_limit }
        ensures holds { Holds result }
        ensures suits { Suits line.now years result };

    /// Whether it is for the line, which expands so many years.
    fn serves(&self, line: &Line<'_>, years: u16) -> bool
        ensures { IsTrue result → Suits line.now years self.now };
}

/// A value that is in use, and others that were. The one that was in use last stands last.
#[derive(Drop)]
pub(crate) struct Several<T> {
    pub(crate) current: T,
    others: Vec<T>,
}

impl<'a, T: Serve<'a>> Several<T> {
    /// One value, and no others.
    pub(crate) fn new(alloc: Global, current: T) -> Several<T>
        requires { T.Holds current }
        ensures { AreAll T.Holds result }
    {
        Several {
            current,
            others: Vec::new(alloc),
        }
    }

    /// Takes into use one that is for the line, which expands so many years, or begins it.
    pub(crate) fn take_for(
        &mut self,
        alloc: Global,
        line: &Line<'a>,
        years: u16,
    ) -> Result<(), AllocError>
        requires years { years ≤ years_limit }
        requires kept { AreAll T.Holds self.old }
        ensures kept { IfOk result (λ _. AreAll T.Holds self.new) }
        ensures serves { IfOk result (λ _. T.Suits line.now years self.new.current) }
    {
        if self.find_for(line, years)? {
            return Ok(());
        }
        self.put(T::begin(alloc, line, years))
    }

    /// Takes one into use that is for the line, which expands so many years, and says whether there is one.
    fn find_for(&mut self, line: &Line<'_>, years: u16) -> Result<bool, AllocError>
        requires { AreAll T.Holds self.old }
        ensures kept { IfOk result (λ _. AreAll T.Holds self.new) }
        ensures serves { IfOk result (λ found. IsTrue found → T.Suits line.now years self.new.current) }
    {
        if self.current.serves(line, years) {
            return Ok(true);
        }
        match place_for(self.others.as_slice(), line, years) {
            Some(place) => {
                let next = self.others.remove(place);
                self.put(next)?;
                Ok(true)
            }
            None => Ok(false),
        }
    }

    /// Takes a value into use. The one that was goes behind the others. Of these the one that was in use longest ago is let go,
    /// where there are as many as may be.
    fn put(&mut self, next: T) -> Result<(), AllocError>
        requires kept { AreAll T.Holds self.old }
        requires next { T.Holds next }
        ensures kept { IfOk result (λ _. AreAll T.Holds self.new) }
        ensures current { IfOk result (λ _. self.new.current ≡ next) }
    {
        if self.others.len() >= MOST_OTHERS {
            drop(self.others.remove(0));
        }
        let used = mem::replace(&mut self.current, next);
        self.others.push(used)?;
        Ok(())
    }
}

/// The place of the first that is for the line, which expands so many years.
fn place_for<'a, T: Serve<'a>>(others: &[T], line: &Line<'_>, years: u16) -> Option<usize>
    ensures len { IfSome result (λ place. place < length others.now) }
    ensures serves { IfSome result (λ place. (d : T) → T.Suits line.now years (slice_index_or others.now place d)) }
{
    for i in 0..others.len() {
        if others[i].serves(line, years) {
            return Some(i);
        }
    }
    None
}
