//! What turns an input that comes in pieces into an output.
ghost use Rattle.std.specs.Prelude.{◌≡◌, List, ℕ, ◌++◌, IfOk};
ghost use Rattle.zone_words.specs.Filters.{Made, Grows, Closes, BeginsEmpty};

use std::alloc::AllocError;

/// What is fed an input in pieces, and gives an output that doesn't depend on where the input is cut.
pub trait Filter {
    /// What it makes of an input.
    ghost made: { Self → Made };

    /// These bytes are what it was fed so far.
    ghost was_fed: { Self → List ℕ → Type 0 };

    /// Takes the next piece, and adds to the output what is due now; whether a fault is in that.
    ///
    /// # Errors
    ///
    /// Want of memory alone. Nothing is said then of what it was fed, nor of the output.
    fn feed(&mut self, piece: &[u8], output: &mut Vec<u8>) -> Result<bool, AllocError>
        ensures made { made self.new ≡ made self.old }
        ensures fed { IfOk result (λ fault. (fed : List ℕ) → was_fed self.old fed → was_fed self.new (fed ++ piece.now)) }
        ensures output { IfOk result (λ fault. (fed : List ℕ) → was_fed self.old fed →
            Grows (made self.old) fed piece.now output.old.items output.new.items fault) };

    /// Adds to the output what is due where the input ends here; whether a fault is in that. It is not fed again.
    ///
    /// # Errors
    ///
    /// Want of memory alone. Nothing is said then of the output.
    fn close(&mut self, output: &mut Vec<u8>) -> Result<bool, AllocError>
        ensures made { made self.new ≡ made self.old }
        ensures output { IfOk result (λ fault. (fed : List ℕ) → was_fed self.old fed →
            Closes (made self.old) fed output.old.items output.new.items fault) };

    /// Of no bytes nothing is written, and no fault is in that.
    ghost begins: { (s : Self) → BeginsEmpty (made s) };
}
