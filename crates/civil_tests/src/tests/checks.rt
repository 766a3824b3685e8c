//! Assertions: each is proved here once, with what it prints, and not again in every test that makes it. What is claimed of
//! values stands in functions that give a `bool`, which a test hands to `holds` by its name. They join claims by `&`, which looks at each of
//! them, as a proof has it a good deal simpler.

use std::alloc::Global;
use std::fmt::Display;
use std::hash::{DefaultHasher, Hash, Hasher};
use std::process::Abort;

/// Ends the test, and shows what was claimed, where that doesn't hold.
pub(crate) fn holds(rt: &impl Abort, what: &str, claim: bool) {
    assert!(rt; claim, "{what}");
}

/// Ends the test, and shows what a value prints, where that isn't what is wanted.
pub(crate) fn prints<T: Display>(rt: &impl Abort, alloc: Global, value: &T, wanted: &str) {
    let shown = format!(in alloc; "{value}").expect(rt, "memory");
    holds(rt, shown.as_str(), shown.as_str() == wanted);
}

/// What a hasher of its own makes of a value.
pub(crate) fn hash_of<T: Hash>(value: &T) -> u64 {
    let mut state = DefaultHasher::new();
    value.hash(&mut state);
    state.finish()
}
