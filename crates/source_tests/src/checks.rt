//! Assertions: each is proved here once, with what it prints, and not again in every test that makes it. What is claimed of
//! values stands in functions that give a `bool`, which a test hands to `holds` by its name. They join claims by `&`, which looks at each of
//! them, as a proof has it a good deal simpler.

use civil_base::{OffsetDateTime, write_zoned};
use sefunjaro::Error;
use std::alloc::Global;
use std::fmt::Display;
use std::process::Abort;

/// Ends the test, and shows what was claimed, where that doesn't hold.
pub(crate) fn holds(rt: &impl Abort, what: &str, claim: bool) {
    assert!(rt; claim, "{what}");
}

/// Ends the test, and shows what was found, where a text isn't what is wanted.
pub(crate) fn reads(rt: &impl Abort, found: &str, wanted: &str) {
    holds(rt, found, found == wanted);
}

/// The same of what a value prints.
pub(crate) fn prints<T: Display>(rt: &impl Abort, alloc: Global, value: &T, wanted: &str) {
    let shown = format!(in alloc; "{value}").expect(rt, "memory");
    reads(rt, shown.as_str(), wanted);
}

/// Ends the test where a call isn't refused, or its error prints another text. It alone takes such an error apart, which is a large one.
pub(crate) fn refused<T: Drop>(
    rt: &impl Abort,
    alloc: Global,
    found: Result<T, Error>,
    wanted: &str,
) {
    match found {
        Ok(_) => panic!(rt; "not refused"),
        Err(error) => prints(rt, alloc, &error, wanted),
    }
}

/// Whether a date-time is written as that text.
pub(crate) fn is_written(found: &OffsetDateTime, text: &str) -> bool {
    let mut into = [0; 40];
    let end = write_zoned(found, &mut into);
    &into[..end] == text.as_bytes()
}
