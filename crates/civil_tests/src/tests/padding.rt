//! What no clause says: that calls succeed, printed texts, and values from outside, which are what Rust's own
//! `format!` gives for the same options.
use crate::tests::checks::{hash_of, holds};
use pad_fmt::{
    Alignment, FormatterOptions, Full, Metadata, SmartDisplay, Text, TextSink, WriteBuffer,
    pad_with_width, padded_width_of, unpadded_width_of,
};
use std::alloc::Global;
use std::borrow::CowStr;
use std::process::Abort;

fn aligned(width: usize, align: Option<Alignment>) -> FormatterOptions {
    let mut f = FormatterOptions::default();
    f.with_width(Some(width)).with_align(align);
    f
}

/// Whether a value is shown as a text.
fn shows<T: SmartDisplay>(value: &T, f: FormatterOptions, text: &str) -> bool {
    let mut out = WriteBuffer::<48>::new();
    value.fmt(&mut out, f).is_ok() & (out.as_str() == text)
}

// Under a requested width of 8, with `|` between the texts: no alignment, left, center, right.
fn is_padded<T: SmartDisplay>(value: &T, unpadded: usize, texts: &str) -> bool {
    let none = aligned(8, None);
    let mut out = WriteBuffer::<48>::new();
    value.fmt(&mut out, none).is_ok()
        & out.write_char('|').is_ok()
        & value
            .fmt(&mut out, aligned(8, Some(Alignment::Left)))
            .is_ok()
        & out.write_char('|').is_ok()
        & value
            .fmt(&mut out, aligned(8, Some(Alignment::Center)))
            .is_ok()
        & out.write_char('|').is_ok()
        & value
            .fmt(&mut out, aligned(8, Some(Alignment::Right)))
            .is_ok()
        & (out.as_str() == texts)
        & (unpadded_width_of(value, none) == unpadded)
        & (padded_width_of(value, none) == 8)
}

const ABC: &str = "abc     |abc     |  abc   |     abc";

fn texts(owned: &String) -> bool {
    is_padded(&true, 4, "true    |true    |  true  |    true")
        & is_padded(&'é', 2, "é       |é       |   é    |       é")
        & is_padded(&Text("abc"), 3, ABC)
        & is_padded(owned, 3, ABC)
        & is_padded(&CowStr::Borrowed("abc"), 3, ABC)
        & is_padded(&buffer_of::<5>("abc"), 3, ABC)
}

fn numbers() -> bool {
    let mut f = aligned(8, Some(Alignment::Left));
    f.with_sign_aware_zero_pad(true).with_sign_plus(true);
    let none = FormatterOptions::default();
    is_padded(&42u16, 2, "      42|42      |   42   |      42")
        & is_padded(&-7i16, 2, "      -7|-7      |   -7   |      -7")
        & is_padded(&&42u64, 2, "      42|42      |   42   |      42")
        & shows(&42i16, f, "+0000042")
        & shows(&-42i16, f, "-0000042")
        & shows(&u128::MAX, none, "340282366920938463463374607431768211455")
        & shows(&i128::MIN, none, "-170141183460469231731687303715884105728")
}

/// Centered in a width of 8, between letters of two bytes: in 16 bytes of room, and in 15.
fn fills_past_ascii() -> bool {
    let mut f = aligned(8, Some(Alignment::Center));
    f.with_fill('é').with_precision(Some(2));
    let mut out = WriteBuffer::<15>::new();
    shows(&Text("äöü"), f, "éééäöééé")
        & (Text("äöü").fmt(&mut out, f) == Err(Full))
        & (out.as_str() == "éééäöéé")
}

fn given_widths() -> bool {
    let f = aligned(6, Some(Alignment::Center));
    let mut out = WriteBuffer::<6>::default();
    pad_with_width(&mut out, f, 3, "abc").is_ok() & (out.as_str() == " abc  ")
}

/// Whether what is known of a value serves its copy, and a reference to it.
fn is_reused() -> bool {
    let f = aligned(5, None);
    let value = 42u8;
    let known: Metadata<'_, u8> = value.metadata(f);
    let copy = known.copy();
    let reused: Metadata<'_, &u8> = known.reuse();
    let mut out = WriteBuffer::<5>::new();
    (copy.unpadded_width() == 2)
        & (reused.padded_width(f) == 5)
        & value.fmt_with_metadata(&mut out, f, copy).is_ok()
}

/// Flags that no text shows.
fn flags() -> bool {
    let mut f = FormatterOptions::default();
    f.with_sign_plus(true)
        .with_sign_minus(true)
        .with_alternate(true);
    !f.sign_plus() & f.sign_minus() & f.alternate()
}

#[test]
fn values_are_padded(rt: HostRuntime) {
    let owned = String::from_str(rt.alloc(), "abc").expect(&rt, "memory");
    holds(&rt, "texts", texts(&owned));
    holds(&rt, "numbers", numbers());
    holds(&rt, "fills past ASCII", fills_past_ascii());
    holds(&rt, "given widths", given_widths());
    holds(&rt, "reused metadata", is_reused());
    holds(&rt, "flags", flags());
}

fn buffer_of<const SIZE: usize>(text: &str) -> WriteBuffer<SIZE> {
    let mut buffer = WriteBuffer::new();
    let _ = buffer.write_str(text);
    buffer
}

/// Of an empty buffer: it takes `abc`, and nothing more.
fn is_filled(buffer: &mut WriteBuffer<3>) -> bool {
    (buffer.write_str("abcd") == Err(Full))
        & buffer.as_str().is_empty()
        & (buffer.write_str("abc") == Ok(()))
        & (buffer.remaining_capacity() == 0)
        & (buffer.write_char('d') == Err(Full))
        & (buffer.as_bytes() == b"abc".as_slice())
        & (hash_of(buffer) == hash_of(&"abc"))
}

/// Of the buffers `abc` and `abd`: how they are compared, and what is printed of them.
fn are_texts(
    rt: &impl Abort,
    alloc: Global,
    buffer: &WriteBuffer<3>,
    wide: &WriteBuffer<9>,
) -> bool {
    let shown = format!(in alloc; "{buffer}|{wide:>5}").expect(rt, "memory");
    !wide.same_text(buffer) & buffer.cmp_text(wide).is_lt() & (shown.as_str() == "abc|  abd")
}

#[test]
fn a_buffer_is_its_text(rt: HostRuntime) {
    let mut buffer = WriteBuffer::new();
    holds(&rt, "filled", is_filled(&mut buffer));
    let are_texts = are_texts(&rt, rt.alloc(), &buffer, &buffer_of("abd"));
    holds(&rt, "texts", are_texts);
}
