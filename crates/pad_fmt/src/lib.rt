//! Padded text of known width: a port of `powerfmt`.
//!
//! A [`SmartDisplay`] value writes its text to a [`TextSink`], padded as its [`FormatterOptions`] ask, and knows the
//! width of that text before it writes it. Widths are numbers of bytes, requested widths and precisions are numbers
//! of characters; the two agree where everything is ASCII. Nothing here takes memory.
#![tactic(auto)]

mod buffer;
mod implementations;
mod metadata;
mod number;
mod options;
mod padding;
mod sink;
mod smart_display;
mod text;

pub use buffer::WriteBuffer;
pub use metadata::WidthAnd;
pub use options::{Alignment, FormatterOptions};
pub use padding::pad_with_width;
pub use sink::{Full, TextSink};
pub use smart_display::{Metadata, SmartDisplay, padded_width_of, unpadded_width_of};
pub use text::{Text, char_count};
