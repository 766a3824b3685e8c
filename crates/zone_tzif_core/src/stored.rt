//! Kinds that are kept by their places among the names of a file.

/// A kind whose name is a part of the names: so many bytes from a place on.
#[derive(Clone, Copy, Debug)]
pub(crate) struct Stored {
    pub utoff: i32,
    pub is_dst: bool,
    pub from: u8,
    pub length: usize,
}
