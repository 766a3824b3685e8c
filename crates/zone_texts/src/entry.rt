//! Names of a source.

/// A name of a source, and the zone that it leads to where it is a link.
#[derive(Clone, Copy, Debug)]
pub struct NameEntry<'s> {
    /// The name.
    pub name: &'s str,
    /// The zone's name, where the name is a link.
    pub zone: Option<&'s str>,
}
