//! Descriptions of formats that own what they hold.
ghost use Rattle.std.specs.Prelude.{◌≡◌, IfOk};
ghost use Rattle.civil_items.specs.{ItemTrees.{tree_of, trees_in, told_items, borrowed_tree, borrowed_trees}, Trees.{compound, component, component_in, compound_in}};

use crate::error::DifferentVariant;
use crate::format_item::{BorrowedFormatItem, Component};
use std::alloc::{AllocError, Global};

/// An item of a format that owns what it holds.
#[derive(Drop)]
pub enum OwnedFormatItem {
    /// These bytes.
    Literal(Vec<u8>),
    /// This text.
    StringLiteral(String),
    /// A part of the date-time.
    Component(Component),
    /// Items one after another.
    Compound(Vec<OwnedFormatItem>),
    /// An item that a text may leave out.
    Optional(Box<OwnedFormatItem>),
    /// The first of these items that a text has.
    First(Vec<OwnedFormatItem>),
}

impl OwnedFormatItem {
    /// A copy of the item.
    ///
    /// # Errors
    ///
    /// Want of memory alone.
    pub fn from_borrowed(
        alloc: Global,
        item: &BorrowedFormatItem<'_>,
    ) -> Result<OwnedFormatItem, AllocError>
        ensures { IfOk result (λ owned. tree_of owned ≡ borrowed_tree item.now) }
    {
        copy_of(alloc, item)
    }

    /// The compound of copies of the items.
    ///
    /// # Errors
    ///
    /// Want of memory alone.
    pub fn from_slice(
        alloc: Global,
        items: &[BorrowedFormatItem<'_>],
    ) -> Result<OwnedFormatItem, AllocError>
        ensures { IfOk result (λ owned. tree_of owned ≡ compound (borrowed_trees items.now)) }
    {
        Ok(OwnedFormatItem::Compound(copies_of(alloc, items)?))
    }

    /// The compound of copies of the items.
    ///
    /// # Errors
    ///
    /// Want of memory alone.
    pub fn from_borrowed_vec(
        alloc: Global,
        items: Vec<BorrowedFormatItem<'_>>,
    ) -> Result<OwnedFormatItem, AllocError>
        ensures { IfOk result (λ owned. tree_of owned ≡ compound (borrowed_trees items.entry.items)) }
    {
        OwnedFormatItem::from_slice(alloc, items.as_slice())
    }

    /// The items of a compound.
    ///
    /// # Errors
    ///
    /// `DifferentVariant` exactly where the item is of another variant.
    pub fn into_items(self) -> Result<Vec<OwnedFormatItem>, DifferentVariant>
        ensures { told_items result ≡ compound_in (tree_of self) }
    {
        match self {
            OwnedFormatItem::Compound(items) => Ok(items),
            _ => Err(DifferentVariant),
        }
    }
}

#[cycle(copy)]
fn copy_of(alloc: Global, item: &BorrowedFormatItem<'_>) -> Result<OwnedFormatItem, AllocError>
    ensures { IfOk result (λ owned. tree_of owned ≡ borrowed_tree item.now) }
{
    match item {
        BorrowedFormatItem::Literal(bytes) => {
            Ok(OwnedFormatItem::Literal(Vec::from_slice(alloc, bytes)?))
        }
        BorrowedFormatItem::StringLiteral(text) => {
            Ok(OwnedFormatItem::StringLiteral(String::from_str(alloc, text)?))
        }
        BorrowedFormatItem::Component(part) => Ok(OwnedFormatItem::Component(*part)),
        BorrowedFormatItem::Compound(items) => {
            Ok(OwnedFormatItem::Compound(copies_of(alloc, items)?))
        }
        BorrowedFormatItem::Optional(item) => {
            let copy = copy_of(alloc, item)?;
            Ok(OwnedFormatItem::Optional(Box::new(alloc, copy)?))
        }
        BorrowedFormatItem::First(items) => Ok(OwnedFormatItem::First(copies_of(alloc, items)?)),
    }
}

#[cycle(copy)]
fn copies_of(
    alloc: Global,
    items: &[BorrowedFormatItem<'_>],
) -> Result<Vec<OwnedFormatItem>, AllocError>
    ensures { IfOk result (λ owned. trees_in owned.items ≡ borrowed_trees items.now) }
{
    let mut copies = Vec::with_capacity(alloc, items.len())?;
    for item in items {
        copies.push(copy_of(alloc, item)?)?;
    }
    Ok(copies)
}

impl From<Component> for OwnedFormatItem {
    ghost from_gives = { λ part item. tree_of item ≡ component part };

    fn from(part: Component) -> OwnedFormatItem {
        OwnedFormatItem::Component(part)
    }
}

/// The compound of the items.
impl From<Vec<OwnedFormatItem>> for OwnedFormatItem {
    ghost from_gives = { λ items item. tree_of item ≡ compound (trees_in items.items) };

    fn from(items: Vec<OwnedFormatItem>) -> OwnedFormatItem {
        OwnedFormatItem::Compound(items)
    }
}

/// The component of the item. An item of another variant is refused.
impl TryFrom<OwnedFormatItem> for Component {
    type Error = DifferentVariant;

    ghost try_from_gives = { λ item result. result ≡ component_in (tree_of item) };

    fn try_from(item: OwnedFormatItem) -> Result<Component, DifferentVariant> {
        match item {
            OwnedFormatItem::Component(part) => Ok(part),
            _ => Err(DifferentVariant),
        }
    }
}
