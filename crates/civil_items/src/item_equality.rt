//! When format items are equal.
ghost use Rattle.std.specs.{Prelude.{◌≡◌, nat_eq}, Cmp.{partial_equiv_from_equiv}};
ghost use Rattle.civil_items.specs.{ItemLaws.{are_equal, equal_equiv}, ItemTrees.{plain_of, plain_trees}, Trees.{same, all_same, literal, component, compound, component_place}};

use crate::format_item::Component;
use crate::owned_format_item::OwnedFormatItem;

/// Items are equal where their variants and contents are. A `Literal` equals a `StringLiteral` with the same bytes, at
/// every depth.
impl PartialEq for OwnedFormatItem {
    ghost eq = { are_equal };

    ghost laws = { partial_equiv_from_equiv equal_equiv };

    fn eq(&self, other: &OwnedFormatItem) -> bool {
        are_same(self, other)
    }
}

impl Eq for OwnedFormatItem {
    ghost laws = { equal_equiv };
}

impl OwnedFormatItem {
    /// Whether the item is that component.
    pub fn is_component(&self, rhs: &Component) -> bool
        ensures { result ≡ same (plain_of self.now) (component rhs.now) }
    {
        match self {
            OwnedFormatItem::Component(part) => is_same_component(*part, *rhs),
            _ => false,
        }
    }

    /// Whether the item is the compound of items equal to these.
    pub fn is_compound(&self, rhs: &[OwnedFormatItem]) -> bool
        ensures { result ≡ same (plain_of self.now) (compound (plain_trees rhs.now)) }
    {
        match self {
            OwnedFormatItem::Compound(items) => are_all_same(items.as_slice(), rhs),
            _ => false,
        }
    }

    // Whether the item is a literal of these bytes, of either kind.
    fn is_literal(&self, bytes: &[u8]) -> bool
        ensures { result ≡ same (plain_of self.now) (literal bytes.now) }
    {
        match self {
            OwnedFormatItem::Literal(own) => own.as_slice() == bytes,
            OwnedFormatItem::StringLiteral(own) => own.as_bytes() == bytes,
            _ => false,
        }
    }
}

#[cycle(same)]
fn are_same(one: &OwnedFormatItem, other: &OwnedFormatItem) -> bool
    ensures { result ≡ same (plain_of one.now) (plain_of other.now) }
{
    match one {
        OwnedFormatItem::Literal(bytes) => other.is_literal(bytes.as_slice()),
        OwnedFormatItem::StringLiteral(text) => other.is_literal(text.as_bytes()),
        OwnedFormatItem::Component(part) => other.is_component(part),
        OwnedFormatItem::Compound(items) => match other {
            OwnedFormatItem::Compound(others) => are_all_same(items.as_slice(), others.as_slice()),
            _ => false,
        },
        OwnedFormatItem::Optional(item) => match other {
            OwnedFormatItem::Optional(other) => are_same(item, other),
            _ => false,
        },
        OwnedFormatItem::First(items) => match other {
            OwnedFormatItem::First(others) => are_all_same(items.as_slice(), others.as_slice()),
            _ => false,
        },
    }
}

#[cycle(same)]
fn are_all_same(ones: &[OwnedFormatItem], others: &[OwnedFormatItem]) -> bool
    ensures { result ≡ all_same (plain_trees ones.now) (plain_trees others.now) }
{
    if ones.len() != others.len() {
        return false;
    }
    for i in 0..ones.len() {
        if !are_same(&ones[i], &others[i]) {
            return false;
        }
    }
    true
}

fn is_same_component(one: Component, other: Component) -> bool
    ensures { result ≡ nat_eq (component_place one) (component_place other) }
{
    one == other
}
