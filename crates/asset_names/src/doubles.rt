//! Finds an object that a list names twice.

ghost use Rattle.std.specs.Prelude.{◌≡◌, ℕ, ◌==◌, map, IfSome, IfNone, count_by};
ghost use Rattle.asset_names.specs.Sets.{IsLeastDouble, HasNoDouble, lesser};

use crate::names::Ob;

/// An item that names an object.
pub trait NamesObject {
    /// The number of the object that the item names.
    ghost object_of: { Self → ℕ };

    /// Returns the object that the item names.
    fn object(&self) -> Ob
        ensures { result.0 ≡ object_of self.now };
}

impl NamesObject for Ob {
    ghost object_of = { λ x. x.0 };

    fn object(&self) -> Ob {
        *self
    }
}

/// An object with its value.
impl NamesObject for (Ob, i64) {
    ghost object_of = { λ pair. pair.0.0 };

    fn object(&self) -> Ob {
        self.0
    }
}

/// Returns the least object that the items name at least twice. It compares each pair of items, and takes no
/// memory.
pub fn least_double<I: NamesObject>(items: &[I]) -> Option<Ob>
    ensures found { IfSome result (λ x. IsLeastDouble (map I.object_of items.now) x.0) }
    ensures none { IfNone result (HasNoDouble (map I.object_of items.now)) }
{
    let mut found: Option<Ob> = None;
    'items: for item in items {
        let x = item.object();
        if occurrences(items, x) >= 2 {
            found = Some(lesser(x, found));
        }
    }
    found
}

/// Returns how often the items name the object.
fn occurrences<I: NamesObject>(items: &[I], x: Ob) -> usize
    ensures { result ≡ count_by (λ item. I.object_of item == x.0) items.now }
{
    items.iter().filter(|item| item.object().0 == x.0).count()
}

/// Returns the lesser of an object and an optional other one.
fn lesser(x: Ob, other: Option<Ob>) -> Ob
    ensures { result ≡ lesser x other }
{
    match other {
        Some(y) if y.0 < x.0 => y,
        _ => x,
    }
}
