//! Names of transactions and of objects.

/// The name of a transaction, which its client chooses. Any number is a name. In one history a name is
/// initiated at most once.
#[derive(Clone, Copy, Debug, PartialEq, Eq, Hash)]
pub struct Txn(pub u64);

/// The name of an object. Any number is a name; the opening of a history says which objects exist.
#[derive(Clone, Copy, Debug, Default, PartialEq, Eq, Hash)]
pub struct Ob(pub u64);
