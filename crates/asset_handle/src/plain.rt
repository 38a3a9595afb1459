//! The plain structs that callers in other languages fill in and read.

/// How many objects a step can list.
pub const SLOTS: usize = 16;

/// The count that stands for all objects.
pub const ALL: u64 = u64::MAX;

/// An object with its opening value.
#[repr(C)]
#[derive(Clone, Copy)]
pub struct PlainObject {
    pub name: u64,
    pub value: i64,
}

/// A step. A kind uses the fields that it needs and no other.
#[repr(C)]
#[derive(Clone, Copy)]
pub struct PlainStep {
    /// 1 initiate, 2 begin, 3 read, 4 write, 5 complete, 6 permit, 7 delegate, 8 depend, 9 commit, 10 abort, 11 wait,
    /// 12 add, 13 permit to anybody.
    pub kind: u32,
    /// Of an initiate 1 if it names a parent, and else 0; of either permit the sum of 1 to read, 2 to write and 4 to add; of a
    /// dependency 1 for a commit dependency, 2 for an abort dependency, 3 for a group commit.
    pub detail: u32,
    /// The transaction; of either permit or a delegation its giver, and of a dependency its source.
    pub first: u64,
    /// Of a read, a write or an add the object; of a permit or a delegation the taker; of a dependency the dependent; of an initiate
    /// the parent, if it names one.
    pub second: u64,
    /// The value that a write writes, or the amount that an add adds.
    pub value: i64,
    /// Of either permit or a delegation how many objects it lists, from 1 to 16; or, but for a permit to anybody, `ALL`.
    pub count: u64,
    /// The objects of either permit or a delegation, all different, in any order.
    pub objects: [u64; SLOTS],
}

/// An answer.
#[repr(C)]
#[derive(Clone, Copy, Debug, PartialEq, Eq)]
pub struct PlainAnswer {
    /// 1 done, 2 a value, 3 committed, 4 aborted, 5 wait, and from 16 to 24 a refusal: unknown, ended, not running, taken, begun,
    /// no object, same, cycle, too late.
    pub kind: u32,
    /// The transaction or the object that a refusal is about, and else 0.
    pub name: u64,
    /// The value that was read, and else 0.
    pub value: i64,
}

/// A waiter of an object.
#[repr(C)]
#[derive(Clone, Copy, Debug, PartialEq, Eq)]
pub struct PlainWaiter {
    /// The transaction that waits.
    pub name: u64,
    /// 1 if it asked to read, 2 to write, and 4 to add.
    pub op: u32,
}
