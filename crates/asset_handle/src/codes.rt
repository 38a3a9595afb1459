//! The codes that calls return.

ghost use Rattle.std.specs.Prelude.{◌≡◌};
ghost use Rattle.asset_handle.specs.Codes.{number_of};

/// How a call of a handle went. After every code but `Done` nothing has changed: no handle, and nothing that was lent for an
/// answer, but for the object that `DoubleObject` names.
#[derive(Clone, Copy, Debug, PartialEq, Eq)]
pub enum Code {
    /// The call did what it says.
    Done,
    /// The history has no room for the entry together with those that live transactions are owed after it.
    Full,
    /// Memory ran out.
    NoMemory,
    /// The handle is closed.
    Closed,
    /// The handle is open already.
    IsOpen,
    /// The capacity is not from 1 to 1,000,000.
    BadCapacity,
    /// An object is given twice.
    DoubleObject,
    /// No step is asked for: the kind or the detail is unknown, the objects make no list, or they are all objects of a permit to
    /// anybody.
    BadArgument,
    /// There is no such object, waiter, entry or group.
    Absent,
}

impl Code {
    /// Returns the number of the code, from 0 for `Done` to 8 for `Absent`.
    pub fn number(self) -> u32
        ensures { result ≡ number_of self }
    {
        match self {
            Code::Done => 0,
            Code::Full => 1,
            Code::NoMemory => 2,
            Code::Closed => 3,
            Code::IsOpen => 4,
            Code::BadCapacity => 5,
            Code::DoubleObject => 6,
            Code::BadArgument => 7,
            Code::Absent => 8,
        }
    }
}
