//! Why a line is bad.

/// What a word after the first one of a line has to be.
#[derive(Clone, Copy)]
pub enum Operand {
    /// The number of a transaction or of an object.
    Number,
    /// The number of a transaction, or `any`.
    Taker,
    /// A value.
    Value,
    /// Operations.
    Operations,
    /// A set of objects.
    Set,
    /// A set of objects other than `all`.
    List,
    /// A kind of dependency.
    Kind,
}

/// Which words stand after the first one of a line.
#[derive(Clone, Copy)]
pub enum Shape {
    /// An object and its value.
    ObjectAndValue,
    /// A transaction, and perhaps its parent.
    TxnAndParent,
    /// One transaction.
    OneTxn,
    /// A transaction and an object.
    TxnAndObject,
    /// A transaction, an object and a value.
    TxnObjectAndValue,
    /// A transaction, an object and an amount to add.
    TxnObjectAndAmount,
    /// Two transactions, operations and a set of objects; `any` in place of the second transaction is anybody.
    TxnsOpsAndSet,
    /// Two transactions and a set of objects.
    TxnsAndSet,
    /// A kind of dependency and two transactions.
    KindAndTxns,
}

/// Why a line is bad.
#[derive(Clone, Copy)]
pub enum Reason {
    /// It has more than 4,096 bytes.
    TooLong,
    /// It begins with a byte order mark.
    ByteOrderMark,
    /// Its last byte is a carriage return.
    CarriageReturn,
    /// It has a tab.
    Tab,
    /// It has spaces alone.
    SpacesAlone,
    /// It begins with a space.
    SpaceAtStart,
    /// It ends with a space.
    SpaceAtEnd,
    /// It has two spaces in a row.
    TwoSpaces,
    /// A comment stands after its first word.
    CommentAfter,
    /// A space stands beside a comma.
    SpaceAtComma,
    /// Its first word has a capital letter.
    CapitalLetter,
    /// Its first word is not the first word of any line.
    UnknownWord,
    /// It has a word too few or too many for its first word.
    Wants(Shape),
    /// A number has a plus sign.
    PlusSign,
    /// A number has a zero before another digit.
    LeadingZero,
    /// Zero has a minus sign.
    MinusZero,
    /// A number is out of range.
    NumberOutOfRange,
    /// A value is out of range.
    ValueOutOfRange,
    /// A word is no number.
    NoNumber,
    /// A word is no value.
    NoValue,
    /// Operations are written `wr`.
    SwappedOperations,
    /// A word is no operations.
    NoOperations,
    /// A word is no kind of dependency.
    NoKind,
    /// A comma of a set has no object on one of its sides.
    LoneComma,
    /// A set has more than 16 objects.
    TooManyObjects,
    /// A set has an object twice.
    TwiceInSet,
    /// It adds an object after the first step. Only a check of a whole script or a conversation finds it.
    ObjectAfterStep,
    /// It adds an object that an earlier line has added. Only a check of a whole script or a conversation finds it.
    GivenTwice,
}

/// A reason, and the word of the line that it is about. The word is empty if the reason is about none.
#[derive(Clone, Copy)]
pub struct Mistake<'a> {
    /// Why the line is bad.
    pub reason: Reason,
    /// The word.
    pub word: &'a [u8],
}

impl Mistake<'_> {
    ghost use Rattle.std.specs.Prelude.{◌≡◌, []};

    /// Returns a reason that is about no word.
    pub fn bare(reason: Reason) -> Mistake<'static>
        ensures reason { result.reason ≡ reason }
        ensures word { result.word.now ≡ [] }
    {
        Mistake { reason, word: &[] }
    }
}
