//! The tags of replies, one byte each.

ghost use Rattle.std.specs.Prelude.{◌≡◌};
ghost use Rattle.asset_entries.specs.Stored.{value_read};

use asset_names::{Ob, Refusal, Reply, Txn};

/// The kind of a reply, without the transaction, the object and the value that it is about: those stand in the
/// step.
#[derive(Clone, Copy)]
pub(crate) enum ReplyTag {
    Done,
    Value,
    Committed,
    Aborted,
    Unknown,
    Ended,
    NotRunning,
    Taken,
    Begun,
    NoObject,
    Same,
    Cycle,
    TooLate,
    /// Unknown, of the second of two transactions.
    SecondUnknown,
    /// Ended, of the second of two transactions.
    SecondEnded,
}

impl ReplyTag {
    ghost use Rattle.std.specs.Prelude.{◌≡◌, pos};
    ghost use Rattle.asset_entries.specs.Stored.{tag_of, tag_of_two, reply_about, reply_of_name, reply_of_two};

    /// Returns the tag of the reply.
    #[tactic(auto, unfolding(crate::specs::Stored::tag_of))]
    pub(crate) fn of(reply: Reply) -> ReplyTag
        ensures { result ≡ tag_of reply }
    {
        match reply {
            Reply::Done => ReplyTag::Done,
            Reply::Value(_) => ReplyTag::Value,
            Reply::Committed => ReplyTag::Committed,
            Reply::Aborted => ReplyTag::Aborted,
            Reply::Refused(Refusal::Unknown(_)) => ReplyTag::Unknown,
            Reply::Refused(Refusal::Ended(_)) => ReplyTag::Ended,
            Reply::Refused(Refusal::NotRunning(_)) => ReplyTag::NotRunning,
            Reply::Refused(Refusal::Taken(_)) => ReplyTag::Taken,
            Reply::Refused(Refusal::Begun(_)) => ReplyTag::Begun,
            Reply::Refused(Refusal::NoObject(_)) => ReplyTag::NoObject,
            Reply::Refused(Refusal::Same) => ReplyTag::Same,
            Reply::Refused(Refusal::Cycle) => ReplyTag::Cycle,
            Reply::Refused(Refusal::TooLate(_)) => ReplyTag::TooLate,
        }
    }

    /// Returns the reply with this tag about a transaction, an object and a value.
    #[tactic(auto, unfolding(crate::specs::Stored::reply_about))]
    pub(crate) fn about(self, t: Txn, x: Ob, v: i64) -> Reply
        ensures { result ≡ reply_about t x v self }
    {
        match self {
            ReplyTag::Done => Reply::Done,
            ReplyTag::Value => Reply::Value(v),
            ReplyTag::Committed => Reply::Committed,
            ReplyTag::Aborted => Reply::Aborted,
            ReplyTag::Unknown => Reply::Refused(Refusal::Unknown(t)),
            ReplyTag::Ended => Reply::Refused(Refusal::Ended(t)),
            ReplyTag::NotRunning => Reply::Refused(Refusal::NotRunning(t)),
            ReplyTag::Taken => Reply::Refused(Refusal::Taken(t)),
            ReplyTag::Begun => Reply::Refused(Refusal::Begun(t)),
            ReplyTag::NoObject => Reply::Refused(Refusal::NoObject(x)),
            ReplyTag::Same => Reply::Refused(Refusal::Same),
            ReplyTag::Cycle => Reply::Refused(Refusal::Cycle),
            ReplyTag::TooLate => Reply::Refused(Refusal::TooLate(t)),
            ReplyTag::SecondUnknown => Reply::Refused(Refusal::Unknown(t)),
            ReplyTag::SecondEnded => Reply::Refused(Refusal::Ended(t)),
        }
    }

    /// Returns the tag of the reply to a step of two transactions, by the first of them: it says which of the two a
    /// refusal is about.
    #[tactic(auto, unfolding(crate::specs::Stored::tag_of_two, crate::specs::Stored::tag_of))]
    pub(crate) fn of_two(first: Txn, reply: Reply) -> ReplyTag
        ensures { result ≡ tag_of_two first reply }
    {
        match reply {
            Reply::Refused(Refusal::Unknown(t)) => {
                if t.0 == first.0 {
                    ReplyTag::Unknown
                } else {
                    ReplyTag::SecondUnknown
                }
            }
            Reply::Refused(Refusal::Ended(t)) => {
                if t.0 == first.0 {
                    ReplyTag::Ended
                } else {
                    ReplyTag::SecondEnded
                }
            }
            _ => ReplyTag::of(reply),
        }
    }

    /// Returns the reply with this tag to a step of two transactions, about an object.
    #[tactic(auto, unfolding(crate::specs::Stored::reply_of_two))]
    pub(crate) fn about_two(self, first: Txn, second: Txn, x: Ob) -> Reply
        ensures { result ≡ reply_of_two first second x self }
    {
        match self {
            ReplyTag::SecondUnknown => Reply::Refused(Refusal::Unknown(second)),
            ReplyTag::SecondEnded => Reply::Refused(Refusal::Ended(second)),
            _ => self.about(first, x, 0),
        }
    }

    /// Returns the reply with this tag to a step that names no object.
    #[tactic(auto, unfolding(crate::specs::Stored::reply_of_name))]
    pub(crate) fn about_name(self, t: Txn) -> Reply
        ensures { result ≡ reply_of_name t self }
    {
        self.about(t, Ob::default(), 0)
    }
}

/// Returns the value that was read, and 0 for any other reply.
#[tactic(auto, unfolding(crate::specs::Stored::value_read))]
pub(crate) fn value_read(reply: Reply) -> i64
    ensures { result ≡ value_read reply }
{
    match reply {
        Reply::Value(v) => v,
        _ => 0,
    }
}
