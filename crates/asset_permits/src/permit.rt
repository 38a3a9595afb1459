//! Permits, as they are stored and as they are asked for.

use crate::copying::Cut;
use crate::permit_objects::PermitObjects;
use asset_names::{NoMemory, Ob, ObSet, Op, Ops, Txn};
use asset_seats::Sitter;
use std::alloc::Global;
use std::marker::Model;
use std::mem::size_of;

/// A permit that stands: the giver lets the taker do the operations on the objects. An open one lets anybody do them, and has
/// its giver in the taker's place.
#[derive(Drop)]
pub(crate) struct Permit {
    giver: Txn,
    taker: Txn,
    objects: PermitObjects,
    ops: Ops,
    is_open: bool,
}

const _: () = prove!(size_of::<Permit>() == 56);

impl Model for Permit {
    ghost use Rattle.asset_permits.specs.Descriptors.{Descriptor};
    ghost use Rattle.asset_permits.specs.Stored.{set_of};

    ghost Value = { Descriptor };

    ghost view = { λ p. record { giver = p.giver.0; taker = p.taker.0; objects = set_of p.objects; ops = p.ops; is_open = p.is_open } };
}

impl Permit {
    ghost use Rattle.std.specs.Prelude.{◌≡◌, true, false, IfOk, IfSome, IfNone};
    ghost use Rattle.asset_names.specs.InSet.{in_set};
    ghost use Rattle.asset_permits.specs.Copies.{cut_of};
    ghost use Rattle.asset_permits.specs.Descriptors.{includes, covers, opens_on, same_descriptor};
    ghost use Rattle.asset_permits.specs.Stored.{asked};

    /// Stores the permit that is asked for. It answers `NoMemory` if memory runs out.
    pub(crate) fn of(sought: &Sought, alloc: Global) -> Result<Permit, NoMemory>
        ensures { IfOk result (λ permit. permit ≡ asked sought.now) }
    {
        let objects = PermitObjects::of(&sought.objects, alloc)?;
        Ok(Permit {
            giver: sought.giver.t,
            taker: sought.taker.t,
            objects,
            ops: sought.ops,
            is_open: sought.is_open,
        })
    }

    /// Returns whether this is the permit that is asked for.
    #[tactic(auto, unfolding(crate::specs::Descriptors::same_descriptor))]
    pub(crate) fn is_same(&self, sought: &Sought) -> bool
        ensures { result ≡ same_descriptor self.now (asked sought.now) }
    {
        self.giver == sought.giver.t
            && self.taker == sought.taker.t
            && self.objects.is_same(&sought.objects)
            && same_ops(self.ops, sought.ops)
            && self.is_open == sought.is_open
    }

    /// Returns what is copied of the permit on the object, if it has the object.
    #[tactic(auto, unfolding(crate::specs::Copies::cut_of))]
    pub(crate) fn cut(&self, x: Ob) -> Option<Cut>
        ensures cut { IfSome result (λ cut. (cut ≡ cut_of x self.now) × (in_set self.now.objects x.0 ≡ true)) }
        ensures none { IfNone result (in_set self.now.objects x.0 ≡ false) }
    {
        if !self.objects.has(x) {
            return None;
        }
        Some(Cut {
            taker: self.taker,
            x,
            ops: self.ops,
            is_open: self.is_open,
        })
    }

    /// Returns whether the permit has the object and the operation.
    #[tactic(auto, unfolding(crate::specs::Descriptors::includes))]
    fn includes(&self, x: Ob, op: Op) -> bool
        ensures { result ≡ includes x.0 op self.now }
    {
        self.objects.has(x) && self.ops.has(op)
    }

    /// Returns whether the permit names its taker, and has the object and the operation.
    #[tactic(auto, unfolding(crate::specs::Descriptors::covers))]
    pub(crate) fn covers(&self, x: Ob, op: Op) -> bool
        ensures { result ≡ covers x.0 op self.now }
    {
        !self.is_open && self.includes(x, op)
    }

    /// Returns whether the permit is open, and has the object and the operation.
    #[tactic(auto, unfolding(crate::specs::Descriptors::opens_on))]
    pub(crate) fn opens(&self, x: Ob, op: Op) -> bool
        ensures { result ≡ opens_on x.0 op self.now }
    {
        self.is_open && self.includes(x, op)
    }
}

/// A permit that is asked for. An open one has its giver in the taker's place.
#[derive(Clone, Copy)]
pub(crate) struct Sought {
    pub giver: Sitter,
    pub taker: Sitter,
    pub objects: ObSet,
    pub ops: Ops,
    pub is_open: bool,
}

ghost use Rattle.std.specs.Prelude.{◌≡◌};
ghost use Rattle.asset_permits.specs.Descriptors.{same_ops};

/// Returns whether the two are the same operations.
#[tactic(auto, unfolding(crate::specs::Descriptors::same_ops))]
fn same_ops(ops: Ops, others: Ops) -> bool
    ensures { result ≡ same_ops ops others }
{
    ops.has(Op::Read) == others.has(Op::Read)
        && ops.has(Op::Write) == others.has(Op::Write)
        && ops.has(Op::Add) == others.has(Op::Add)
}
