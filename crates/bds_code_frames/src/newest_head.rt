//! The newest frame, which each instruction looks at.
ghost use Rattle.std.specs.Prelude.{◌≡◌, ◌<◌, ℕ, ◌+◌, ◌^◌, IsSome, Some, None, is_some};
ghost use Rattle.bds_code_frames.specs.declared.head.Head.{Head as AnyHead};

use crate::head::Head;
use std::marker::Model;

/// The head of the newest frame, if there is one. It is no `Option`, so that nothing asks whether there is one where
/// that is proved.
#[derive(Debug, Drop)]
pub struct NewestHead {
    head: Head,
    is_there: bool,
}

impl Model for NewestHead {
    ghost use Rattle.std.specs.Prelude.{Option, Some, None, if◌then◌else◌};
    ghost use Rattle.std.specs.Coded.{coded_option};
    ghost use Rattle.bds_code_frames.specs.declared.head.Head.{Head};
    ghost use Rattle.bds_code_frames.specs.contracts.head.Head as any_head;

    ghost Value = { Option Head };

    ghost coded = { coded_option any_head.the_row.coded };

    ghost view = { λ n. if n.is_there then Some n.head else None };
}

impl NewestHead {
    /// There is none.
    pub fn none() -> NewestHead
        ensures { result ≡ None }
    {
        let head = Head {
            function: 0,
            place: 0,
            slots: 0,
            operands: 0,
        };
        NewestHead {
            head,
            is_there: false,
        }
    }

    /// This one.
    pub fn some(head: Head) -> NewestHead
        ensures { result ≡ Some head }
    {
        NewestHead {
            head,
            is_there: true,
        }
    }

    /// Whether there is one.
    pub fn is_there(&self) -> bool
        ensures { result ≡ is_some self.now }
    {
        self.is_there
    }

    /// The head of the one that is there.
    #[inline(always)]
    pub fn head(&self) -> Head
        requires { IsSome self.now }
        ensures { self.now ≡ Some result }
    {
        self.head
    }

    /// Sets its place.
    #[inline(always)]
    pub fn set_place(&mut self, place: u32)
        requires { IsSome self.old }
        ensures { (h : AnyHead) → self.old ≡ Some h → self.new ≡ Some (record h { place = place }) }
    {
        self.head.place = place;
    }

    /// Puts slots behind those that it has.
    #[inline(always)]
    pub fn add_slots(&mut self, count: usize)
        requires there { IsSome self.old }
        requires few { (h : AnyHead) → self.old ≡ Some h → h.operands + count < 2 ^ 64 }
        ensures { (h : AnyHead) → self.old ≡ Some h → self.new ≡ Some (record h { operands = h.operands + count }) }
    {
        self.head.operands += count;
    }
}
